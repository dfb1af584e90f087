// Words of a line: the numbers that they are.
#![tactic(auto)]

ghost use Rattle.std.specs.Prelude.{◌≡◌, ◌+◌, ◌≤◌, ◌<◌, ◌^◌, MatchOption, pos, neg_ℤ};
ghost use Rattle.std.specs.Float.{binary32};
ghost use Rattle.std.specs.Float.Ieee.{of_bits};
ghost use Rattle.words.specs.Digits.{digit_of, word_value};
ghost use Rattle.words.specs.Words.{up_to, has_minus, numeral, unsigned, as_integer, single, arguments, integers, pairs, bytes, Into};

// The value of a digit of a base.
fn digit(b: u8, base: u32) -> Option<u32>
    requires lower_bound { 2 ≤ base }
    requires upper_bound { base ≤ 16 }
    ensures { MatchOption result (base ≤ digit_of b) (λ d. (d ≡ digit_of b) × (d < base)) }
{
    (b as char).to_digit(base)
}

// The number that a word of digits is, if it is at most most.
fn read_natural(word: &[u8], base: u32, most: u64) -> Option<u64>
    requires base_nonzero { 2 ≤ base }
    requires base_bound { base ≤ 16 }
    requires most_bound { most < 2 ^ 32 }
    ensures { result ≡ up_to most (word_value base word.now) }
{
    if word.is_empty() {
        return None;
    }
    let mut n: u64 = 0;
    for b in word {
        n = n * (base as u64) + (digit(*b, base)? as u64);
        // More digits make it no smaller.
        if most < n {
            return None;
        }
    }
    Some(n)
}

fn has_minus(word: &[u8]) -> bool
    ensures { result ≡ has_minus word.now }
{
    word.starts_with(b"-")
}

// A number from 0 to most. The word -0 is one.
pub fn read_unsigned(word: &[u8], most: u64) -> Option<u64>
    requires { most < 2 ^ 32 }
    ensures { result ≡ unsigned most (numeral word.now) }
{
    if has_minus(word) {
        return read_natural(&word[1..], 10, 0);
    }
    read_natural(word, 10, most)
}

fn opposite(n: u64) -> i32
    requires { n ≤ 2 ^ 31 }
    ensures { result ≡ neg_ℤ (pos n) }
{
    -(n as i64) as i32
}

// A number that an i32 holds.
pub fn read_integer(word: &[u8]) -> Option<i32>
    ensures { result ≡ as_integer (numeral word.now) }
{
    if has_minus(word) {
        return Some(opposite(read_natural(&word[1..], 10, 0x8000_0000)?));
    }
    Some(read_natural(word, 10, 0x7fff_ffff)? as i32)
}

// The pattern of the infinity. Without the sign, a NaN's is above it.
const INFINITY: u32 = 0x7f80_0000;

// The f32 with these bits; every pattern of a NaN is the NaN.
pub fn from_bits(bits: u32) -> f32
    ensures { result ≡ of_bits binary32 bits }
{
    if INFINITY < bits % 0x8000_0000 {
        return f32::NAN;
    }
    f32::from_bits(bits)
}

// An f32, as the eight hexadecimal digits of its bits.
pub fn read_single(word: &[u8]) -> Option<f32>
    ensures { result ≡ single word.now }
{
    if word.len() != 8 {
        return None;
    }
    Some(from_bits(read_natural(word, 16, 0xffff_ffff)? as u32))
}

// Puts the numbers of a text at the front of out, and says how many there are: words that an i32 holds, each with a byte before it, the space.
pub fn read_integers(text: &[u8], out: &mut [i32]) -> Option<usize>
    ensures { Into (integers (arguments text.now)) out.new result }
{
    let mut n = 0;
    let mut at = 0;
    // A while: where a word begins is known when the one before it has been read.
    while at < text.len() {
        let start = at + 1;
        let end = text::find(text, start, b' ');
        let x = read_integer(&text[start..end])?;
        if out.len() <= n {
            return None;
        }
        out[n] = x;
        n += 1;
        at = end;
    }
    Some(n)
}

// Puts the bytes of a word at the front of out, and says how many there are: pairs of hexadecimal digits, or a minus for none.
pub fn read_bytes(word: &[u8], out: &mut [u8]) -> Option<usize>
    ensures { Into (bytes word.now) out.new result }
{
    if word.is_empty() {
        return None;
    }
    if !has_minus(word) {
        return read_pairs(word, out);
    }
    if word.len() == 1 { Some(0) } else { None }
}

fn read_pairs(text: &[u8], out: &mut [u8]) -> Option<usize>
    ensures { Into (pairs text.now) out.new result }
{
    let count = text.len() / 2;
    if text.len() % 2 != 0 || out.len() < count {
        return None;
    }
    for i in 0..count {
        let high = digit(text[2 * i], 16)?;
        let low = digit(text[2 * i + 1], 16)?;
        out[i] = (high * 16 + low) as u8;
    }
    Some(count)
}
