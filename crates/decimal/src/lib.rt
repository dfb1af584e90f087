// A decimal number of a text, as the f32 nearest to it.
#![tactic(auto)]

ghost use Rattle.std.specs.Prelude.{◌≡◌, false, ◌≤◌, ◌<◌, ◌^◌, length, pos};
ghost use Rattle.std.specs.Float.{binary32};
ghost use Rattle.std.specs.Float.Ieee.{round, to_bits};
ghost use Rattle.whole.specs.Rounding.{Rounds, to_even};
ghost use Rattle.text.specs.Runs.{run};
ghost use Rattle.decimal.specs.Decimals.{is_digit, AllDigits, with_digits, bits_of, Reads};
ghost use Rattle.decimal.specs.Workers.{ReadsPlain};

// How many digits a number may have.
const MOST_DIGITS: usize = 9;

// The whole number nearest to a / b, halves to the even one: an odd quotient adds one to twice the rest, so that its half goes up.
// `fraction` has it too, for numbers of 32 bits, where a division takes less time.
fn closest(a: u64, b: u64) -> u64
    requires b_nonzero { (0 < b) × (b < 2 ^ 62) }
    requires a_bound { a < 2 ^ 62 }
    ensures { Rounds to_even (pos a) (pos b) (pos result) }
{
    let quotient = a / b;
    if b < a % b * 2 + quotient % 2 {
        return quotient + 1;
    }
    quotient
}

// The bits of the f32 nearest to n / d. It keeps 24 binary digits: n is doubled until n / 64 d, rounded, has as many.
fn nearest_bits(n: u64, d: u64) -> u64
    requires n_nonzero { (0 < n) × (n < 2 ^ 30) }
    requires d_nonzero { (0 < d) × (d ≤ 10 ^ 9) }
    ensures { (result ≡ to_bits binary32 (round binary32 false n d)) × (result < 2 ^ 31) }
{
    let unit = d * 64;
    let mut scaled = n;
    let mut dropped: u64 = 155;
    // A while: how often the number is doubled depends on the number.
    while scaled < unit * 0x80_0000 {
        scaled *= 2;
        dropped -= 1;
    }
    // The exponent's field stands above 23 digits; the leading one adds one to it.
    dropped * 0x80_0000 + closest(scaled, unit)
}

// The bits of the f32 nearest to n / 10^places.
fn plain_bits(n: u32, places: usize) -> u32
    requires n_bound { n < 10 ^ 9 }
    requires places_bound { places ≤ 9 }
    ensures { (result ≡ bits_of false n places) × (result < 2 ^ 31) }
{
    if n == 0 {
        return 0;
    }
    nearest_bits(u64::from(n), 10u64.pow(places as u32)) as u32
}

pub fn is_digit(b: u8) -> bool
    ensures { result ≡ is_digit b }
{
    b.is_ascii_digit()
}

// How many digits the text starts with.
fn digits_in(text: &[u8]) -> usize
    ensures { result ≡ run is_digit text.now }
{
    match text.iter().position(|byte| !is_digit(*byte)) {
        Some(place) => place,
        None => text.len(),
    }
}

// The number whose digits are those of n and then these.
fn appended(n: u32, digits: &[u8]) -> u32
    requires all_digits { AllDigits digits.now }
    requires digits_bound { with_digits n digits.now < 2 ^ 32 }
    ensures { result ≡ with_digits n digits.now }
{
    let mut number = n;
    for digit in digits {
        number = number * 10 + u32::from(*digit - b'0');
    }
    number
}

// Reads a number whose first digits end before the text does.
fn read_pointed(text: &[u8], front: usize) -> Option<u32>
    requires front_value { front ≡ run is_digit text.now }
    requires front_nonzero { (0 < front) × (front < length text.now) }
    ensures { ReadsPlain text.now result }
{
    if text[front] != b'.' {
        return None;
    }
    let behind = &text[front + 1..];
    let places = behind.len();
    if places == 0 || digits_in(behind) < places || MOST_DIGITS < front + places {
        return None;
    }
    let whole = appended(0, &text[..front]);
    Some(plain_bits(appended(whole, behind), places))
}

// Reads a number with no sign.
fn read_plain(text: &[u8]) -> Option<u32>
    ensures { ReadsPlain text.now result }
{
    let front = digits_in(text);
    if front == 0 {
        return None;
    }
    if front < text.len() {
        return read_pointed(text, front);
    }
    if MOST_DIGITS < front {
        return None;
    }
    Some(plain_bits(appended(0, text), 0))
}

// Reads an optional minus, digits, and optionally a point and digits, at most MOST_DIGITS digits in all.
pub fn read(text: &[u8]) -> Option<u32>
    ensures { Reads text.now result }
{
    match text.strip_prefix(b"-") {
        Some(rest) => Some(read_plain(rest)? + 0x8000_0000),
        None => read_plain(text),
    }
}
