// Text: words and numbers put one after another into a page that the caller lends.
#![tactic(auto)]

ghost use Rattle.std.specs.Prelude.{◌≡◌, [], ◌∷◌, ◌++◌, ◌+◌, ◌≤◌, length, drop};
ghost use Rattle.text.specs.Runs.{run, is, is_not, is_in};
ghost use Rattle.text.specs.Pages.{Put, big_endian, natural, integer, refusal};

// The place of the first byte b from `from` on, or the end.
pub fn find(text: &[u8], from: usize, b: u8) -> usize
    requires { from ≤ length text.now }
    ensures value { result ≡ from + run (is_not b) (drop from text.now) }
    ensures upper_bound { result ≤ length text.now }
{
    match text[from..].iter().position(|byte| *byte == b) {
        Some(place) => from + place,
        None => text.len(),
    }
}

// Whether the byte b stands in a text.
pub fn has(text: &[u8], b: u8) -> bool
    ensures { result ≡ is_in b text.now }
{
    text.contains(&b)
}

// The place of the first byte from `from` on that is not b, or the end.
pub fn skip(text: &[u8], from: usize, b: u8) -> usize
    requires { from ≤ length text.now }
    ensures value { result ≡ from + run (is b) (drop from text.now) }
    ensures upper_bound { result ≤ length text.now }
{
    match text[from..].iter().position(|byte| *byte != b) {
        Some(place) => from + place,
        None => text.len(),
    }
}

// Puts a word from the place `at` on, and says where it ends. The page is lent, of any length, and what stands behind the word stays as it was (`Put`,
// specs/Pages.antt): so this takes the page and a place, as all that puts text does, and no page with a place of its own, which could not say that.
pub fn put(page: &mut [u8], at: usize, word: &[u8]) -> usize
    requires { at + length word.now ≤ length page.old }
    ensures { Put page.old page.new at result word.now }
{
    let end = at + word.len();
    page[at..end].copy_from_slice(word);
    end
}

// Puts a number as four bytes, the highest first.
pub fn put_bytes(page: &mut [u8], at: usize, n: u32) -> usize
    requires { at + 4 ≤ length page.old }
    ensures { Put page.old page.new at result (big_endian n) }
{
    put(page, at, &n.to_be_bytes())
}

// Puts a number in decimal.
pub fn put_natural(page: &mut [u8], at: usize, n: u64) -> usize
    requires { at + 20 ≤ length page.old }
    ensures put { Put page.old page.new at result (natural n) }
    ensures upper_bound { result ≤ at + 20 }
{
    let mut digits = [0u8; 20];
    let count = io::decimal(n, &mut digits);
    put(page, at, &digits[..count])
}

// The same for a number with a sign.
pub fn put_integer(page: &mut [u8], at: usize, z: i64) -> usize
    requires { at + 21 ≤ length page.old }
    ensures put { Put page.old page.new at result (integer z) }
    ensures upper_bound { result ≤ at + 21 }
{
    let size = whole::size(z);
    if z < 0 {
        page[at] = b'-';
        return put_natural(page, at + 1, size);
    }
    put_natural(page, at, size)
}

// Puts a number, and one byte after it.
pub fn put_count(page: &mut [u8], at: usize, n: u64, last: u8) -> usize
    requires { at + 21 ≤ length page.old }
    ensures put { Put page.old page.new at result (natural n ++ last ∷ []) }
    ensures upper_bound { result ≤ at + 21 }
{
    let end = put_natural(page, at, n);
    page[end] = last;
    end + 1
}

// The same for a number with a sign: two lines, which a shared function would not shorten.
pub fn put_number(page: &mut [u8], at: usize, x: i32, last: u8) -> usize
    requires { at + 22 ≤ length page.old }
    ensures put { Put page.old page.new at result (integer x ++ last ∷ []) }
    ensures upper_bound { result ≤ at + 12 }
{
    let end = put_integer(page, at, x as i64);
    page[end] = last;
    end + 1
}

// Puts a refusal's words: its number and its place, and one byte after them.
pub fn put_refusal(page: &mut [u8], at: usize, number: u8, place: usize, last: u8) -> usize
    requires { at + 56 ≤ length page.old }
    ensures put { Put page.old page.new at result (refusal number place ++ last ∷ []) }
    ensures upper_bound { result ≤ at + 56 }
{
    let a = put(page, at, b"refused ");
    let b = put_count(page, a, number as u64, b' ');
    let c = put(page, b, b"place ");
    put_count(page, c, place as u64, last)
}
