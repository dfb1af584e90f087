// Measures put into a text: a number of thousandths, and a length in millimetres.
#![tactic(auto)]

ghost use Rattle.std.specs.Prelude.{[], ◌∷◌, ◌+◌, ◌<◌, ◌≤◌, length};
ghost use Rattle.text.specs.Pages.{Put};
ghost use Rattle.measures.specs.Measures.{thousandths, decimals, millimetres};

// How many decimals a number of 32nds has at the most: 32 divides 100,000.
const MOST_DECIMALS: usize = 5;

// Puts n thousandths, and one byte after them.
pub fn put_thousandths(page: &mut [u8], at: usize, n: u64, last: u8) -> usize
    requires { at + 82 ≤ length page.old }
    ensures put { Put page.old page.new at result (thousandths n (last ∷ [])) }
    ensures upper_bound { result ≤ at + 82 }
{
    let a = text::put_count(page, at, n / 1000, b'.');
    let b = text::put_natural(page, a, n / 100 % 10);
    let c = text::put_natural(page, b, n / 10 % 10);
    text::put_count(page, c, n % 10, last)
}

// Puts the decimals of `part` of 32, by long division: each digit is that of ten times what is left.
fn put_decimals(page: &mut [u8], at: usize, part: u64) -> usize
    requires part_bound { part < 32 }
    requires at_in_bounds { at + 100 ≤ length page.old }
    ensures put { Put page.old page.new at result (decimals 5 part) }
    ensures upper_bound { result ≤ at + 100 }
{
    let mut end = at;
    let mut left = part;
    for _ in 0..MOST_DECIMALS {
        if left == 0 {
            return end;
        }
        end = text::put_natural(page, end, left * 10 / 32);
        left = left * 10 % 32;
    }
    end
}

// Puts a length of so many grid steps in millimetres: 32 steps are one.
pub fn put_millimetres(page: &mut [u8], at: usize, steps: u64) -> usize
    requires { at + 121 ≤ length page.old }
    ensures put { Put page.old page.new at result (millimetres steps) }
    ensures upper_bound { result ≤ at + 121 }
{
    if steps % 32 == 0 {
        return text::put_natural(page, at, steps / 32);
    }
    let point = text::put_count(page, at, steps / 32, b'.');
    put_decimals(page, point, steps % 32)
}
