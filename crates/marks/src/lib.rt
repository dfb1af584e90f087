// What a listing and a picture are both made of: labelled numbers, points and the count of kept strokes. The last byte is the caller's, as in `text`.
#![tactic(auto)]

ghost use Rattle.std.specs.Prelude.{[], ◌∷◌, ◌+◌, ◌≤◌, length};
ghost use Rattle.text.specs.Pages.{Put};
ghost use Rattle.marks.specs.Marks.{labelled, labelled_pair, point_mark, kept_mark};

// Puts a label and its number.
pub fn put_labelled(page: &mut [u8], at: usize, label: &[u8], n: u64, last: u8) -> usize
    requires { at + length label.now + 21 ≤ length page.old }
    ensures put { Put page.old page.new at result (labelled label.now n (last ∷ [])) }
    ensures upper_bound { result ≤ at + length label.now + 21 }
{
    let next = text::put(page, at, label);
    text::put_count(page, next, n, last)
}

// Puts a label and two numbers.
pub fn put_labelled_pair(
    page: &mut [u8],
    at: usize,
    label: &[u8],
    m: u64,
    n: u64,
    last: u8,
) -> usize
    requires { at + length label.now + 42 ≤ length page.old }
    ensures put { Put page.old page.new at result (labelled_pair label.now m n (last ∷ [])) }
    ensures upper_bound { result ≤ at + length label.now + 42 }
{
    let next = put_labelled(page, at, label, m, b' ');
    text::put_count(page, next, n, last)
}

// Puts a point.
pub fn put_point(page: &mut [u8], at: usize, x: i32, y: i32, last: u8) -> usize
    requires { at + 34 ≤ length page.old }
    ensures put { Put page.old page.new at result (point_mark x y (last ∷ [])) }
    ensures upper_bound { result ≤ at + 24 }
{
    let next = text::put_number(page, at, x, b' ');
    text::put_number(page, next, y, last)
}

// Puts how many of all strokes are kept.
pub fn put_kept(page: &mut [u8], at: usize, kept: usize, all: usize, last: u8) -> usize
    requires { at + 50 ≤ length page.old }
    ensures put { Put page.old page.new at result (kept_mark kept all (last ∷ [])) }
    ensures upper_bound { result ≤ at + 50 }
{
    let next = put_labelled(page, at, b"kept ", kept as u64, b' ');
    put_labelled(page, next, b"of ", all as u64, last)
}
