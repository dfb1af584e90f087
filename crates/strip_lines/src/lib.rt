// A strip's line, or row, as the book's file and the bookkeeper's answers have it: 0 3 0 0 640 320 = 0 0 20 10 mm.
#![tactic(auto)]

ghost use Rattle.std.specs.Prelude.{◌+◌, ◌≤◌, ◌<◌, length};
ghost use Rattle.text.specs.Pages.{Put};
ghost use Rattle.grid.specs.Table.{sides};
ghost use Rattle.strip_lines.specs.Lines.{sign, millimetre, listed, lengths, strip_text, row_text};

use grid::Window;

// Puts a minus where the number is negative.
fn put_sign(page: &mut [u8], at: usize, z: i32) -> usize
    requires { at + 1 ≤ length page.old }
    ensures put { Put page.old page.new at result (sign z) }
    ensures upper_bound { result ≤ at + 1 }
{
    if z < 0 {
        page[at] = b'-';
        return at + 1;
    }
    at
}

// Puts a grid number in millimetres, and a space.
fn put_millimetre(page: &mut [u8], at: usize, z: i32) -> usize
    requires { at + 123 ≤ length page.old }
    ensures put { Put page.old page.new at result (millimetre z) }
    ensures upper_bound { result ≤ at + 123 }
{
    let size = whole::size(z as i64);
    let a = put_sign(page, at, z);
    let b = measures::put_millimetres(page, a, size);
    page[b] = b' ';
    b + 1
}

// Puts the four numbers of a strip, a space after each.
fn put_sides(page: &mut [u8], at: usize, w: Window) -> usize
    requires { at + 60 ≤ length page.old }
    ensures put { Put page.old page.new at result (listed (sides w)) }
    ensures upper_bound { result ≤ at + 48 }
{
    let a = text::put_number(page, at, w.left, b' ');
    let b = text::put_number(page, a, w.bottom, b' ');
    let c = text::put_number(page, b, w.right, b' ');
    text::put_number(page, c, w.top, b' ')
}

// Puts the same in millimetres.
fn put_lengths(page: &mut [u8], at: usize, w: Window) -> usize
    requires { at + 492 ≤ length page.old }
    ensures put { Put page.old page.new at result (lengths (sides w)) }
    ensures upper_bound { result ≤ at + 492 }
{
    let a = put_millimetre(page, at, w.left);
    let b = put_millimetre(page, a, w.bottom);
    let c = put_millimetre(page, b, w.right);
    put_millimetre(page, c, w.top)
}

// Puts a strip, on the grid and in millimetres.
pub fn put_strip(page: &mut [u8], at: usize, w: Window) -> usize
    requires { at + 544 ≤ length page.old }
    ensures put { Put page.old page.new at result (strip_text w) }
    ensures upper_bound { result ≤ at + 544 }
{
    let a = put_sides(page, at, w);
    let b = text::put(page, a, b"= ");
    let c = put_lengths(page, b, w);
    text::put(page, c, b"mm")
}

// Puts the line of the strip in the table's slot k.
pub fn put_row(page: &mut [u8], at: usize, k: usize, w: Window) -> usize
    requires k_bound { k < 64 }
    requires at_in_bounds { at + 580 ≤ length page.old }
    ensures put { Put page.old page.new at result (row_text k w) }
    ensures upper_bound { result ≤ at + 580 }
{
    let a = text::put_number(page, at, (k / 32) as i32, b' ');
    let b = text::put_number(page, a, (k % 32) as i32, b' ');
    let c = put_strip(page, b, w);
    text::put(page, c, b"\n")
}
