// The lines of a listing: the strip, the strokes that are kept, and their count.
#![tactic(auto)]

ghost use Rattle.std.specs.Prelude.{◌+◌, ◌*◌, ◌≤◌, length};
ghost use Rattle.text.specs.Pages.{Put};
ghost use Rattle.lines.specs.Lines.{strip_line, row_at, row_lines, listed};

use grid::Window;

// Puts the strip's line.
fn put_strip(page: &mut [u8], at: usize, w: Window) -> usize
    requires { at + 64 ≤ length page.old }
    ensures put { Put page.old page.new at result (strip_line w) }
    ensures upper_bound { result ≤ at + 54 }
{
    let a = text::put(page, at, b"strip ");
    let b = marks::put_point(page, a, w.left, w.bottom, b' ');
    marks::put_point(page, b, w.right, w.top, b'\n')
}

// Puts the line of the row that starts at i.
fn put_row(page: &mut [u8], at: usize, rows: &[i32], i: usize) -> usize
    requires i_in_bounds { i + 5 ≤ length rows.now }
    requires at_in_bounds { at + 70 ≤ length page.old }
    ensures put { Put page.old page.new at result (row_at rows.now i) }
    ensures upper_bound { result ≤ at + 60 }
{
    // Read before the first is put, as in `paths`.
    let index = rows[i];
    let ax = rows[i + 1];
    let ay = rows[i + 2];
    let bx = rows[i + 3];
    let by = rows[i + 4];
    let a = text::put_number(page, at, index, b' ');
    let b = marks::put_point(page, a, ax, ay, b' ');
    marks::put_point(page, b, bx, by, b'\n')
}

// Puts the lines of all rows, five numbers each, as the C interface gives them.
fn put_rows(page: &mut [u8], at: usize, rows: &[i32]) -> usize
    requires { at + 12 * length rows.now + 70 ≤ length page.old }
    ensures put { Put page.old page.new at result (row_lines rows.now) }
    ensures upper_bound { result ≤ at + 12 * length rows.now }
{
    let mut end = at;
    for k in 0..rows.len() / 5 {
        end = put_row(page, end, rows, k * 5);
    }
    end
}

// Puts the listing of a drawing that was cut.
pub fn put_listing(page: &mut [u8], w: Window, drawn: usize, rows: &[i32], kept: usize) -> usize
    requires { 12 * length rows.now + 124 ≤ length page.old }
    ensures { Put page.old page.new 0 result (listed w drawn rows.now kept) }
{
    let first = put_strip(page, 0, w);
    let last = put_rows(page, first, rows);
    marks::put_kept(page, last, kept, drawn, b'\n')
}
