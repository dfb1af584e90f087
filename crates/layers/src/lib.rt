// The layers of a picture, one over another: the strip, what was drawn, and what is kept of it.
#![tactic(auto)]

ghost use Rattle.std.specs.Prelude.{◌+◌, ◌*◌, ◌≤◌, length};
ghost use Rattle.text.specs.Pages.{Put};
ghost use Rattle.layers.specs.Layers.{round_path, strip_path, drawn_paths};

use grid::Window;

// Puts the way along the strip's sides.
pub fn put_round(page: &mut [u8], at: usize, w: Window) -> usize
    requires { at + 70 ≤ length page.old }
    ensures put { Put page.old page.new at result (round_path w) }
    ensures upper_bound { result ≤ at + 60 }
{
    let a = marks::put_point(page, at, w.left, w.bottom, b'H');
    let b = text::put_number(page, a, w.right, b'V');
    let c = text::put_number(page, b, w.top, b'H');
    text::put_number(page, c, w.left, b'Z')
}

// Puts the strip.
pub fn put_strip(page: &mut [u8], at: usize, w: Window, e: u64) -> usize
    requires { at + 250 ≤ length page.old }
    ensures put { Put page.old page.new at result (strip_path w e) }
    ensures upper_bound { result ≤ at + 250 }
{
    let a = paths::put_start(
        page,
        at,
        b"<path fill=\"#e6f1f4\" stroke=\"#7d9ba6\" stroke-width=\"",
        e,
    );
    let b = text::put(page, a, b"M");
    let c = put_round(page, b, w);
    text::put(page, c, b"\"/>\n")
}

// Puts what was drawn, and over it what is kept, and ends the group.
pub fn put_drawn(
    page: &mut [u8],
    at: usize,
    e: u64,
    strokes: &[i32],
    drawn: usize,
    rows: &[i32],
    kept: usize,
) -> usize
    requires e_bound { e ≤ 4294967296 }
    requires drawn_in_bounds { drawn * 4 ≤ length strokes.now }
    requires kept_in_bounds { kept * 5 ≤ length rows.now }
    requires kept_in_bounds_2 { at + 49 * drawn + 49 * kept + 300 ≤ length page.old }
    ensures put { Put page.old page.new at result (drawn_paths e strokes.now drawn rows.now kept) }
    ensures upper_bound { result ≤ at + 49 * drawn + 49 * kept + 300 }
{
    let a = paths::put_start(page, at, b"<path stroke=\"#cbb79a\" stroke-width=\"", 2 * e);
    let b = paths::put_strokes(page, a, strokes, 4, drawn);
    let c = paths::put_start(
        page,
        b,
        b"\"/>\n<path stroke=\"#14324f\" stroke-width=\"",
        3 * e,
    );
    let d = paths::put_strokes(page, c, rows, 5, kept);
    text::put(page, d, b"\"/>\n</g>\n")
}
