// The artwork of a picture, from the strip at the bottom to the numbers and points on top.
#![tactic(auto)]

ghost use Rattle.std.specs.Prelude.{◌+◌, ◌*◌, ◌≤◌, length};
ghost use Rattle.text.specs.Pages.{Put};
ghost use Rattle.artwork.specs.Artwork.{artwork};

use grid::Window;

// Puts the strip, what was drawn, what is kept, the strokes' numbers, and the points over all.
pub fn put_artwork(
    page: &mut [u8],
    at: usize,
    w: Window,
    v: Window,
    strokes: &[i32],
    drawn: usize,
    rows: &[i32],
    kept: usize,
) -> usize
    requires drawn_in_bounds { drawn * 4 ≤ length strokes.now }
    requires kept_in_bounds { kept * 5 ≤ length rows.now }
    requires kept_bound { kept ≤ 4096 }
    requires kept_in_bounds_2 { at + 49 * drawn + 147 * kept + 9400 ≤ length page.old }
    ensures put { Put page.old page.new at result (artwork w v strokes.now drawn rows.now kept) }
    ensures upper_bound { result ≤ at + 49 * drawn + 147 * kept + 9400 }
{
    let e = view::extent(v);
    let a = layers::put_strip(page, at, w, e);
    let b = layers::put_drawn(page, a, e, strokes, drawn, rows, kept);
    let c = labels::put_labels(page, b, v, strokes, drawn);
    // The points come last: a number's border could hide one.
    let d = frames::put_placed(page, c, v);
    dots::put_all(page, d, e, strokes, rows, kept)
}
