// The points of a picture: a dot that is meant is filled, and a piece so short that the grid has one point for it is an open ring.
#![tactic(auto)]

ghost use Rattle.std.specs.Prelude.{◌≡◌, ◌+◌, ◌*◌, ◌≤◌, pos, length, get_or};
ghost use Rattle.text.specs.Pages.{Put};
ghost use Rattle.dots.specs.Dots.{spread, marked, point_path, point_paths, points};

// The number at a place of a list, or 0 beyond its end.
fn number_at(xs: &[i32], i: usize) -> i32
    ensures { result ≡ get_or xs.now i (pos 0) }
{
    xs.get(i).copied().unwrap_or(0)
}

// How far the ends of a stroke are apart, along both axes together: the four numbers from i on.
fn spread(xs: &[i32], i: usize) -> u64
    requires { i ≤ 34359738368 }
    ensures { result ≡ spread xs.now i }
{
    let across = view::apart(number_at(xs, i), number_at(xs, i + 2));
    let along = view::apart(number_at(xs, i + 1), number_at(xs, i + 3));
    across + along
}

// Whether the two ends of a kept row are one grid point, and its drawn stroke has a spread of `least` or more.
fn is_marked(strokes: &[i32], rows: &[i32], k: usize, least: u64) -> bool
    requires { k ≤ 4294967296 }
    ensures { result ≡ marked least strokes.now rows.now k }
{
    if spread(rows, k * 5 + 1) != 0 {
        return false;
    }
    let index = view::apart(0, number_at(rows, k * 5));
    least <= spread(strokes, index as usize * 4)
}

// Puts a row, if it is marked.
fn put_point(
    page: &mut [u8],
    at: usize,
    strokes: &[i32],
    rows: &[i32],
    k: usize,
    least: u64,
) -> usize
    requires k_bound { k ≤ 4294967296 }
    requires k_in_bounds { k * 5 + 5 ≤ length rows.now }
    requires at_in_bounds { at + 59 ≤ length page.old }
    ensures put { Put page.old page.new at result (point_path least strokes.now rows.now k) }
    ensures upper_bound { result ≤ at + 49 }
{
    if is_marked(strokes, rows, k, least) {
        return paths::put_stroke(page, at, rows, k * 5 + 1);
    }
    at
}

// Puts the marked ones of the first rows.
fn put_points(
    page: &mut [u8],
    at: usize,
    strokes: &[i32],
    rows: &[i32],
    kept: usize,
    least: u64,
) -> usize
    requires kept_bound { kept ≤ 4294967296 }
    requires kept_in_bounds { kept * 5 ≤ length rows.now }
    requires kept_in_bounds_2 { at + 49 * kept + 10 ≤ length page.old }
    ensures put { Put page.old page.new at result (point_paths least strokes.now rows.now kept) }
    ensures upper_bound { result ≤ at + 49 * kept }
{
    let mut end = at;
    for k in 0..kept {
        end = put_point(page, end, strokes, rows, k, least);
    }
    end
}

// Puts all points dark, and over those of strokes that have a length a smaller one that is white, and ends the group.
pub fn put_all(
    page: &mut [u8],
    at: usize,
    e: u64,
    strokes: &[i32],
    rows: &[i32],
    kept: usize,
) -> usize
    requires e_bound { e ≤ 4294967296 }
    requires kept_bound { kept ≤ 4294967296 }
    requires kept_in_bounds { kept * 5 ≤ length rows.now }
    requires kept_in_bounds_2 { at + 98 * kept + 300 ≤ length page.old }
    ensures put { Put page.old page.new at result (points e strokes.now rows.now kept) }
    ensures upper_bound { result ≤ at + 98 * kept + 300 }
{
    let a = paths::put_start(
        page,
        at,
        b"<path stroke=\"#14324f\" stroke-width=\"",
        10 * e,
    );
    let b = put_points(page, a, strokes, rows, kept, 0);
    let c = paths::put_start(
        page,
        b,
        b"\"/>\n<path stroke=\"white\" stroke-width=\"",
        5 * e,
    );
    let d = put_points(page, c, strokes, rows, kept, 1);
    text::put(page, d, b"\"/>\n</g>\n")
}
