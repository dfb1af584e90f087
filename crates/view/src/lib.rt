// What a picture must show: the least rectangle that holds the strip and every stroke.
#![tactic(auto)]

ghost use Rattle.std.specs.Prelude.{◌≡◌, ◌*◌, ◌≤◌, ◌/◌, length};
ghost use Rattle.view.specs.Views.{around, reach, apart, width, height, extent};

use grid::Window;

// The least rectangle that holds r and a point.
fn around(r: Window, x: i32, y: i32) -> Window
    ensures { result ≡ around r x y }
{
    Window {
        left: whole::lesser(r.left, x),
        bottom: whole::lesser(r.bottom, y),
        right: whole::greater(r.right, x),
        top: whole::greater(r.top, y),
    }
}

// The least rectangle that holds the strip and the points, two numbers each.
pub fn reach(w: Window, points: &[i32]) -> Window
    ensures { result ≡ reach w points.now (length points.now / 2) }
{
    let mut r = w;
    for k in 0..points.len() / 2 {
        r = around(r, points[2 * k], points[2 * k + 1]);
    }
    r
}

// How far two numbers are apart.
pub fn apart(a: i32, b: i32) -> u64
    ensures value { result ≡ apart a b }
    ensures upper_bound { result ≤ 4294967296 }
{
    whole::size((b as i64) - (a as i64))
}

pub fn width(r: Window) -> u64
    ensures value { result ≡ width r }
    ensures upper_bound { result ≤ 4294967296 }
{
    apart(r.left, r.right)
}

pub fn height(r: Window) -> u64
    ensures value { result ≡ height r }
    ensures upper_bound { result ≤ 4294967296 }
{
    apart(r.bottom, r.top)
}

// The longer side.
pub fn extent(r: Window) -> u64
    ensures value { result ≡ extent r }
    ensures upper_bound { result ≤ 4294967296 }
    ensures lower_bound { width r ≤ result }
{
    width(r).max(height(r))
}
