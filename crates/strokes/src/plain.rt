// Strokes that are plainly in the window or plainly out of it. Most strokes are decided here, without a product.
ghost use Rattle.std.specs.Prelude.{◌≡◌, true, false, ℤ};
ghost use Rattle.spans.specs.Parts.{Time};
ghost use Rattle.strokes.specs.Strokes.{KeepsCoordinate, Keeps};
ghost use Rattle.strokes.specs.Workers.{EndsBetween, MayReach, EndsInside, Reaching, LiesAlong, Lies};

use grid::{Stroke, Window};

// Whether both ends of the way from a to b are between lo and hi, and so all of it.
fn between(lo: i32, hi: i32, a: i32, b: i32) -> bool
    ensures ends_between { result ≡ true → EndsBetween lo hi a b }
    ensures fact { result ≡ false → EndsBetween lo hi a b → ⊥ }
{
    lo <= a && a <= hi && lo <= b && b <= hi
}

// Whether both ends of the way from a to b are below lo, or both above hi, and so all of it.
fn beyond(lo: i32, hi: i32, a: i32, b: i32) -> bool
    ensures fact { result ≡ true → (n d : ℤ) → Time n d → KeepsCoordinate lo hi a b n d → ⊥ }
    ensures may_reach { result ≡ false → MayReach lo hi a b }
{
    if b < lo {
        return a < lo;
    }
    hi < a.min(b)
}

// How a way of one coordinate, or a stroke, lies by its two ends alone: plainly inside, plainly outside, or neither.
#[derive(Clone, Copy)]
pub enum Plainly {
    Inside,
    Outside,
    Neither,
}

// How the way from a to b lies: inside between lo and hi, outside below lo or above hi.
fn lies_along(lo: i32, hi: i32, a: i32, b: i32) -> Plainly
    ensures { LiesAlong lo hi a b result }
{
    if a < lo {
        if b < lo {
            return Plainly::Outside;
        }
        return Plainly::Neither;
    }
    if b < lo {
        return Plainly::Neither;
    }
    if hi < a {
        if hi < b {
            return Plainly::Outside;
        }
        return Plainly::Neither;
    }
    if hi < b {
        return Plainly::Neither;
    }
    Plainly::Inside
}

// Whether the stroke is plainly in the window.
pub fn inside(w: Window, s: Stroke) -> bool
    ensures ends_inside { result ≡ true → EndsInside w s }
    ensures fact { result ≡ false → EndsInside w s → ⊥ }
{
    between(w.left, w.right, s.x1, s.x2) && between(w.bottom, w.top, s.y1, s.y2)
}

// Whether the stroke is plainly beyond one side of the window.
pub fn outside(w: Window, s: Stroke) -> bool
    ensures fact { result ≡ true → (n d : ℤ) → Keeps w s n d → ⊥ }
    ensures reaching { result ≡ false → Reaching w s }
{
    beyond(w.bottom, w.top, s.y1, s.y2) || beyond(w.left, w.right, s.x1, s.x2)
}

// Both questions at once, for a loop over many strokes: no number is compared twice with a side.
pub fn lies(w: Window, s: Stroke) -> Plainly
    ensures { Lies w s result }
{
    match lies_along(w.left, w.right, s.x1, s.x2) {
        Plainly::Inside => lies_along(w.bottom, w.top, s.y1, s.y2),
        Plainly::Outside => Plainly::Outside,
        Plainly::Neither => {
            if beyond(w.bottom, w.top, s.y1, s.y2) {
                return Plainly::Outside;
            }
            Plainly::Neither
        }
    }
}
