// What is given of a stroke, by its points alone: what the calls for many strokes ask for. A stroke that only touches the window is left out, or
// given where touches are asked for by name.
#![tactic(auto)]

ghost use Rattle.std.specs.Prelude.{◌≡◌, ◌≤◌};
ghost use Rattle.grid.specs.Table.{WindowOnTable, StrokeOnTable};
ghost use Rattle.strokes.specs.Workers.{Reaching};
ghost use Rattle.cuts.specs.Cuts.{touches_at, part_between, CutIs, SaysGiven};

use grid::{Stroke, Window};
use strokes::plain::Plainly;
use strokes::{End, ends, plain, ways};

// The part of a stroke from a to b.
fn part(a: End, b: End) -> Stroke
    ensures { result ≡ part_between a b }
{
    Stroke {
        x1: a.x,
        y1: a.y,
        x2: b.x,
        y2: b.y,
    }
}

// How much the ways of a stroke's two coordinates must have in common, measured as `ways::apart` does, if the stroke is to be given.
pub fn least_of(touches: bool) -> u32
    ensures { (result ≤ 1) × (touches_at result ≡ touches) }
{
    if touches { 0 } else { 1 }
}

// The part that is given of a stroke that is not plainly in or out, if any is; `least` is as `least_of` has it. The way of y comes first, and the end
// before the start: so the compiler has more registers free.
pub fn cut_stroke(w: Window, s: Stroke, least: u32) -> Option<Stroke>
    requires window_on_table { WindowOnTable w }
    requires stroke_on_table { StrokeOnTable s }
    requires reaching { Reaching w s }
    requires least_bound { least ≤ 1 }
    ensures { CutIs (touches_at least) w s result }
{
    let y = ways::passage(w.bottom, w.top, s.y1, s.y2);
    let x = ways::passage(w.left, w.right, s.x1, s.x2);
    if ways::apart(y, x, least) {
        return None;
    }
    let b = ends::finish(s, x, y);
    let a = ends::start(s, x, y);
    Some(part(a, b))
}

// Whether the stroke is given, where `touches` says whether a touch is; no point is computed.
pub fn gives(w: Window, s: Stroke, touches: bool) -> bool
    requires window_on_table { WindowOnTable w }
    requires stroke_on_table { StrokeOnTable s }
    ensures { SaysGiven touches w s result }
{
    match plain::lies(w, s) {
        Plainly::Inside => true,
        Plainly::Outside => false,
        Plainly::Neither => {
            let y = ways::passage(w.bottom, w.top, s.y1, s.y2);
            let x = ways::passage(w.left, w.right, s.x1, s.x2);
            !ways::apart(y, x, least_of(touches))
        }
    }
}
