// Strokes against a rectangle by the cross-product rule, after Skala: the four corners of the window are put on one side or the other of the stroke's
// line, then the two sides that it crosses are found.
#![tactic(auto)]

ghost use Rattle.std.specs.Prelude.{◌≡◌, ◌<◌};
ghost use Rattle.grid.specs.Table.{WindowOnTable, StrokeOnTable};
ghost use Rattle.spans.specs.Parts.{zeroth, unit};
ghost use Rattle.spans.specs.Sides.{no_side, FirstOf, StartSide, EndSide};
ghost use Rattle.strokes.specs.Sides.{four_sides};
ghost use Rattle.strokes.specs.Strokes.{Clipped, Clipping};
ghost use Rattle.strokes.specs.Workers.{Reaching, EndAt};
ghost use Rattle.crossed_sides.specs.Line.{ComesIn, GoesOut, entry_side, exit_side};
ghost use Rattle.crossed_sides.specs.Workers.{CourseOf, HasLength};
ghost use Rattle.cross_product.specs.Workers.{part_way, MeetsUpright, MeetsLevel, EndFound};

use crossed_sides::Course;
use fraction::Fraction;
use grid::{Stroke, Window};
use spans::NO_SIDE;
use strokes::{End, StrokeAnswer, plain};

// The stroke's own start, where no side cuts it off.
fn own_start(s: Stroke) -> End
    requires { StrokeOnTable s }
    ensures { EndAt s zeroth no_side result }
{
    End {
        t: Fraction { num: 0, den: 1 },
        x: s.x1,
        y: s.y1,
        side: NO_SIDE,
    }
}

// The stroke's own end, where no side cuts it off. Beside `own_start`, with which it shares no number.
fn own_end(s: Stroke) -> End
    requires { StrokeOnTable s }
    ensures { EndAt s unit no_side result }
{
    End {
        t: Fraction { num: 1, den: 1 },
        x: s.x2,
        y: s.y2,
        side: NO_SIDE,
    }
}

// Where the stroke meets an upright side, n of its `long` steps across from its start: x is that of the side, so that only y is rounded.
fn at_upright(s: Stroke, at: i32, n: i32, long: i32, side: u8) -> End
    requires stroke_on_table { StrokeOnTable s }
    requires meets_upright { MeetsUpright s at n long }
    ensures { EndAt s (part_way n long) side result }
{
    let num = n as u32;
    let den = long as u32;
    End {
        t: Fraction {
            num: num as i64,
            den: den as i64,
        },
        x: at,
        y: fraction::rounded(s.y1, s.y2, num, den),
        side,
    }
}

// Where the stroke meets a level side: y is that of the side. Beside `at_upright`: one function would turn x and y round, and the answer back again.
fn at_level(s: Stroke, at: i32, n: i32, long: i32, side: u8) -> End
    requires stroke_on_table { StrokeOnTable s }
    requires meets_level { MeetsLevel s at n long }
    ensures { EndAt s (part_way n long) side result }
{
    let num = n as u32;
    let den = long as u32;
    End {
        t: Fraction {
            num: num as i64,
            den: den as i64,
        },
        x: fraction::rounded(s.x1, s.x2, num, den),
        y: at,
        side,
    }
}

// Where what is kept starts: on the side where the line comes in, unless the stroke starts behind it.
fn start(w: Window, s: Stroke, x: Course, y: Course, level: bool) -> End
    requires window_on_table { WindowOnTable w }
    requires stroke_on_table { StrokeOnTable s }
    requires reaching { Reaching w s }
    requires course_of { CourseOf w.left w.right s.x1 s.x2 x }
    requires course_of_2 { CourseOf w.bottom w.top s.y1 s.y2 y }
    requires first_of { FirstOf (ComesIn w s) four_sides (entry_side s level) }
    ensures { EndFound StartSide w s result }
{
    if level {
        if y.near <= 0 {
            return own_start(s);
        }
        return at_level(s, y.at, y.near, y.long, crossed_sides::entry_side(s, level));
    }
    if x.near <= 0 {
        return own_start(s);
    }
    at_upright(s, x.at, x.near, x.long, crossed_sides::entry_side(s, level))
}

// Where what is kept ends: on the side where the line goes out, unless the stroke ends before it. Beside `start`, whose tests and distances are others.
fn finish(w: Window, s: Stroke, x: Course, y: Course, level: bool) -> End
    requires window_on_table { WindowOnTable w }
    requires stroke_on_table { StrokeOnTable s }
    requires reaching { Reaching w s }
    requires course_of { CourseOf w.left w.right s.x1 s.x2 x }
    requires course_of_2 { CourseOf w.bottom w.top s.y1 s.y2 y }
    requires first_of { FirstOf (GoesOut w s) four_sides (exit_side s level) }
    ensures { EndFound EndSide w s result }
{
    if level {
        if y.long <= y.far {
            return own_end(s);
        }
        return at_level(s, y.to, y.far, y.long, crossed_sides::exit_side(s, level));
    }
    if x.long <= x.far {
        return own_end(s);
    }
    at_upright(s, x.to, x.far, x.long, crossed_sides::exit_side(s, level))
}

// The answer of a stroke that is not plainly in or out: missed where the line leaves all four corners on one side.
fn crossing(w: Window, s: Stroke) -> StrokeAnswer
    requires window_on_table { WindowOnTable w }
    requires stroke_on_table { StrokeOnTable s }
    requires reaching { Reaching w s }
    requires has_length { HasLength s }
    ensures { Clipped w s result }
{
    let x = crossed_sides::course_past(w.left, w.right, s.x1, s.x2);
    let y = crossed_sides::course_past(w.bottom, w.top, s.y1, s.y2);
    let Some(line) = crossed_sides::find(w, s, x, y) else {
        return strokes::missed();
    };
    let b = finish(w, s, x, y, line.exit);
    let a = start(w, s, x, y, line.entry);
    strokes::kept_answer(a, b)
}

// A stroke against a rectangle by the cross-product rule. What the codes of its two ends say, `plain` asks without making them.
// Its statement is `Clipping`, crates/strokes/specs/Strokes.antt.
pub fn cross_product(w: Window, s: Stroke) -> StrokeAnswer
    ensures { Clipping w s result }
{
    if let Err(refusal) = grid::test_window(w) {
        return strokes::refused(refusal);
    }
    if plain::inside(w, s) {
        return strokes::whole_answer(s);
    }
    if let Err(refusal) = grid::test_stroke(s) {
        return strokes::refused(refusal);
    }
    if plain::outside(w, s) {
        return strokes::missed();
    }
    crossing(w, s)
}
