// The line of a stroke and the four corners of a window: on which side of the line each corner lies, and which two sides of the window it crosses.
#![tactic(auto)]

ghost use Rattle.std.specs.Prelude.{◌≡◌};
ghost use Rattle.whole.specs.Within.{Within};
ghost use Rattle.grid.specs.Table.{farthest, WindowOnTable, StrokeOnTable};
ghost use Rattle.crossed_sides.specs.Line.{CrossedBy, entry_side as Line·entrySide, exit_side as Line·exitSide};
ghost use Rattle.crossed_sides.specs.Workers.{CourseOf, HasLength, LevelIf};

use grid::{Stroke, Window};
use strokes::Side;
use strokes::ends::side_met;

// The course of one coordinate, which has two sides of the window across it: how long it is, how far from its start lie the side where it comes in and
// that where it goes out, and where on the table they are. A side that lies behind the start is at a distance below 0.
#[derive(Clone, Copy)]
pub struct Course {
    pub long: i32,
    pub near: i32,
    pub far: i32,
    pub at: i32,
    pub to: i32,
}

// Where the line crosses the window. `entry` says whether it comes in over a level side, the bottom or the top, and not over an upright one; `exit` says
// the same of going out. Which of the two it is, the stroke's direction tells.
#[derive(Clone, Copy)]
pub struct Crossed {
    pub entry: bool,
    pub exit: bool,
}

// The course from a to b past the sides lo and hi.
pub fn course_past(lo: i32, hi: i32, a: i32, b: i32) -> Course
    requires within { Within farthest lo }
    requires within_2 { Within farthest hi }
    requires within_3 { Within farthest a }
    requires within_4 { Within farthest b }
    ensures { CourseOf lo hi a b result }
{
    if b < a {
        return Course {
            long: a - b,
            near: a - hi,
            far: a - lo,
            at: hi,
            to: lo,
        };
    }
    Course {
        long: b - a,
        near: lo - a,
        far: hi - a,
        at: lo,
        to: hi,
    }
}

// Whether the line crosses a level side and not the upright one beside it, by two products that put the corner between them on a side of the line.
// Through the corner itself it crosses both, and the upright one has the lower number; a stroke straight up or down crosses no upright one.
fn is_level(s: Stroke, a: i32, b: i32) -> bool
    ensures { LevelIf s a b result }
{
    if s.x1 == s.x2 {
        return true;
    }
    a < b
}

// Where the line crosses the window, or None where it leaves all four corners on one side.
// Each corner is put on one side of the line by two products, at most 32,766² = 1,073,610,756, and so of 32 bits.
pub fn find(w: Window, s: Stroke, x: Course, y: Course) -> Option<Crossed>
    requires window_on_table { WindowOnTable w }
    requires stroke_on_table { StrokeOnTable s }
    requires has_length { HasLength s }
    requires course_of { CourseOf w.left w.right s.x1 s.x2 x }
    requires course_of_2 { CourseOf w.bottom w.top s.y1 s.y2 y }
    ensures { CrossedBy w s result }
{
    let upright_in = y.long * x.near;
    let level_out = x.long * y.far;
    if level_out < upright_in {
        return None;
    }
    let upright_out = y.long * x.far;
    let level_in = x.long * y.near;
    if upright_out < level_in {
        return None;
    }
    Some(Crossed {
        entry: is_level(s, upright_in, level_in),
        exit: is_level(s, level_out, upright_out),
    })
}

// The number of the side where the line comes in.
pub fn entry_side(s: Stroke, level: bool) -> u8
    ensures { result ≡ Line·entrySide s level }
{
    if level {
        side_met(s.y1, s.y2, Side::Bottom, Side::Top)
    } else {
        side_met(s.x1, s.x2, Side::Left, Side::Right)
    }
}

// The number of the side where the line goes out: looking back from there it comes in.
pub fn exit_side(s: Stroke, level: bool) -> u8
    ensures { result ≡ Line·exitSide s level }
{
    if level {
        side_met(s.y2, s.y1, Side::Bottom, Side::Top)
    } else {
        side_met(s.x2, s.x1, Side::Left, Side::Right)
    }
}
