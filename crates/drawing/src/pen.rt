// The pen: what a record does to it.
ghost use Rattle.std.specs.Prelude.{◌≡◌, ◌<◌, ◌≤◌, length};
ghost use Rattle.grid.specs.Refusals.{most_strokes};
ghost use Rattle.drawing.specs.Intake.{ByIntake};
ghost use Rattle.format.specs.Format.{most_bytes};
ghost use Rattle.drawing.specs.Pen.{fresh, drawn_to, after, turn_at, drawn_stroke};

use format::{Found, Step, reader};
use grid::Stroke;
use intake::{Point, PointMm};

// Whether there was a move, where the pen is, where its figure starts, and the strokes so far.
// `moved` stands beside two points that mean nothing before a move: with both in an Option a stroke of a drawing takes 319 instructions, so 233.
#[derive(Clone, Copy)]
pub struct Pen {
    pub moved: bool,
    pub here: Point,
    pub start: Point,
    pub strokes: usize,
}

// What a record does.
#[derive(Clone, Copy)]
pub enum Turn {
    // There is no record.
    End,
    // A fault, and the byte where it shows.
    Fault(usize),
    // The pen goes without a stroke; the place of the next record.
    Goes(Pen, usize),
    // The pen draws a stroke; the place of the next record.
    Draws(Pen, usize),
}

// The most strokes of a drawing.
const MOST_STROKES: usize = 4096;

// The pen before the first record.
pub fn fresh() -> Pen
    ensures { result ≡ fresh }
{
    let p = Point { x: 0, y: 0 };
    Pen {
        moved: false,
        here: p,
        start: p,
        strokes: 0,
    }
}

// The pen after a stroke to p.
fn drawn_to(pen: Pen, p: Point) -> Pen
    requires { pen.strokes < most_strokes }
    ensures { result ≡ drawn_to pen p }
{
    let start = pen.start;
    Pen {
        moved: pen.moved,
        here: p,
        start,
        strokes: pen.strokes + 1,
    }
}

// A move to a point in millimetres.
fn move_to(at: usize, next: usize, pen: Pen, x: f32, y: f32) -> Turn
    requires { at ≤ most_bytes }
    ensures { ByIntake (λ intake. after intake at next pen (Step.Move x y)) result }
{
    match intake::point_on_grid(PointMm { x, y }) {
        Ok(p) => Turn::Goes(
            Pen {
                moved: true,
                here: p,
                start: p,
                strokes: pen.strokes,
            },
            next,
        ),
        Err(refusal) => Turn::Fault(at + 1 + 4 * refusal.place),
    }
}

// A line to a point in millimetres.
fn line_to(at: usize, next: usize, pen: Pen, x: f32, y: f32) -> Turn
    requires { at ≤ most_bytes }
    ensures { ByIntake (λ intake. after intake at next pen (Step.Line x y)) result }
{
    if !pen.moved {
        return Turn::Fault(at);
    }
    if MOST_STROKES <= pen.strokes {
        return Turn::Fault(at);
    }
    match intake::point_on_grid(PointMm { x, y }) {
        Ok(p) => Turn::Draws(drawn_to(pen, p), next),
        Err(refusal) => Turn::Fault(at + 1 + 4 * refusal.place),
    }
}

// A close: back to the figure's start, by a stroke where the pen is at another point.
fn close(at: usize, next: usize, pen: Pen) -> Turn
    ensures { ByIntake (λ intake. after intake at next pen Step.Close) result }
{
    if !pen.moved {
        return Turn::Fault(at);
    }
    if pen.here == pen.start {
        return Turn::Goes(pen, next);
    }
    if pen.strokes < MOST_STROKES {
        return Turn::Draws(drawn_to(pen, pen.start), next);
    }
    Turn::Fault(at)
}

// What a step does. Its record starts at the byte `at`, and the record after it at the byte `next`.
pub fn after(at: usize, next: usize, pen: Pen, step: Step) -> Turn
    requires { at ≤ most_bytes }
    ensures { ByIntake (λ intake. after intake at next pen step) result }
{
    match step {
        Step::Move(x, y) => move_to(at, next, pen, x, y),
        Step::Line(x, y) => line_to(at, next, pen, x, y),
        Step::Close => close(at, next, pen),
    }
}

// What the record at a place does.
pub fn turn_at(bytes: &[u8], at: usize, pen: Pen) -> Turn
    requires { length bytes.now ≤ most_bytes }
    ensures { ByIntake (λ intake. turn_at intake bytes.now at pen) result }
{
    match reader::record_from(bytes, at) {
        Found::Record(step, next) => after(at, next, pen, step),
        Found::Bad => Turn::Fault(at),
        Found::End => Turn::End,
    }
}

// The stroke between the places of two pens: the one before it, and `to` after it.
pub fn drawn_stroke(pen: Pen, to: Pen) -> Stroke
    ensures { result ≡ drawn_stroke pen to }
{
    Stroke {
        x1: pen.here.x,
        y1: pen.here.y,
        x2: to.here.x,
        y2: to.here.y,
    }
}
