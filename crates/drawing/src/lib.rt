// The drawing: what its records draw, and the call that reads it.
#![tactic(auto)]

ghost use Rattle.std.specs.Prelude.{◌≡◌, ◌+◌, ◌≤◌, length};
ghost use Rattle.grid.specs.Refusals.{refuse, bad_drawing};
ghost use Rattle.grid.specs.Calls.{written};
ghost use Rattle.drawing.specs.Intake.{ByIntake};
ghost use Rattle.format.specs.Format.{most_bytes, head_size};
ghost use Rattle.drawing.specs.Pen.{fresh};
ghost use Rattle.drawing.specs.Drawings.{walk, meaning, numbers, surveyed, answered, Drawable, ReadDrawing};

mod pen;

use grid::{Refusal, Window};
use pen::Turn;

// A refusal's number and place, or the window of a drawing and how many strokes it has.
#[repr(C)]
#[derive(Clone, Copy)]
pub struct DrawingAnswer {
    pub number: u8,
    pub place: usize,
    pub window: Window,
    pub count: usize,
}

// A drawing without a fault: its window, and how many strokes it has.
#[derive(Clone, Copy)]
struct Surveyed {
    window: Window,
    strokes: usize,
}

// The refusal of a drawing with a fault.
fn faulty() -> Refusal
    ensures { result ≡ refuse bad_drawing 0 }
{
    Refusal {
        number: grid::BAD_DRAWING,
        place: 0,
    }
}

// The first pass over the records: how many strokes they make, or that there is a fault.
fn count_strokes(bytes: &[u8], window: Window) -> Result<Surveyed, Refusal>
    requires { length bytes.now ≤ most_bytes }
    ensures { ByIntake (λ intake. surveyed (walk intake bytes.now window (length bytes.now) head_size fresh)) result }
{
    let mut pen = pen::fresh();
    let mut at: usize = format::HEAD_SIZE;
    // A loop: where the next record starts is known only once this one is read, so that no range has it.
    loop {
        match pen::turn_at(bytes, at, pen) {
            Turn::End => {
                return Ok(Surveyed {
                    window,
                    strokes: pen.strokes,
                });
            }
            Turn::Fault(_) => {
                return Err(faulty());
            }
            Turn::Goes(to, next) | Turn::Draws(to, next) => {
                pen = to;
                at = next;
            }
        }
    }
}

// What the bytes mean: the window and how many strokes, or that there is a fault.
fn survey(bytes: &[u8]) -> Result<Surveyed, Refusal>
    ensures { ByIntake (λ intake. surveyed (meaning intake bytes.now)) result }
{
    if format::head_fault(bytes) != format::HEAD_SIZE {
        return Err(faulty());
    }
    match intake::window_on_grid(format::window_at(bytes)) {
        Ok(window) => count_strokes(bytes, window),
        Err(_) => Err(faulty()),
    }
}

// The second pass over the records: the strokes are written.
fn write_strokes(bytes: &[u8], out: &mut [i32])
    requires { Drawable bytes.now (length out.old) }
    ensures { ByIntake (λ intake. written (numbers (meaning intake bytes.now)) out.old) out.new }
{
    let mut pen = pen::fresh();
    let mut at: usize = format::HEAD_SIZE;
    // A loop, as in the first pass.
    loop {
        match pen::turn_at(bytes, at, pen) {
            Turn::End => {
                return;
            }
            // Not reached: the first pass met no fault in these bytes.
            Turn::Fault(_) => {
                return;
            }
            Turn::Goes(to, next) => {
                pen = to;
                at = next;
            }
            Turn::Draws(to, next) => {
                grid::put_stroke(out, 4 * pen.strokes, pen::drawn_stroke(pen, to));
                pen = to;
                at = next;
            }
        }
    }
}

// Reads a drawing and writes its strokes, or refuses it: first by a fault, then by its window, then by the room.
fn read(bytes: &[u8], out: &mut [i32]) -> Result<Surveyed, Refusal>
    ensures { ReadDrawing bytes.now (answered result) out.old out.new }
{
    let found = survey(bytes)?;
    grid::test_window(found.window)?;
    grid::test_room(4 * found.strokes, out.len())?;
    write_strokes(bytes, out);
    Ok(found)
}

// Reads a drawing and writes its strokes in order, four numbers each. Where it refuses every other field is 0.
// Its statement is `ReadDrawing`, specs/Drawings.antt.
pub fn read_drawing(bytes: &[u8], out: &mut [i32]) -> DrawingAnswer
    ensures { ReadDrawing bytes.now result out.old out.new }
{
    match read(bytes, out) {
        Ok(Surveyed { window, strokes }) => DrawingAnswer {
            number: 0,
            place: 0,
            window,
            count: strokes,
        },
        Err(Refusal { number, place }) => DrawingAnswer {
            number,
            place,
            window: Window {
                left: 0,
                bottom: 0,
                right: 0,
                top: 0,
            },
            count: 0,
        },
    }
}
