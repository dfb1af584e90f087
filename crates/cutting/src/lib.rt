// A drawing, read and cut to its strip.
#![tactic(auto)]

ghost use Rattle.std.specs.Prelude.{◌≤◌, length};
ghost use Rattle.cutting.specs.Sheets.{CutDrawing};

use grid::{Refusal, Window};

// The strip of a drawing that is cut, how many strokes are drawn, and how many of them are kept: those that have a row.
#[derive(Clone, Copy)]
pub struct Sheet {
    pub window: Window,
    pub drawn: usize,
    pub kept: usize,
}

// Writes the strokes of a drawing, four numbers each, and the rows of the batch without touches, five numbers each.
pub fn cut_drawing(bytes: &[u8], strokes: &mut [i32], rows: &mut [i32]) -> Result<Sheet, Refusal>
    requires in_bounds { 16384 ≤ length strokes.old }
    requires in_bounds_2 { 20480 ≤ length rows.old }
    ensures { CutDrawing bytes.now result strokes.new rows.new }
{
    let read = drawing::read_drawing(bytes, strokes);
    // The answer is that of the C interface, in which the number 0 is no refusal.
    if read.number != 0 {
        return Err(Refusal {
            number: read.number,
            place: read.place,
        });
    }
    let window = read.window;
    let numbers = read.count * 4;
    // It refuses nothing: a drawing's numbers are on the table.
    let answer = batch::batch(window, &strokes[..numbers], rows);
    Ok(Sheet {
        window,
        drawn: read.count,
        kept: answer.count / 5,
    })
}
