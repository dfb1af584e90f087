// Many strokes against one rectangle: for each stroke that is given its index and its two rounded points, into a lent output. Strokes that only
// touch are given where they are asked for by name.
#![tactic(auto)]

ghost use Rattle.std.specs.Prelude.{◌≡◌, true, false, List, ◌∷◌, ◌+◌, ◌<◌, ◌≤◌, ℤ, length};
ghost use Rattle.std.proofs.lemmas.List.Edits.{sets};
ghost use Rattle.grid.specs.Table.{ends, WindowOnTable, StrokeOnTable, StrokesOnTable};
ghost use Rattle.cuts.specs.Cuts.{touches_at};
ghost use Rattle.batch.specs.Batches.{RowsGiven, RowsCall, Batch, BatchWithTouches, RoomForRow, WroteRow, WroteRows, RefusesRows};

use grid::{Answer, Refusal, Stroke, Window};
use strokes::plain;
use strokes::plain::Plainly;

// Puts a stroke's index and its two points from n on.
fn put(out: &mut [i32], n: usize, k: i32, s: Stroke)
    requires { n + 5 ≤ length out.old }
    ensures { out.new ≡ sets out.old n (k ∷ ends s) }
{
    out[n] = k;
    grid::put_stroke(out, n + 1, s);
}

// The same for a stroke kept whole, its index last: were both one function, the compiler would copy the numbers first, 42.5 instructions for 38.5.
fn put_whole(out: &mut [i32], n: usize, k: i32, s: Stroke)
    requires { n + 5 ≤ length out.old }
    ensures { out.new ≡ sets out.old n (k ∷ ends s) }
{
    grid::put_stroke(out, n + 1, s);
    out[n] = k;
}

// How many numbers the answer has.
fn count_rows(w: Window, s: &[i32], touches: bool) -> usize
    requires window_on_table { WindowOnTable w }
    requires strokes_on_table { StrokesOnTable s.now }
    ensures { (xs : List ℤ) → RowsGiven touches w s.now xs → result ≡ length xs }
{
    let mut needed = 0;
    for k in 0..s.len() / 4 {
        if cuts::gives(w, grid::stroke_at(s, k * 4), touches) {
            needed += 5;
        }
    }
    needed
}

// Puts the row of stroke k from n on, if it has one, and says where the next one starts; `least` is as `cuts::least_of` has it.
fn write_row(w: Window, s: Stroke, k: usize, out: &mut [i32], n: usize, least: u32) -> usize
    requires window_on_table { WindowOnTable w }
    requires stroke_on_table { StrokeOnTable s }
    requires k_bound { k < 4096 }
    requires room_for_row { RoomForRow (touches_at least) w s k n out.old }
    requires least_bound { least ≤ 1 }
    ensures { WroteRow (touches_at least) w s k n result out.old out.new }
{
    match plain::lies(w, s) {
        Plainly::Inside => {
            put_whole(out, n, k as i32, s);
            n + 5
        }
        Plainly::Outside => n,
        Plainly::Neither => match cuts::cut_stroke(w, s, least) {
            Some(part) => {
                put(out, n, k as i32, part);
                n + 5
            }
            None => n,
        },
    }
}

// Writes the answer, for which there is room, and says how many numbers it has. It stays a function of its own: its loop has all registers then.
#[inline(never)]
fn write_rows(w: Window, s: &[i32], out: &mut [i32], touches: bool) -> usize
    requires window_on_table { WindowOnTable w }
    requires strokes_on_table { StrokesOnTable s.now }
    requires xs_in_bounds { (xs : List ℤ) → RowsGiven touches w s.now xs → length xs ≤ length out.old }
    ensures { WroteRows touches w s.now result out.old out.new }
{
    let least = cuts::least_of(touches);
    let mut n = 0;
    for k in 0..s.len() / 4 {
        n = write_row(w, grid::stroke_at(s, k * 4), k, out, n, least);
    }
    n
}

// Tests a call, with 8 for an output that is too short: where there is room for every stroke that is known at once, else the answer is counted. It stays
// a function of its own: the stack that its count takes is free again before the rows are written.
#[inline(never)]
fn test_call(w: Window, s: &[i32], room: usize, touches: bool) -> Result<(), Refusal>
    ensures { RefusesRows touches w s.now room result }
{
    grid::test_window(w)?;
    grid::test_strokes(s)?;
    if s.len() / 4 * 5 <= room {
        return Ok(());
    }
    grid::test_room(count_rows(w, s, touches), room)
}

// The answer of either call, and its output.
fn answer(w: Window, s: &[i32], out: &mut [i32], touches: bool) -> Answer
    ensures { RowsCall touches w s.now result out.old out.new }
{
    match test_call(w, s, out.len(), touches) {
        Err(refusal) => grid::refused_by(refusal),
        Ok(()) => Answer {
            number: 0,
            place: 0,
            count: write_rows(w, s, out, touches),
        },
    }
}

// The batch. Its statement is `Batch`, specs/Batches.antt.
pub fn batch(w: Window, s: &[i32], out: &mut [i32]) -> Answer
    ensures { Batch w s.now result out.old out.new }
{
    answer(w, s, out, false)
}

// The batch with the strokes that only touch. Its statement is `BatchWithTouches`, specs/Batches.antt.
pub fn batch_with_touches(w: Window, s: &[i32], out: &mut [i32]) -> Answer
    ensures { BatchWithTouches w s.now result out.old out.new }
{
    answer(w, s, out, true)
}
