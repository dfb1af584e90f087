// The commands of a list of strokes: batch, and touches, which asks for the strokes that only touch as well. There is no reply where the line is no
// call.
#![tactic(auto)]

ghost use Rattle.std.specs.Prelude.{true, false, ◌≤◌, length, IfSome};
ghost use Rattle.replies.specs.Replies.{answer_fields, Tells};
ghost use Rattle.lending.specs.Lent.{Lends};
ghost use Rattle.batch.specs.Batches.{RowsCall};
ghost use Rattle.batch_commands.specs.Lines.{BatchLine};

use grid::{Answer, Window};
use replies::Reply;

// The call that a command makes.
// A flag, since `RowsCall` and `BatchLine` state both calls by it.
fn call(w: Window, strokes: &[i32], lent: &mut [i32], touches: bool) -> Answer
    ensures { RowsCall touches w strokes.now result lent.old lent.new }
{
    if touches {
        batch::batch_with_touches(w, strokes, lent)
    } else {
        batch::batch(w, strokes, lent)
    }
}

// N P W of a list of strokes, cut into a lent output
fn cut(w: Window, strokes: &[i32], lent: &mut [i32], touches: bool) -> Reply
    requires { length lent.old ≤ 40960 }
    ensures count_bound { result.count ≤ 16 }
    ensures tells { Tells (λ a. Lends (RowsCall touches w strokes.now a) lent.new) answer_fields 0 result }
{
    lending::prepare(lent);
    let a = call(w, strokes, lent, touches);
    replies::begin(a.number, a.place).natural(a.count as u64)
}

// The same of a line: its list is read into numbers.
fn listed(rest: &[u8], numbers: &mut [i32], lent: &mut [i32], touches: bool) -> Option<Reply>
    requires numbers_len_bound { length numbers.old ≤ 20005 }
    requires in_bounds { 40960 ≤ length lent.old }
    ensures count_bound { IfSome result (λ r. r.count ≤ 16) }
    ensures batch_line { BatchLine touches (length numbers.old) rest.now lent.new result }
{
    let list = lending::read_list(rest, numbers)?;
    let w = arguments::first_window(numbers);
    let reply = cut(w, &numbers[5..list.end], &mut lent[0..list.room], touches);
    Some(reply.lent(list.room))
}

// The same with room for the longest list.
fn asked(rest: &[u8], lent: &mut [i32], touches: bool) -> Option<Reply>
    requires { 40960 ≤ length lent.old }
    ensures count_bound { IfSome result (λ r. r.count ≤ 16) }
    ensures batch_line { BatchLine touches 20005 rest.now lent.new result }
{
    // A number takes two bytes or more, and to clear 20,005 places for a few takes longer than all else.
    if rest.len() < 512 {
        let mut few = [0i32; 256];
        return listed(rest, &mut few, lent, touches);
    }
    let mut many = [0i32; 20005];
    listed(rest, &mut many, lent, touches)
}

// batch ROOM l b r t M s1 .. sM: N P W o1 .. oROOM, M at most 20,000
pub fn batch(rest: &[u8], lent: &mut [i32]) -> Option<Reply>
    requires { 40960 ≤ length lent.old }
    ensures count_bound { IfSome result (λ r. r.count ≤ 16) }
    ensures batch_line { BatchLine false 20005 rest.now lent.new result }
{
    asked(rest, lent, false)
}

// touches ROOM l b r t M s1 .. sM: the same, with the strokes that only touch
pub fn touches(rest: &[u8], lent: &mut [i32]) -> Option<Reply>
    requires { 40960 ≤ length lent.old }
    ensures count_bound { IfSome result (λ r. r.count ≤ 16) }
    ensures batch_line { BatchLine true 20005 rest.now lent.new result }
{
    asked(rest, lent, true)
}
