// The commands of an outline: outline. There is no reply where the line is no call.
#![tactic(auto)]

ghost use Rattle.std.specs.Prelude.{◌≡◌, ◌≤◌, length, IfSome};
ghost use Rattle.words.specs.Words.{numeral, unsigned};
ghost use Rattle.replies.specs.Replies.{Tells};
ghost use Rattle.lending.specs.Lent.{Lends};
ghost use Rattle.outlines.specs.Outlines.{Outline};
ghost use Rattle.outline_commands.specs.Lines.{outline_fields, OutlineLine};

use grid::Window;
use replies::Reply;

// The side order that a word is.
fn read_order(word: &[u8]) -> Option<u32>
    ensures { result ≡ unsigned 0xffff_ffff (numeral word.now) }
{
    Some(words::read_unsigned(word, 0xffff_ffff)? as u32)
}

// N P W of an outline, clipped into a lent output
fn clip(w: Window, order: u32, outline: &[i32], lent: &mut [i32]) -> Reply
    requires { length lent.old ≤ 40960 }
    ensures count_bound { result.count ≤ 16 }
    ensures tells { Tells (λ a. Lends (Outline w order outline.now a) lent.new) outline_fields 0 result }
{
    lending::prepare(lent);
    let a = outlines::clip_outline(w, order, outline, lent);
    replies::begin(a.number, a.place).natural(a.count as u64)
}

// outline ORDER ROOM l b r t M c1 .. cM: N P W o1 .. oROOM, M at most 256
pub fn outline(rest: &[u8], lent: &mut [i32]) -> Option<Reply>
    requires { 40960 ≤ length lent.old }
    ensures count_bound { IfSome result (λ r. r.count ≤ 16) }
    ensures outline_line { OutlineLine rest.now lent.new result }
{
    let (first, behind) = arguments::split_first(rest)?;
    let order = read_order(first)?;
    let mut numbers = [0i32; 261];
    let list = lending::read_list(behind, &mut numbers)?;
    let w = arguments::first_window(&numbers);
    let reply = clip(w, order, &numbers[5..list.end], &mut lent[0..list.room]);
    Some(reply.lent(list.room))
}
