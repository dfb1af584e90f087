// The commands of a drawing: draw. There is no reply where the line is no call.
#![tactic(auto)]

ghost use Rattle.std.specs.Prelude.{◌≤◌, length, IfSome};
ghost use Rattle.replies.specs.Replies.{Tells};
ghost use Rattle.lending.specs.Lent.{Lends};
ghost use Rattle.drawing.specs.Drawings.{ReadDrawing};
ghost use Rattle.drawing_commands.specs.Lines.{drawing_fields, DrawLine};

use replies::Reply;

// N P l b r t C of a drawing file, its strokes put into a lent output
fn read(file: &[u8], lent: &mut [i32]) -> Reply
    requires { length lent.old ≤ 40960 }
    ensures count_bound { result.count ≤ 16 }
    ensures tells { Tells (λ a. Lends (ReadDrawing file.now a) lent.new) drawing_fields 0 result }
{
    lending::prepare(lent);
    let a = drawing::read_drawing(file, lent);
    replies::begin(a.number, a.place)
        .window(a.window)
        .natural(a.count as u64)
}

// The same of a line: its file is read into bytes.
fn drawn(rest: &[u8], bytes: &mut [u8], lent: &mut [i32]) -> Option<Reply>
    requires { 40960 ≤ length lent.old }
    ensures count_bound { IfSome result (λ r. r.count ≤ 16) }
    ensures draw_line { DrawLine (length bytes.old) rest.now lent.new result }
{
    let (first, behind) = arguments::split_first(rest)?;
    let room = lending::read_room(first)?;
    let (_space, word) = behind.split_first()?;
    let count = words::read_bytes(word, bytes)?;
    let reply = read(&bytes[0..count], &mut lent[0..room]);
    Some(reply.lent(room))
}

// draw ROOM HEX: N P l b r t C o1 .. oROOM, HEX at most 70,000 bytes
pub fn draw(rest: &[u8], lent: &mut [i32]) -> Option<Reply>
    requires { 40960 ≤ length lent.old }
    ensures count_bound { IfSome result (λ r. r.count ≤ 16) }
    ensures draw_line { DrawLine 70000 rest.now lent.new result }
{
    // A byte takes two digits, and to clear 70,000 places for a few takes longer than all else.
    if rest.len() < 512 {
        let mut few = [0u8; 256];
        return drawn(rest, &mut few, lent);
    }
    let mut many = [0u8; 70000];
    drawn(rest, &mut many, lent)
}
