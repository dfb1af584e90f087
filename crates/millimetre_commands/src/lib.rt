// The commands of the intake: mm2, mm4 and back. There is no reply where the line is no call.
#![tactic(auto)]

ghost use Rattle.std.specs.Prelude.{◌≡◌, ◌+◌, ◌≤◌, length, drop, IfSome};
ghost use Rattle.replies.specs.Replies.{Tells};
ghost use Rattle.intake.specs.Millimetres.{ToMillimetres};
ghost use Rattle.millimetre_commands.specs.Lines.{back_fields, single_at, Mm2, Mm4, BackLine};

use intake::{PointMm, WindowMm};
use replies::Reply;

// The f32 after the space at p.
fn single_at(rest: &[u8], p: usize) -> Option<f32>
    requires { p + 9 ≤ length rest.now }
    ensures { result ≡ single_at (drop p rest.now) }
{
    if rest[p] != b' ' {
        return None;
    }
    words::read_single(&rest[p + 1..p + 9])
}

// mm2 H H: N P x y
pub fn mm2(rest: &[u8]) -> Option<Reply>
    ensures count_bound { IfSome result (λ r. r.count ≤ 16) }
    ensures mm2 { Mm2 rest.now result }
{
    if rest.len() != 18 {
        return None;
    }
    let x = single_at(rest, 0)?;
    let y = single_at(rest, 9)?;
    let a = intake::point_to_grid(PointMm { x, y });
    Some(replies::begin(a.number, a.place).integer(a.x).integer(a.y))
}

// mm4 H H H H: N P l b r t
pub fn mm4(rest: &[u8]) -> Option<Reply>
    ensures count_bound { IfSome result (λ r. r.count ≤ 16) }
    ensures mm4 { Mm4 rest.now result }
{
    if rest.len() != 36 {
        return None;
    }
    let left = single_at(rest, 0)?;
    let bottom = single_at(rest, 9)?;
    let right = single_at(rest, 18)?;
    let top = single_at(rest, 27)?;
    let a = intake::window_to_grid(WindowMm {
        left,
        bottom,
        right,
        top,
    });
    Some(replies::begin(a.number, a.place).window(a.window))
}

// N P H of a grid number in millimetres
fn millimetres(g: i32) -> Reply
    ensures count_bound { result.count ≤ 16 }
    ensures tells { Tells (ToMillimetres g) back_fields 0 result }
{
    let a = intake::to_millimetres(g);
    replies::begin(a.number, a.place).bits(f32::to_bits(a.mm))
}

// back g: N P H
pub fn back(rest: &[u8]) -> Option<Reply>
    ensures count_bound { IfSome result (λ r. r.count ≤ 16) }
    ensures back_line { BackLine rest.now result }
{
    let (_space, word) = rest.split_first()?;
    Some(millimetres(words::read_integer(word)?))
}
