// The commands of one stroke: lb, cs, xp and cb. There is no reply where the line is no call.
#![tactic(auto)]

ghost use Rattle.std.specs.Prelude.{◌+◌, ◌≤◌, IfSome};
ghost use Rattle.replies.specs.Replies.{said, Says};
ghost use Rattle.stroke_commands.specs.Lines.{with_part, with_sides, part_fields, stroke_fields, Lb, Cs, Xp, Cb};

use fraction::Fraction;
use replies::Reply;
use strokes::StrokeAnswer;

// K n0 d0 n1 d1: whether a stroke is kept, and its two fractions.
fn part(reply: Reply, kept: bool, t0: Fraction, t1: Fraction) -> Reply
    requires { reply.count + 5 ≤ 16 }
    ensures { Says result (reply.count + 5) (with_part (said reply) kept t0 t1) reply.room }
{
    reply
        .natural(kept as u64)
        .wide(t0.num)
        .wide(t0.den)
        .wide(t1.num)
        .wide(t1.den)
}

// Z0 Z1: the sides that fixed the two fractions.
fn sides(reply: Reply, side0: u8, side1: u8) -> Reply
    requires { reply.count + 2 ≤ 16 }
    ensures { Says result (reply.count + 2) (with_sides (said reply) side0 side1) reply.room }
{
    reply.natural(side0 as u64).natural(side1 as u64)
}

// N P K n0 d0 n1 d1 ax ay bx by
fn answered(a: StrokeAnswer) -> Reply
    ensures { Says result 11 (part_fields a) 0 }
{
    part(replies::begin(a.number, a.place), a.kept, a.t0, a.t1)
        .integer(a.ax)
        .integer(a.ay)
        .integer(a.bx)
        .integer(a.by)
}

// N P K n0 d0 n1 d1 ax ay bx by Z0 Z1: what lb and xp say, each of its own engine's answer.
fn clipped(a: StrokeAnswer) -> Reply
    ensures { Says result 13 (stroke_fields a) 0 }
{
    sides(answered(a), a.side0, a.side1)
}

// lb l b r t x1 y1 x2 y2: N P K n0 d0 n1 d1 ax ay bx by Z0 Z1
pub fn lb(rest: &[u8]) -> Option<Reply>
    ensures count_bound { IfSome result (λ r. r.count ≤ 16) }
    ensures lb { Lb rest.now result }
{
    let (window, stroke) = arguments::read_pair(rest)?;
    Some(clipped(strokes::liang_barsky(window, stroke)))
}

// cs l b r t x1 y1 x2 y2: N P K n0 d0 n1 d1 ax ay bx by S Z0 Z1
pub fn cs(rest: &[u8]) -> Option<Reply>
    ensures count_bound { IfSome result (λ r. r.count ≤ 16) }
    ensures cs { Cs rest.now result }
{
    let (window, stroke) = arguments::read_pair(rest)?;
    let counted = codes::cohen_sutherland(window, stroke);
    let a = counted.answer;
    let reply = answered(a).natural(counted.shortenings as u64);
    Some(sides(reply, a.side0, a.side1))
}

// xp l b r t x1 y1 x2 y2: N P K n0 d0 n1 d1 ax ay bx by Z0 Z1
// The two lines of lb with another engine: to take the engine as a parameter would be longer.
pub fn xp(rest: &[u8]) -> Option<Reply>
    ensures count_bound { IfSome result (λ r. r.count ≤ 16) }
    ensures xp { Xp rest.now result }
{
    let (window, stroke) = arguments::read_pair(rest)?;
    Some(clipped(cross_product::cross_product(window, stroke)))
}

// cb M c1 .. cM x1 y1 x2 y2: N P K n0 d0 n1 d1 Z0 Z1, M at most 64
pub fn cb(rest: &[u8]) -> Option<Reply>
    ensures count_bound { IfSome result (λ r. r.count ≤ 16) }
    ensures cb { Cb rest.now result }
{
    let mut numbers = [0i32; 69];
    let n = arguments::read_numbers(rest, &mut numbers)?;
    if n < 5 || numbers[0] != (n - 5) as i32 {
        return None;
    }
    let end = n - 4;
    let stroke = grid::stroke_at(&numbers, end);
    let a = corners::cyrus_beck(&numbers[1..end], stroke);
    let reply = part(replies::begin(a.number, a.place), a.kept, a.t0, a.t1);
    Some(sides(reply, a.side0, a.side1))
}
