// Position codes and the Cohen-Sutherland rule, with the count of its shortenings.
#![tactic(auto)]

mod decisions;

ghost use Rattle.std.specs.Prelude.{◌≡◌, ◌<◌, pos};
ghost use Rattle.whole.specs.Choice.{when◌then◌else◌};
ghost use Rattle.whole.specs.Within.{Within};
ghost use Rattle.grid.specs.Table.{farthest, WindowOnTable, StrokeOnTable};
ghost use Rattle.grid.specs.Refusals.{none};
ghost use Rattle.grid.specs.Sides.{side_at, place_of};
ghost use Rattle.spans.specs.Sides.{no_side};
ghost use Rattle.fraction.specs.declared.Fraction.{Fraction};
ghost use Rattle.strokes.specs.Strokes.{blank as Strokes·blank};
ghost use Rattle.strokes.specs.Workers.{OnWay, EndAt, whole_answer};
ghost use Rattle.codes.specs.Codes.{code as Codes·code, decision as Codes·decision, lowest_bit};
ghost use Rattle.codes.specs.Steps.{decided as Steps·decided, CohenSutherland};
ghost use Rattle.codes.specs.declared.Ruling.TheVariants.{Shorten};
ghost use Rattle.codes.specs.Workers.{outside_of, marks_of, end_code, PartOfWay, Apart, WayMeets, StrokeMeets, KindOf, PieceOf, Shortened, KeptFrom, Finished};

use decisions::{DECISIONS, KEEP, MISSED, SHORTEN_END};
use fraction::Fraction;
use grid::{Refusal, Stroke, Window};
use spans::NO_SIDE;
use strokes::{End, StrokeAnswer};

// The bits of a position code.
const LEFT_BIT: u8 = 1;

const RIGHT_BIT: u8 = 2;

const BELOW_BIT: u8 = 4;

const ABOVE_BIT: u8 = 8;

// How often the rule shortened the stroke, and a stroke call's answer, in this order, so that the sides come last here too.
#[repr(C)]
#[derive(Clone, Copy)]
pub struct CountedAnswer {
    pub shortenings: u32,
    pub answer: StrokeAnswer,
}

// An end of a piece: its fraction of the stroke's way, the code of its point, and the side that it was shortened at last, by its number, or `NO_SIDE`.
#[derive(Clone, Copy)]
struct PieceEnd {
    t: Fraction,
    code: u8,
    side: u8,
}

// The part of a stroke from one fraction of its way to another.
#[derive(Clone, Copy)]
struct Piece {
    start: PieceEnd,
    end: PieceEnd,
}

// Which of a piece's two ends.
#[derive(Clone, Copy)]
enum Which {
    Start,
    End,
}

// What the rule does with a piece: it is kept, it is missed, or one of its ends is shortened.
#[derive(Clone, Copy)]
enum Ruling {
    Keep,
    Missed,
    Shorten(Which),
}

// One bit of a code: set where the point lies beyond the bit's side.
fn mark(beyond: bool, bit: u8) -> u8
    ensures { result ≡ (when beyond then bit else 0) }
{
    if beyond { bit } else { 0 }
}

// The two bits of one coordinate at the fraction t of the way from a to b: `under` below lo, `over` above hi. On the border it is inside.
fn outside(lo: i32, hi: i32, a: i32, b: i32, t: Fraction, under: u8, over: u8) -> u8
    requires within { Within farthest lo }
    requires within_2 { Within farthest hi }
    requires within_3 { Within farthest a }
    requires within_4 { Within farthest b }
    requires on_way { OnWay t }
    ensures { result ≡ outside_of lo hi a b t under over }
{
    let x = a as i64 * t.den + t.num * (b - a) as i64;
    mark(x < lo as i64 * t.den, under) | mark(hi as i64 * t.den < x, over)
}

// The code of the stroke's exact point at t.
fn code(w: Window, s: Stroke, t: Fraction) -> u8
    requires window_on_table { WindowOnTable w }
    requires stroke_on_table { StrokeOnTable s }
    requires on_way { OnWay t }
    ensures { result ≡ Codes·code w s t }
{
    outside(w.left, w.right, s.x1, s.x2, t, LEFT_BIT, RIGHT_BIT)
        | outside(w.bottom, w.top, s.y1, s.y2, t, BELOW_BIT, ABOVE_BIT)
}

// The same two bits for a coordinate x of an end of the stroke, which needs no products.
fn marks(lo: i32, hi: i32, x: i32, under: u8, over: u8) -> u8
    ensures { result ≡ marks_of lo hi x under over }
{
    mark(x < lo, under) | mark(hi < x, over)
}

// The code of an end of the stroke, by its numbers alone.
fn end_code(w: Window, x: i32, y: i32) -> u8
    ensures { result ≡ end_code w x y }
{
    marks(w.left, w.right, x, LEFT_BIT, RIGHT_BIT) | marks(w.bottom, w.top, y, BELOW_BIT, ABOVE_BIT)
}

// What the rule does with a piece whose points have the codes a and b, by the number that the table has for them.
fn decision(a: u8, b: u8) -> u8
    requires a_bound { a < 16 }
    requires b_bound { b < 16 }
    ensures { result ≡ Codes·decision a b }
{
    DECISIONS[16 * (a as usize) + b as usize]
}

// What the number of a decision tells the rule to do. The side in it is that of the lowest set bit, by which an end is shortened.
fn ruled(number: u8) -> Ruling
    ensures { KindOf number result }
{
    if number == KEEP {
        Ruling::Keep
    } else if number == MISSED {
        Ruling::Missed
    } else if number < SHORTEN_END {
        Ruling::Shorten(Which::Start)
    } else {
        Ruling::Shorten(Which::End)
    }
}

// The fraction of the way from a to b at which it is at c.
fn meeting(c: i32, a: i32, b: i32) -> Fraction
    requires within { Within farthest c }
    requires within_2 { Within farthest a }
    requires within_3 { Within farthest b }
    requires fact { a ≡ b → ⊥ }
    ensures { WayMeets c a b result }
{
    let n = (c - a) as i64;
    let d = (b - a) as i64;
    if d < 0 {
        return Fraction { num: -n, den: -d };
    }
    Fraction { num: n, den: d }
}

// Where the stroke meets the line of a side, which goes by its number: that is the place of its bit in a code, as it is counted.
fn crossing(w: Window, s: Stroke, side: u32) -> Fraction
    requires window_on_table { WindowOnTable w }
    requires stroke_on_table { StrokeOnTable s }
    requires apart { Apart s (side_at side) }
    ensures { StrokeMeets w s (side_at side) result }
{
    match side {
        0 => meeting(w.left, s.x1, s.x2),
        1 => meeting(w.right, s.x1, s.x2),
        2 => meeting(w.bottom, s.y1, s.y2),
        _ => meeting(w.top, s.y1, s.y2),
    }
}

// The same end, made anew: a struct that is handed on is copied with its padding.
fn same(e: PieceEnd) -> PieceEnd
    ensures { result ≡ e }
{
    PieceEnd {
        t: e.t,
        code: e.code,
        side: e.side,
    }
}

// One shortening: the start's before the end's, against the side of the lowest set bit.
// Two arms of one shape: as one function for both ends they take more instructions for each stroke that is cut.
fn shortened(w: Window, s: Stroke, p: Piece, which: Which) -> Piece
    requires window_on_table { WindowOnTable w }
    requires stroke_on_table { StrokeOnTable s }
    requires piece_of { PieceOf w s p }
    requires kind_of { KindOf (Steps·decided w s p.start.t p.end.t) (Shorten which) }
    ensures { Shortened w s p result }
{
    match which {
        Which::Start => {
            let side = u8::trailing_zeros(p.start.code);
            let t = crossing(w, s, side);
            let start = PieceEnd {
                t,
                code: code(w, s, t),
                side: side as u8,
            };
            Piece {
                start,
                end: same(p.end),
            }
        }
        Which::End => {
            let side = u8::trailing_zeros(p.end.code);
            let t = crossing(w, s, side);
            let end = PieceEnd {
                t,
                code: code(w, s, t),
                side: side as u8,
            };
            Piece {
                start: same(p.start),
                end,
            }
        }
    }
}

// What is refused by r was never shortened.
fn refused(r: Refusal) -> CountedAnswer
    ensures { result ≡ record { answer = Strokes·blank r; shortenings = 0 } }
{
    CountedAnswer {
        shortenings: 0,
        answer: strokes::refused(r),
    }
}

// A stroke that is missed, with the count all the same.
fn missed(shortenings: u32) -> CountedAnswer
    ensures { result ≡ record { answer = Strokes·blank none; shortenings = shortenings } }
{
    CountedAnswer {
        shortenings,
        answer: strokes::missed(),
    }
}

// The stroke's point at a fraction of its way, rounded to the grid, with the side that fixed it.
fn end_at(s: Stroke, t: Fraction, side: u8) -> End
    requires stroke_on_table { StrokeOnTable s }
    requires on_way { OnWay t }
    ensures { EndAt s t side result }
{
    if t.num == 0 {
        return End {
            t,
            x: s.x1,
            y: s.y1,
            side,
        };
    }
    if t.num == t.den {
        return End {
            t,
            x: s.x2,
            y: s.y2,
            side,
        };
    }
    let n = t.num as u32;
    let d = t.den as u32;
    End {
        t,
        x: fraction::rounded(s.x1, s.x2, n, d),
        y: fraction::rounded(s.y1, s.y2, n, d),
        side,
    }
}

// A stroke that is kept as far as the piece p goes.
fn kept(s: Stroke, p: Piece, shortenings: u32) -> CountedAnswer
    requires stroke_on_table { StrokeOnTable s }
    requires part_of_way { PartOfWay p.start.t p.end.t }
    ensures { KeptFrom s p shortenings result }
{
    let a = end_at(s, p.start.t, p.start.side);
    let b = end_at(s, p.end.t, p.end.side);
    let answer = strokes::kept_answer(a, b);
    CountedAnswer {
        shortenings,
        answer,
    }
}

// A stroke that is kept whole.
fn whole(s: Stroke) -> CountedAnswer
    ensures { result ≡ record { answer = whole_answer s; shortenings = 0 } }
{
    CountedAnswer {
        shortenings: 0,
        answer: strokes::whole_answer(s),
    }
}

// The stroke's own start or end, at the fraction 0 or 1 of its way, which no side has cut off yet.
fn own_end(t: i64, code: u8) -> PieceEnd
    ensures { result ≡ record { t = record { num = t; den = pos 1 }; code = code; side = no_side } }
{
    PieceEnd {
        t: Fraction { num: t, den: 1 },
        code,
        side: NO_SIDE,
    }
}

// The rule on a window and a stroke in which nothing is refused.
fn clipped(w: Window, s: Stroke) -> CountedAnswer
    requires window_on_table { WindowOnTable w }
    requires stroke_on_table { StrokeOnTable s }
    ensures { Finished w s result }
{
    let a = end_code(w, s.x1, s.y1);
    let b = end_code(w, s.x2, s.y2);
    // most strokes are plainly in or out, and need no table
    if a | b == 0 {
        return whole(s);
    }
    if a & b != 0 {
        return missed(0);
    }
    let start = own_end(0, a);
    let end = own_end(1, b);
    let mut piece = Piece { start, end };
    let mut shortenings = 0;
    loop {
        match ruled(decision(piece.start.code, piece.end.code)) {
            Ruling::Keep => return kept(s, piece, shortenings),
            Ruling::Missed => return missed(shortenings),
            Ruling::Shorten(which) => piece = shortened(w, s, piece, which),
        }
        shortenings += 1;
    }
}

// A stroke against a rectangle by the Cohen-Sutherland rule.
// Its statement is `CohenSutherland`, specs/Steps.antt.
pub fn cohen_sutherland(w: Window, s: Stroke) -> CountedAnswer
    ensures { CohenSutherland w s result }
{
    if let Err(window_refusal) = grid::test_window(w) {
        return refused(window_refusal);
    }
    if let Err(stroke_refusal) = grid::test_stroke(s) {
        return refused(stroke_refusal);
    }
    clipped(w, s)
}
