// Strokes against a corner window by the Cyrus-Beck rule.
#![tactic(auto)]

ghost use Rattle.std.specs.Prelude.{◌≡◌};
ghost use Rattle.grid.specs.Refusals.{none, tested};
ghost use Rattle.grid.specs.Table.{StrokeOnTable};
ghost use Rattle.convex.specs.Corners.{corners_of, CornersOnTable};
ghost use Rattle.convex.specs.Ways.{CornerOnTable, Short, cross_of};
ghost use Rattle.spans.specs.Spans.{largest, ProperSpan, Sized, KeptBy};
ghost use Rattle.corners.specs.Corners.{cyrus_beck_refusal, CornerClipped, CyrusBeck, blank_answer};
ghost use Rattle.corners.specs.Edges.{edge_conditions, EdgeCut};

use convex::{Corner, Way};
use fraction::Fraction;
use grid::{Refusal, Stroke};
use spans::{NO_SIDE, SidedSpan};

// What the call answers: a refusal's number and place, or whether the stroke is kept, from which fraction of its way to which, and the edges that
// fixed the two fractions, each by the number of its first corner, or `NO_SIDE`.
#[repr(C)]
#[derive(Clone, Copy)]
pub struct CornerAnswer {
    pub number: u8,
    pub place: usize,
    pub kept: bool,
    pub t0: Fraction,
    pub t1: Fraction,
    pub side0: u8,
    pub side1: u8,
}

// Positive where b turns left from a, 0 where they are parallel.
fn cross(a: Way, b: Way) -> i64
    requires short { Short a }
    requires short_2 { Short b }
    ensures { result ≡ cross_of a b }
{
    (a.x as i64) * (b.y as i64) - (a.y as i64) * (b.x as i64)
}

// What of the span lies left of or on the edge from a to b, by its condition p t <= q.
fn cut_by_edge(a: Corner, b: Corner, s: Stroke, side: u8, kept: SidedSpan) -> SidedSpan
    requires corner_on_table { CornerOnTable a }
    requires corner_on_table_2 { CornerOnTable b }
    requires stroke_on_table { StrokeOnTable s }
    requires proper_span { ProperSpan kept.span }
    requires sized { Sized largest kept.span }
    ensures { EdgeCut a b s side kept result }
{
    let edge = convex::way_from(a, b);
    let start = Corner { x: s.x1, y: s.y1 };
    let run = convex::way_from(start, Corner { x: s.x2, y: s.y2 });
    spans::cut(
        cross(run, edge),
        cross(edge, convex::way_from(a, start)),
        side,
        kept,
    )
}

// The kept fractions, edge by edge from the first corner on; the last edge leads back to it. Both corners of an edge are read: one that is carried
// from turn to turn takes longer, since the compiler puts its two numbers into one and takes them out again.
fn kept_span(c: &[i32], s: Stroke) -> SidedSpan
    requires corners_on_table { CornersOnTable c.now }
    requires stroke_on_table { StrokeOnTable s }
    ensures { KeptBy largest (edge_conditions (corners_of c.now) s) result }
{
    let mut kept = spans::whole();
    let count = c.len() / 2;
    for k in 0..count {
        let a = convex::corner_at(c, 2 * k);
        let b = convex::corner_at(c, 2 * convex::next_of(k, count));
        kept = cut_by_edge(a, b, s, k as u8, kept);
    }
    kept
}

// Nothing is kept.
fn missed() -> CornerAnswer
    ensures { result ≡ blank_answer none }
{
    CornerAnswer {
        number: 0,
        place: 0,
        kept: false,
        t0: Fraction { num: 0, den: 1 },
        t1: Fraction { num: 0, den: 1 },
        side0: NO_SIDE,
        side1: NO_SIDE,
    }
}

// A refusal: nothing is kept either.
fn refused(r: Refusal) -> CornerAnswer
    ensures { result ≡ blank_answer r }
{
    CornerAnswer {
        number: r.number,
        place: r.place,
        ..missed()
    }
}

// The answer for corners and a stroke in which nothing is refused.
fn clipped(c: &[i32], s: Stroke) -> CornerAnswer
    requires corners_on_table { CornersOnTable c.now }
    requires stroke_on_table { StrokeOnTable s }
    ensures { CornerClipped (corners_of c.now) s result }
{
    let left = kept_span(c, s);
    let span = left.span;
    if spans::is_empty(span) {
        return missed();
    }
    let first = span.first;
    let last = span.last;
    CornerAnswer {
        number: 0,
        place: 0,
        kept: true,
        t0: spans::lowest_part(first),
        t1: spans::lowest_part(last),
        side0: left.side0,
        side1: left.side1,
    }
}

// Tests the corners and the stroke of a call; length and count come before the range.
fn test_call(c: &[i32], s: Stroke) -> Result<(), Refusal>
    ensures { result ≡ tested (cyrus_beck_refusal c.now s) }
{
    if !convex::right_count(16, c.len()) {
        return Err(Refusal {
            number: grid::NO_WINDOW,
            place: 0,
        });
    }
    let off = grid::first_off(c);
    if off < c.len() {
        return Err(Refusal {
            number: grid::WINDOW_OFF,
            place: off,
        });
    }
    if !convex::strictly_convex(c) {
        return Err(Refusal {
            number: grid::NO_WINDOW,
            place: 0,
        });
    }
    grid::test_stroke(s)
}

// What a corner window keeps of a stroke, by the Cyrus-Beck rule. The corners are x y x y .., counterclockwise.
// Its statement is `CyrusBeck`, specs/Corners.antt.
pub fn cyrus_beck(corners: &[i32], s: Stroke) -> CornerAnswer
    ensures { CyrusBeck corners.now s result }
{
    match test_call(corners, s) {
        Err(refusal) => refused(refusal),
        Ok(()) => clipped(corners, s),
    }
}
