// Strokes against a rectangle by the Liang-Barsky rule. `cuts` stands on the same workers and has the points alone.
#![tactic(auto)]

ghost use Rattle.std.specs.Prelude.{◌≡◌};
ghost use Rattle.grid.specs.Table.{WindowOnTable, StrokeOnTable};
ghost use Rattle.grid.specs.Refusals.{none};
ghost use Rattle.strokes.specs.Strokes.{Clipped, Clipping, blank};
ghost use Rattle.strokes.specs.Workers.{Reaching, OnWay, KeptAnswer, whole_answer};

use fraction::Fraction;
use grid::{Refusal, Stroke, Window};
use spans::NO_SIDE;

pub mod ends;
pub mod plain;
pub mod ways;

// What a stroke call answers: a refusal's number and place, or whether the stroke is kept, from which fraction of its way to which,
// the two points there, rounded to the grid, and the sides that fixed the two fractions, by their numbers, or `NO_SIDE`.
#[repr(C)]
#[derive(Clone, Copy)]
pub struct StrokeAnswer {
    pub number: u8,
    pub place: usize,
    pub kept: bool,
    pub t0: Fraction,
    pub t1: Fraction,
    pub ax: i32,
    pub ay: i32,
    pub bx: i32,
    pub by: i32,
    pub side0: u8,
    pub side1: u8,
}

// A side of the window. The answers name it by its number, `side as u8`.
#[derive(Clone, Copy)]
pub enum Side {
    Left,
    Right,
    Bottom,
    Top,
}

// An end of what is kept: the fraction of the stroke's way, not in lowest terms, the point there, rounded to the grid, and the side that fixed it.
#[derive(Clone, Copy)]
pub struct End {
    pub t: Fraction,
    pub x: i32,
    pub y: i32,
    pub side: u8,
}

// The answer of a stroke that is missed.
pub fn missed() -> StrokeAnswer
    ensures { result ≡ blank none }
{
    StrokeAnswer {
        number: 0,
        place: 0,
        kept: false,
        t0: Fraction { num: 0, den: 1 },
        t1: Fraction { num: 0, den: 1 },
        ax: 0,
        ay: 0,
        bx: 0,
        by: 0,
        side0: NO_SIDE,
        side1: NO_SIDE,
    }
}

// The answer of a stroke that is refused by r.
pub fn refused(r: Refusal) -> StrokeAnswer
    ensures { result ≡ blank r }
{
    StrokeAnswer {
        number: r.number,
        place: r.place,
        ..missed()
    }
}

// The answer of a stroke that is kept from a to b: each fraction is brought to lowest terms once, here.
pub fn kept_answer(a: End, b: End) -> StrokeAnswer
    requires on_way { OnWay a.t }
    requires on_way_2 { OnWay b.t }
    ensures { KeptAnswer a b result }
{
    let first = a.t;
    let last = b.t;
    let t0 = spans::lowest_part(first);
    let t1 = spans::lowest_part(last);
    StrokeAnswer {
        number: 0,
        place: 0,
        kept: true,
        t0,
        t1,
        ax: a.x,
        ay: a.y,
        bx: b.x,
        by: b.y,
        side0: a.side,
        side1: b.side,
    }
}

// The answer of a stroke that is kept whole.
pub fn whole_answer(s: Stroke) -> StrokeAnswer
    ensures { result ≡ whole_answer s }
{
    StrokeAnswer {
        number: 0,
        place: 0,
        kept: true,
        t0: Fraction { num: 0, den: 1 },
        t1: Fraction { num: 1, den: 1 },
        ax: s.x1,
        ay: s.y1,
        bx: s.x2,
        by: s.y2,
        side0: NO_SIDE,
        side1: NO_SIDE,
    }
}

// The answer of a stroke that is not plainly in or out. Its end is found before its start: so the compiler has more registers free.
fn crossing(w: Window, s: Stroke) -> StrokeAnswer
    requires window_on_table { WindowOnTable w }
    requires stroke_on_table { StrokeOnTable s }
    requires reaching { Reaching w s }
    ensures { Clipped w s result }
{
    let x = ways::passage(w.left, w.right, s.x1, s.x2);
    let y = ways::passage(w.bottom, w.top, s.y1, s.y2);
    if ways::apart(x, y, 0) {
        return missed();
    }
    let b = ends::finish(s, x, y);
    let a = ends::start(s, x, y);
    kept_answer(a, b)
}

// A stroke against a rectangle. What is in a window on the table is on the table, so that a stroke inside is looked at once.
// Its statement is `Clipping`, specs/Strokes.antt.
pub fn liang_barsky(w: Window, s: Stroke) -> StrokeAnswer
    ensures { Clipping w s result }
{
    if let Err(refusal) = grid::test_window(w) {
        return refused(refusal);
    }
    if plain::inside(w, s) {
        return whole_answer(s);
    }
    if let Err(refusal) = grid::test_stroke(s) {
        return refused(refusal);
    }
    if plain::outside(w, s) {
        return missed();
    }
    crossing(w, s)
}
