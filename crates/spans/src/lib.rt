// What a window keeps of a stroke, as a span of fractions: cut by one condition after the other, and brought to lowest terms once, at the end.
#![tactic(auto)]

ghost use Rattle.std.specs.Prelude.{◌≡◌};
ghost use Rattle.whole.specs.Within.{Within};
ghost use Rattle.fraction.specs.Fraction.{LowestOf, less_than};
ghost use Rattle.spans.specs.Parts.{Time};
ghost use Rattle.spans.specs.Spans.{largest, ProperSpan, Sized, whole_span, SidedCut};

use fraction::Fraction;

// The number of no side, as the answers of the C interface have it: an end of what is kept is the stroke's own.
pub const NO_SIDE: u8 = 255;

// The fractions from the first to the last; none, where the first is the greater.
#[derive(Clone, Copy)]
pub struct Span {
    pub first: Fraction,
    pub last: Fraction,
}

// A span, and the sides that fixed its first and its last fraction, by their numbers.
#[derive(Clone, Copy)]
pub struct SidedSpan {
    pub span: Span,
    pub side0: u8,
    pub side1: u8,
}

// The span from first to last with its sides. It is made anew even where nothing of it changes: a struct that is handed on is copied with its padding.
fn sided(first: Fraction, last: Fraction, side0: u8, side1: u8) -> SidedSpan
    ensures { result ≡ record { span = record { first = first; last = last }; side0 = side0; side1 = side1 } }
{
    SidedSpan {
        span: Span { first, last },
        side0,
        side1,
    }
}

// The whole stroke, which no side has cut yet.
pub fn whole() -> SidedSpan
    ensures { result ≡ whole_span }
{
    sided(
        Fraction { num: 0, den: 1 },
        Fraction { num: 1, den: 1 },
        NO_SIDE,
        NO_SIDE,
    )
}

// What of s has p t <= q, the condition of the side `side`. A side that meets an end where another fixed it leaves the other's name.
pub fn cut(p: i64, q: i64, side: u8, s: SidedSpan) -> SidedSpan
    requires within { Within largest p }
    requires within_2 { Within largest q }
    requires proper_span { ProperSpan s.span }
    requires sized { Sized largest s.span }
    ensures { SidedCut p q side s result }
{
    let span = s.span;
    let first = span.first;
    let last = span.last;
    if q < 0 {
        if p < 0 {
            // it comes in at q/p
            let t = Fraction { num: -q, den: -p };
            if fraction::less(first, t) {
                return sided(t, last, side, s.side1);
            }
            return sided(first, last, s.side0, s.side1);
        }
        // none is left: the first is the greater
        return sided(
            Fraction { num: 1, den: 1 },
            Fraction { num: 0, den: 1 },
            s.side0,
            s.side1,
        );
    }
    if q < p {
        // it leaves at q/p
        let t = Fraction { num: q, den: p };
        if fraction::less(t, last) {
            return sided(first, t, s.side0, side);
        }
    }
    sided(first, last, s.side0, s.side1)
}

// Whether nothing is left.
pub fn is_empty(s: Span) -> bool
    requires proper_span { ProperSpan s }
    requires sized { Sized largest s }
    ensures { result ≡ less_than s.last s.first }
{
    let first = s.first;
    let last = s.last;
    fraction::less(last, first)
}

// The fraction n/d from 0 to 1 in lowest terms; the stroke's own ends need no division.
pub fn lowest_part(t: Fraction) -> Fraction
    requires time { Time t.num t.den }
    requires within { Within largest t.den }
    ensures { LowestOf t.num t.den result }
{
    if t.num == 0 {
        return Fraction { num: 0, den: 1 };
    }
    if t.num == t.den {
        return Fraction { num: 1, den: 1 };
    }
    fraction::lowest_small(t.num as u32, t.den as u32)
}
