// Where what is kept of a stroke starts and ends, by the ways of its two coordinates.
ghost use Rattle.std.specs.Prelude.{◌≡◌};
ghost use Rattle.grid.specs.Table.{StrokeOnTable};
ghost use Rattle.strokes.specs.Workers.{WayAt, side_number, side_met, StartOf, FinishOf};

use crate::ways::Way;
use crate::{End, Side};
use fraction::Fraction;
use grid::Stroke;
use spans::NO_SIDE;

// The number of the side that a way from a to b meets where it comes in: `low` where it rises, `high` where it falls.
pub fn side_met(a: i32, b: i32, low: Side, high: Side) -> u8
    ensures { result ≡ side_met a b (side_number low) (side_number high) }
{
    let met = if b < a { high } else { low };
    met as u8
}

// Where both coordinates have come in: at the later start. The coordinate that comes in there is on its side, so that only the other is rounded.
// Where both come in at once the side is that of x, whose number is the lower.
pub fn start(s: Stroke, x: Way, y: Way) -> End
    requires stroke_on_table { StrokeOnTable s }
    requires way_at { WayAt s.x1 s.x2 x }
    requires way_at_2 { WayAt s.y1 s.y2 y }
    ensures { StartOf s x y result }
{
    if x.start == 0 {
        if y.start == 0 {
            return End {
                t: Fraction { num: 0, den: 1 },
                x: s.x1,
                y: s.y1,
                side: NO_SIDE,
            };
        }
    }
    if y.start * x.long <= x.start * y.long {
        return End {
            t: Fraction {
                num: x.start as i64,
                den: x.long as i64,
            },
            x: x.at,
            y: fraction::rounded(s.y1, s.y2, x.start, x.long),
            side: side_met(s.x1, s.x2, Side::Left, Side::Right),
        };
    }
    End {
        t: Fraction {
            num: y.start as i64,
            den: y.long as i64,
        },
        x: fraction::rounded(s.x1, s.x2, y.start, y.long),
        y: y.at,
        side: side_met(s.y1, s.y2, Side::Bottom, Side::Top),
    }
}

// Where one coordinate goes out: at the earlier end. Looking back from there the way comes in. Beside `start`, whose tests and numbers are others.
pub fn finish(s: Stroke, x: Way, y: Way) -> End
    requires stroke_on_table { StrokeOnTable s }
    requires way_at { WayAt s.x1 s.x2 x }
    requires way_at_2 { WayAt s.y1 s.y2 y }
    ensures { FinishOf s x y result }
{
    if x.end == x.long {
        if y.end == y.long {
            return End {
                t: Fraction { num: 1, den: 1 },
                x: x.to,
                y: y.to,
                side: NO_SIDE,
            };
        }
    }
    if x.end * y.long <= y.end * x.long {
        return End {
            t: Fraction {
                num: x.end as i64,
                den: x.long as i64,
            },
            x: x.to,
            y: fraction::rounded(s.y1, s.y2, x.end, x.long),
            side: side_met(s.x2, s.x1, Side::Left, Side::Right),
        };
    }
    End {
        t: Fraction {
            num: y.end as i64,
            den: y.long as i64,
        },
        x: fraction::rounded(s.x1, s.x2, y.end, y.long),
        y: y.to,
        side: side_met(s.y2, s.y1, Side::Bottom, Side::Top),
    }
}
