// The same tests on the outline's own corners, which are whole numbers: two numbers a corner and no denominator.
ghost use Rattle.std.specs.Prelude.{◌/◌, ◌<◌, ◌≤◌, length};
ghost use Rattle.whole.specs.Choice.{Decides};
ghost use Rattle.rings.specs.Points.{On};
ghost use Rattle.memory.specs.Memory.{point_in};
ghost use Rattle.memory.specs.Tagged.{loaded_of};
ghost use Rattle.limits.specs.Limits.{limit_line, RunTo};

use crate::Limit;
use crate::ring::first_place;

// Whether the corner k lies on the limit.
pub fn lies_on(l: Limit, outline: &[i32], k: usize) -> bool
    requires { k < length outline.now / 2 }
    ensures { Decides result (On (limit_line l) (point_in (loaded_of outline.now) k)) }
{
    outline[2 * k + l.axis] == l.c
}

// The end of the run of corners from one on that lie outside a limit, or of those that do not. Whole numbers above c are those not below c + 1.
pub fn end_of_run(l: Limit, outline: &[i32], from: usize, to: usize, outside: bool) -> usize
    requires from_le_to { from ≤ to }
    requires to_in_bounds { to ≤ length outline.now / 2 }
    ensures { RunTo (limit_line l) (loaded_of outline.now) outside from to result }
{
    let least = if l.low { l.c } else { l.c + 1 };
    if l.low == outside {
        return first_place(from, to, |k| least <= outline[2 * k + l.axis]);
    }
    first_place(from, to, |k| outline[2 * k + l.axis] < least)
}
