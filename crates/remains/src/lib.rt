// What a side leaves of a ring in memory, and the two steps that every pass takes there.
#![tactic(auto)]

ghost use Rattle.std.specs.Prelude.{◌≡◌, ◌+◌, ◌*◌, ◌<◌, ◌≤◌, eqb, length};
ghost use Rattle.whole.specs.Choice.{when◌then◌else◌};
ghost use Rattle.grid.specs.Sides.{side_at};
ghost use Rattle.memory.specs.Memory.{point_in};
ghost use Rattle.memory.specs.Tagged.{put_at};
ghost use Rattle.crossings.specs.Tags.{side_tag};

use memory::{corner_at, put};

// Where a corner on the limit at the place i is the last one inside: its next edge lies along the side. What is left ends before the place answered.
pub fn turn_along(m: &mut [i32], i: usize, side: usize) -> usize
    requires side_bound { side < 4 }
    requires i_in_bounds { 4 * i + 8 ≤ length m.old }
    ensures value { result ≡ i + 1 }
    ensures m_after { m.new ≡ put_at m.old i (point_in m.old i) (side_tag (side_at side)) }
{
    put(m, i, corner_at(m, i), crossings::side_tag(side));
    i + 1
}

// A ring has the places from one up to another, and b is where a run of its corners ends: the place of the corner that comes next. The ring is closed, so
// after a run up to its very end the next corner is its first.
pub fn after(b: usize, from: usize, to: usize) -> usize
    ensures { result ≡ (when eqb b to then from else b) }
{
    if b == to {
        return from;
    }
    b
}
