// The tests on a ring in memory: four numbers a corner, of which the third is the denominator.
ghost use Rattle.std.specs.Prelude.{◌≡◌, ℕ, ◌+◌, ◌*◌, ◌<◌, ◌≤◌, length};
ghost use Rattle.whole.specs.Choice.{Decides};
ghost use Rattle.whole.specs.Within.{Within};
ghost use Rattle.grid.specs.declared.Window.{Window};
ghost use Rattle.grid.specs.Sides.{side_at, number_of};
ghost use Rattle.grid.specs.Table.{farthest};
ghost use Rattle.rings.specs.Points.{On};
ghost use Rattle.memory.specs.Memory.{point_in, Small};
ghost use Rattle.limits.specs.Sides.{side_line};
ghost use Rattle.limits.specs.Limits.{limit_line, SmallIn, RunTo, FirstPlace};

use crate::Limit;

// The limit that a side sets whose number is c.
pub fn limit_of(side: usize, c: i32) -> Limit
    requires side_bound { side < 4 }
    requires within { Within farthest c }
    ensures { (w : Window) → c ≡ number_of w (side_at side) → limit_line result ≡ side_line w (side_at side) }
{
    Limit {
        low: side % 2 == 0,
        axis: side / 2,
        c,
    }
}

// Whether the corner i lies on the limit.
pub fn lies_on(l: Limit, m: &[i32], i: usize) -> bool
    requires i_in_bounds { 4 * i + 4 ≤ length m.now }
    requires small { Small (point_in m.now i) }
    ensures { Decides result (On (limit_line l) (point_in m.now i)) }
{
    let at = 4 * i;
    m[at + l.axis] == l.c * m[at + 2]
}

// The first place from one on, up to another, of which a test is true, or else that other one. Each test has its own loop: one loop for two kinds of limit
// would have to turn a sign at every corner.
pub(crate) fn first_place<F: Fn(usize) -> bool>(from: usize, to: usize, test: F) -> usize
    requires from_le_to { from ≤ to }
    requires callable { (i : ℕ) → from ≤ i → i < to → F.pre test i }
    ensures { FirstPlace (F.post test) from to result }
{
    for i in from..to {
        if test(i) {
            return i;
        }
    }
    to
}

// The end of the run of corners from a place on that lie outside, or of those that do not.
pub fn end_of_run(l: Limit, m: &[i32], from: usize, to: usize, outside: bool) -> usize
    requires from_le_to { from ≤ to }
    requires to_in_bounds { 4 * to ≤ length m.now }
    requires small_in { SmallIn m.now from to }
    ensures { RunTo (limit_line l) m.now outside from to result }
{
    if l.low {
        return first_place(
            from,
            to,
            |i| (m[4 * i + l.axis] < l.c * m[4 * i + 2]) != outside,
        );
    }
    first_place(
        from,
        to,
        |i| (m[4 * i + l.axis] > l.c * m[4 * i + 2]) != outside,
    )
}
