// The first pass, over the outline itself: of its corners only those that are left come into the memory. Its crossings are those of the outline's own
// edges, so that it needs no other number of the window than the limit's.
#![tactic(auto)]

ghost use Rattle.std.specs.Prelude.{false, ◌+◌, ◌-◌, ◌*◌, ◌/◌, ◌<◌, ◌≤◌, length};
ghost use Rattle.grid.specs.Sides.{side_at};
ghost use Rattle.rings.specs.Points.{Out};
ghost use Rattle.memory.specs.Memory.{point_in};
ghost use Rattle.memory.specs.Tagged.{Brought, loaded_of};
ghost use Rattle.limits.specs.Limits.{limit_line, RunTo};
ghost use Rattle.crossings.specs.Outlines.{OutlineOnTable};
ghost use Rattle.crossings.specs.Tags.{edge_of};
ghost use Rattle.crossings.specs.Meetings.{Meets};
ghost use Rattle.remains.specs.Ends.{Went};
ghost use Rattle.first_pass.specs.First.{EnteredOwn, FirstPassed};

use limits::Limit;
use memory::{Corner, Places};

// Brings the outline's corners from one up to another into a memory, to begin at the place `at`, each tagged with its own edge.
fn load(outline: &[i32], from: usize, to: usize, m: &mut [i32], at: usize)
    requires outline_len_bound { length outline.now ≤ 128 }
    requires from_le_to { (from ≤ to) × (to ≤ length outline.now / 2) }
    requires from_in_bounds { 4 * (at + (to - from)) ≤ length m.old }
    ensures { Brought (loaded_of outline.now) m.old m.new from to at }
{
    for k in from..to {
        let p = Corner {
            x: outline[2 * k],
            y: outline[2 * k + 1],
            den: 1,
        };
        memory::put(m, at + (k - from), p, k as i32);
    }
}

// Where the ring comes in along the outline's edge from its corner k outside: the crossing is put at the place `at`, unless the corner there,
// the next one, lies on the limit. What comes after it has the place answered.
fn enter(l: Limit, outline: &[i32], k: usize, m: &mut [i32], at: usize, there: bool) -> usize
    requires outline_on_table { OutlineOnTable outline.now }
    requires k_in_bounds { k < length outline.now / 2 }
    requires at_in_bounds { 4 * at + 4 ≤ length m.old }
    ensures { EnteredOwn outline.now (limit_line l) there k m.old at m.new result }
{
    if there {
        return at;
    }
    memory::put(m, at, crossings::edge_crossing(l, outline, k), k as i32);
    at + 1
}

// Where the ring goes out along the outline's edge from its corner k inside, which stands at the place i: the crossing comes after it, unless the corner
// here lies on the limit. What is left ends before the place answered.
fn leave(
    side: usize,
    l: Limit,
    outline: &[i32],
    m: &mut [i32],
    i: usize,
    k: usize,
    here: bool,
) -> usize
    requires outline_on_table { OutlineOnTable outline.now }
    requires side_bound { side < 4 }
    requires i_in_bounds { 4 * i + 8 ≤ length m.old }
    requires k_in_bounds { k < length outline.now / 2 }
    ensures { Went (Meets (limit_line l) (edge_of outline.now k)) (side_at side) here m.old i m.new result }
{
    if here {
        return remains::turn_along(m, i, side);
    }
    memory::put(
        m,
        i + 1,
        crossings::edge_crossing(l, outline, k),
        crossings::side_tag(side),
    );
    i + 2
}

// A pass over an outline of which the corners before a lie inside and a outside: these, the crossings, and what comes after the run outside.
fn cut_out(side: usize, outline: &[i32], l: Limit, m: &mut [i32], a: usize) -> Places
    requires outline_on_table { OutlineOnTable outline.now }
    requires side_bound { side < 4 }
    requires outline_in_bounds { 2 * length outline.now + 4 ≤ length m.old }
    requires a_nonzero { (0 < a) × (a < length outline.now / 2) × RunTo (limit_line l) (loaded_of outline.now) false 0 (length outline.now / 2) a }
    ensures { FirstPassed (limit_line l) outline.now (side_at side) m.new result }
{
    let n = outline.len() / 2;
    let b = limits::own::end_of_run(l, outline, a + 1, n, true);
    let here = limits::own::lies_on(l, outline, a - 1);
    let there = limits::own::lies_on(l, outline, remains::after(b, 0, n));
    load(outline, 0, a, m, 0);
    let first = leave(side, l, outline, m, a - 1, a - 1, here);
    let second = enter(l, outline, b - 1, m, first, there);
    load(outline, b, n, m, second);
    Places {
        from: 0,
        to: second + (n - b),
    }
}

// A pass over an outline of which the first corner lies outside: the run inside, between the crossings.
fn keep_run(side: usize, outline: &[i32], l: Limit, m: &mut [i32]) -> Places
    requires outline_on_table { OutlineOnTable outline.now }
    requires side_bound { side < 4 }
    requires outline_in_bounds { 2 * length outline.now + 4 ≤ length m.old }
    requires out { Out (limit_line l) (point_in (loaded_of outline.now) 0) }
    ensures { FirstPassed (limit_line l) outline.now (side_at side) m.new result }
{
    let n = outline.len() / 2;
    let s = limits::own::end_of_run(l, outline, 1, n, true);
    if s == n {
        return Places { from: 0, to: 0 };
    }
    let e = limits::own::end_of_run(l, outline, s + 1, n, false);
    let there = limits::own::lies_on(l, outline, s);
    let here = limits::own::lies_on(l, outline, e - 1);
    let start = enter(l, outline, s - 1, m, 0, there);
    load(outline, s, e, m, start);
    let end = leave(side, l, outline, m, start + (e - s) - 1, e - 1, here);
    Places { from: 0, to: end }
}

// What a side leaves of the outline, brought into a memory.
pub fn pass(side: usize, outline: &[i32], l: Limit, m: &mut [i32]) -> Places
    requires outline_on_table { OutlineOnTable outline.now }
    requires side_bound { side < 4 }
    requires outline_in_bounds { 2 * length outline.now + 4 ≤ length m.old }
    ensures { FirstPassed (limit_line l) outline.now (side_at side) m.new result }
{
    let n = outline.len() / 2;
    let a = limits::own::end_of_run(l, outline, 0, n, false);
    if a == n {
        load(outline, 0, n, m, 0);
        return Places { from: 0, to: n };
    }
    if a == 0 {
        return keep_run(side, outline, l, m);
    }
    cut_out(side, outline, l, m, a)
}
