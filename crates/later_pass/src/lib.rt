// A pass over a ring in memory, which a side before has left there: every pass but the first.
#![tactic(auto)]

ghost use Rattle.std.specs.Prelude.{◌≡◌, false, ◌+◌, ◌*◌, ◌<◌, ◌≤◌, length};
ghost use Rattle.grid.specs.Sides.{side_at};
ghost use Rattle.grid.specs.Table.{WindowOnTable};
ghost use Rattle.rings.specs.Points.{Out};
ghost use Rattle.memory.specs.Memory.{point_in, places};
ghost use Rattle.memory.specs.Tagged.{tag_in, Brought};
ghost use Rattle.limits.specs.Sides.{window_of, side_line};
ghost use Rattle.limits.specs.Limits.{limit_line, RunTo};
ghost use Rattle.crossings.specs.Outlines.{OutlineOnTable};
ghost use Rattle.crossings.specs.Tags.{Named};
ghost use Rattle.remains.specs.Remains.{Held, Passed};
ghost use Rattle.later_pass.specs.Later.{Job, Entered, Exited};

use limits::Limit;
use memory::Places;

// Where the ring comes in from the corner o outside: the crossing takes the place of o, unless the corner there, the next one, lies on the limit.
// What is left begins at the place answered.
fn enter(
    numbers: &[i32; 4],
    l: Limit,
    outline: &[i32],
    m: &mut [i32],
    o: usize,
    there: bool,
) -> usize
    requires window_on_table { WindowOnTable (window_of numbers.now) }
    requires outline_on_table { OutlineOnTable outline.now }
    requires o_in_bounds { 4 * o + 4 ≤ length m.old }
    requires named { Named (window_of numbers.now) outline.now (tag_in m.old o) }
    ensures { Entered (window_of numbers.now) outline.now (limit_line l) there m.old o m.new result }
{
    if there {
        return o + 1;
    }
    let tag = m[4 * o + 3];
    memory::put(m, o, crossings::crossing(numbers, l, outline, tag), tag);
    o
}

// Where the ring goes out from the corner i inside: the crossing comes after it, unless the corner here lies on the limit.
// What is left ends before the place answered.
fn leave(
    numbers: &[i32; 4],
    side: usize,
    l: Limit,
    outline: &[i32],
    m: &mut [i32],
    i: usize,
    here: bool,
) -> usize
    requires job { Job (window_of numbers.now) outline.now side }
    requires i_in_bounds { 4 * i + 8 ≤ length m.old }
    requires named { Named (window_of numbers.now) outline.now (tag_in m.old i) }
    ensures { Exited (window_of numbers.now) outline.now (limit_line l) (side_at side) here m.old i m.new result }
{
    if here {
        return remains::turn_along(m, i, side);
    }
    let tag = m[4 * i + 3];
    memory::put(
        m,
        i + 1,
        crossings::crossing(numbers, l, outline, tag),
        crossings::side_tag(side),
    );
    i + 2
}

// The corners from the place a to the place last lie outside, and up to two crossings are to be put in their places. Where there is one such corner only,
// everything from it on moves up by one place, so that both crossings have room. The answer is by how many places it moved, 0 or 1.
fn make_room(m: &mut [i32], a: usize, last: usize, to: usize) -> usize
    requires a_le_last { (a ≤ last) × (last < to) }
    requires to_in_bounds { 4 * to + 4 ≤ length m.old }
    ensures upper_bound { (result ≤ 1) × (a < last + result) }
    ensures brought { Brought m.old m.old m.new a to (a + result) }
{
    if a < last {
        return 0;
    }
    memory::move_up(m, a, to);
    1
}

// A pass over a ring of which the corners before the place a lie inside and that at a outside: the run outside is cut out,
// and what comes after it moves there.
fn cut_out(
    numbers: &[i32; 4],
    side: usize,
    outline: &[i32],
    l: Limit,
    m: &mut [i32],
    from: usize,
    a: usize,
    to: usize,
) -> Places
    requires job { Job (window_of numbers.now) outline.now side }
    requires l_value { limit_line l ≡ side_line (window_of numbers.now) (side_at side) }
    requires to_in_bounds { 4 * to + 4 ≤ length m.old }
    requires held { Held (window_of numbers.now) outline.now m.old (places from to) }
    requires from_lt_a { (from < a) × (a < to) × RunTo (limit_line l) m.old false from to a }
    ensures { Passed (window_of numbers.now) outline.now (side_at side) m.old (places from to) m.new result }
{
    let b = limits::end_of_run(l, m, a + 1, to, true);
    let here = limits::lies_on(l, m, a - 1);
    let there = limits::lies_on(l, m, remains::after(b, from, to));
    let k = make_room(m, a, b - 1, to);
    let second = enter(numbers, l, outline, m, b - 1 + k, there);
    let first = leave(numbers, side, l, outline, m, a - 1, here);
    memory::move_down(m, second, to + k, first);
    Places {
        from,
        to: first + (to + k - second),
    }
}

// A pass over a ring of which the first corner lies outside: the run inside is kept where it stands.
fn keep_run(
    numbers: &[i32; 4],
    side: usize,
    outline: &[i32],
    l: Limit,
    m: &mut [i32],
    from: usize,
    to: usize,
) -> Places
    requires job { Job (window_of numbers.now) outline.now side }
    requires l_value { limit_line l ≡ side_line (window_of numbers.now) (side_at side) }
    requires to_in_bounds { 4 * to + 4 ≤ length m.old }
    requires held { Held (window_of numbers.now) outline.now m.old (places from to) }
    requires from_lt_to { (from < to) × Out (limit_line l) (point_in m.old from) }
    ensures { Passed (window_of numbers.now) outline.now (side_at side) m.old (places from to) m.new result }
{
    let s = limits::end_of_run(l, m, from + 1, to, true);
    if s == to {
        return Places { from, to: from };
    }
    let e = limits::end_of_run(l, m, s + 1, to, false);
    let there = limits::lies_on(l, m, s);
    let here = limits::lies_on(l, m, e - 1);
    let start = enter(numbers, l, outline, m, s - 1, there);
    let end = leave(numbers, side, l, outline, m, e - 1, here);
    Places {
        from: start,
        to: end,
    }
}

// What a side leaves of the ring in a memory.
pub fn pass(
    numbers: &[i32; 4],
    side: usize,
    outline: &[i32],
    l: Limit,
    m: &mut [i32],
    p: Places,
) -> Places
    requires job { Job (window_of numbers.now) outline.now side }
    requires l_value { limit_line l ≡ side_line (window_of numbers.now) (side_at side) }
    requires to_in_bounds { 4 * p.to + 4 ≤ length m.old }
    requires held { Held (window_of numbers.now) outline.now m.old p }
    ensures { Passed (window_of numbers.now) outline.now (side_at side) m.old p m.new result }
{
    let from = p.from;
    let to = p.to;
    let a = limits::end_of_run(l, m, from, to, false);
    if a == to {
        return Places { from, to };
    }
    if a == from {
        return keep_run(numbers, side, outline, l, m, from, to);
    }
    cut_out(numbers, side, outline, l, m, from, a, to)
}
