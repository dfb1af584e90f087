// Where lines meet: an edge of the outline or a side of the window with the line of a limit. A ring in memory names the line of each of its edges by a tag:
// below 64 the outline's own edge from that corner, from 64 on the side of the window at that place. So every crossing is made from the numbers that were
// given, and never from a corner that was made before. A tag is a number and no enum: it stands in the ring's memory, beside the numbers of its corner.
#![tactic(auto)]

ghost use Rattle.std.specs.Prelude.{◌≡◌, ◌/◌, ◌%◌, ◌<◌, length};
ghost use Rattle.whole.specs.Within.{Within};
ghost use Rattle.grid.specs.Sides.{side_at};
ghost use Rattle.grid.specs.Table.{farthest, WindowOnTable, StrokeOnTable};
ghost use Rattle.rings.specs.Windows.{«left_side»};
ghost use Rattle.memory.specs.Memory.{point_of};
ghost use Rattle.limits.specs.Sides.{window_of};
ghost use Rattle.limits.specs.Limits.{limit_line};
ghost use Rattle.crossings.specs.Outlines.{OutlineOnTable};
ghost use Rattle.crossings.specs.Tags.{stroke_from, edge_of, side_stroke, side_tag, Named};
ghost use Rattle.crossings.specs.Meetings.{Meets, Meeting};

use grid::Stroke;
use limits::Limit;
use memory::Corner;

// The outline's edge from its corner k to the next.
fn edge(outline: &[i32], k: usize) -> Stroke
    requires outline_len { length outline.now % 2 ≡ 0 }
    requires k_in_bounds { k < length outline.now / 2 }
    ensures { result ≡ edge_of outline.now k }
{
    let next = convex::next_of(k, outline.len() / 2);
    Stroke {
        x1: outline[2 * k],
        y1: outline[2 * k + 1],
        x2: outline[2 * next],
        y2: outline[2 * next + 1],
    }
}

// Where the line from (ax, ay) to (bx, by) meets x = c.
fn meet(c: i32, ax: i32, ay: i32, bx: i32, by: i32) -> Corner
    requires within { Within farthest c }
    requires stroke_on_table { StrokeOnTable (stroke_from ax ay bx by) }
    ensures { Meets («left_side» c) (stroke_from ax ay bx by) (point_of result) }
{
    let run = bx - ax;
    let y = ay * run + (c - ax) * (by - ay);
    if run < 0 {
        let den = -run;
        return Corner {
            x: c * den,
            y: -y,
            den,
        };
    }
    Corner {
        x: c * run,
        y,
        den: run,
    }
}

// Where the outline's edge from its corner k meets a limit's line. A limit on y is one on x with x and y exchanged.
pub fn edge_crossing(l: Limit, outline: &[i32], k: usize) -> Corner
    requires outline_on_table { OutlineOnTable outline.now }
    requires k_in_bounds { k < length outline.now / 2 }
    ensures { Meets (limit_line l) (edge_of outline.now k) (point_of result) }
{
    let e = edge(outline, k);
    let c = l.c;
    if l.axis == 0 {
        return meet(c, e.x1, e.y1, e.x2, e.y2);
    }
    let p = meet(c, e.y1, e.x1, e.y2, e.x2);
    Corner {
        x: p.y,
        y: p.x,
        den: p.den,
    }
}

// Where the line of the window's side s meets a limit's: their two numbers are its x and y.
fn side_crossing(numbers: &[i32; 4], l: Limit, s: usize) -> Corner
    requires window_on_table { WindowOnTable (window_of numbers.now) }
    requires s_bound { s < 4 }
    ensures { Meets (limit_line l) (side_stroke (window_of numbers.now) (side_at s)) (point_of result) }
{
    let c = l.c;
    let n = numbers[s];
    if l.axis == 0 {
        return Corner { x: c, y: n, den: 1 };
    }
    Corner { x: n, y: c, den: 1 }
}

// Where the line that a tag names meets a limit's.
pub fn crossing(numbers: &[i32; 4], l: Limit, outline: &[i32], tag: i32) -> Corner
    requires window_on_table { WindowOnTable (window_of numbers.now) }
    requires outline_on_table { OutlineOnTable outline.now }
    requires named { Named (window_of numbers.now) outline.now tag }
    ensures { Meeting (window_of numbers.now) outline.now (limit_line l) tag (point_of result) }
{
    let k = tag as usize;
    if k < 64 {
        return edge_crossing(l, outline, k);
    }
    side_crossing(numbers, l, k - 64)
}

// The tag of an edge that lies along a side.
pub fn side_tag(side: usize) -> i32
    requires { side < 4 }
    ensures { result ≡ side_tag (side_at side) }
{
    64 + (side as i32)
}
