// Cutting an outline along the sides of a window, one pass a side, in the order given. The window is its four sides' numbers, each at its side's place.
#![tactic(auto)]

ghost use Rattle.std.specs.Prelude.{◌≡◌, false, ℕ, ◌+◌, ◌*◌, ◌<◌, ◌≤◌, length, get_or, take, slice_index, EachIndex};
ghost use Rattle.grid.specs.Sides.{place_of};
ghost use Rattle.grid.specs.Table.{WindowOnTable};
ghost use Rattle.limits.specs.Sides.{window_of};
ghost use Rattle.crossings.specs.Outlines.{OutlineOnTable};
ghost use Rattle.passes.specs.Orders.{sides_in, side_in, places_of};
ghost use Rattle.passes.specs.Passes.{Cutting, nothing_left, Running, Ran};

use memory::Places;

// The sides in each of the 24 orders: 0 left, 1 right, 2 bottom, 3 top. A static, so that the table stands in memory once: a constant would be written anew
// at each look.
static SIDES: [[u8; 4]; 24] = [
    [0, 1, 2, 3],
    [0, 1, 3, 2],
    [0, 2, 1, 3],
    [0, 2, 3, 1],
    [0, 3, 1, 2],
    [0, 3, 2, 1],
    [1, 0, 2, 3],
    [1, 0, 3, 2],
    [1, 2, 0, 3],
    [1, 2, 3, 0],
    [1, 3, 0, 2],
    [1, 3, 2, 0],
    [2, 0, 1, 3],
    [2, 0, 3, 1],
    [2, 1, 0, 3],
    [2, 1, 3, 0],
    [2, 3, 0, 1],
    [2, 3, 1, 0],
    [3, 0, 1, 2],
    [3, 0, 2, 1],
    [3, 1, 0, 2],
    [3, 1, 2, 0],
    [3, 2, 0, 1],
    [3, 2, 1, 0],
];

// The sides in an order.
fn sides_of(order: u32) -> [u8; 4]
    requires { order ≤ 23 }
    ensures value { result ≡ places_of (sides_in order) }
    ensures by_index { EachIndex result (λ k. slice_index result k < 4) }
{
    SIDES[order as usize]
}

// The place in an order of the first side that cuts, or else of its last side; cuts has whether a side cuts, at the side's place.
fn first_cutting(order: u32, cuts: &[bool; 4]) -> usize
    requires { order ≤ 23 }
    ensures place { result ≤ 3 }
    ensures by_index { (j : ℕ) → j < result → get_or cuts.now (place_of (side_in order j)) false ≡ false }
{
    let sides = sides_of(order);
    for (k, side) in sides.iter().enumerate() {
        if cuts[*side as usize] {
            return k;
        }
    }
    3
}

// What the passes left: the places of a ring in the memory, or none; and how many corners each pass left, in the order given.
#[derive(Clone, Copy)]
pub struct Leftover {
    pub places: Places,
    pub counts: [u8; 4],
}

// No area is left. Not a None: the answer of an outline without area gives the four counts too.
fn nothing() -> Leftover
    ensures { result ≡ nothing_left }
{
    Leftover {
        places: Places { from: 0, to: 0 },
        counts: [0; 4],
    }
}

// The passes after the k-th in an order, each along a side that cuts. The k-th left the ring at the places in `before`, and at the front of its counts stands
// what the passes up to it left; a side that does not cut leaves as many corners as there were.
fn go_on(
    numbers: &[i32; 4],
    cuts: &[bool; 4],
    order: u32,
    k: usize,
    outline: &[i32],
    m: &mut [i32],
    before: Leftover,
) -> Leftover
    requires window_on_table { WindowOnTable (window_of numbers.now) }
    requires cutting { Cutting (window_of numbers.now) outline.now cuts.now }
    requires outline_on_table { OutlineOnTable outline.now }
    requires outline_in_bounds { 2 * length outline.now + 16 ≤ length m.old }
    requires order_bound { order ≤ 23 }
    requires place { k ≤ 3 }
    requires underway { Running (window_of numbers.now) order outline.now m.old before.places (k + 1) (take (k + 1) before.counts) }
    ensures { Ran (window_of numbers.now) order outline.now m.new result }
{
    let sides = sides_of(order);
    let mut p = before.places;
    let mut counts = before.counts;
    for j in k + 1..4 {
        let side = sides[j] as usize;
        if cuts[side] {
            p = later_pass::pass(
                numbers,
                side,
                outline,
                limits::limit_of(side, numbers[side]),
                m,
                p,
            );
            if p.to - p.from < 3 {
                return nothing();
            }
        }
        counts[j] = (p.to - p.from) as u8;
    }
    Leftover { places: p, counts }
}

// What a window leaves of an outline, cut along its sides in the order given.
// numbers has the window's number of a side, cuts whether the side cuts, at the side's place. The first pass goes over the outline itself.
pub fn run(
    numbers: &[i32; 4],
    cuts: &[bool; 4],
    order: u32,
    outline: &[i32],
    m: &mut [i32],
) -> Leftover
    requires window_on_table { WindowOnTable (window_of numbers.now) }
    requires order_bound { order ≤ 23 }
    requires cutting { Cutting (window_of numbers.now) outline.now cuts.now }
    requires outline_on_table { OutlineOnTable outline.now }
    requires outline_in_bounds { 2 * length outline.now + 16 ≤ length m.old }
    ensures { Ran (window_of numbers.now) order outline.now m.new result }
{
    let k = first_cutting(order, cuts);
    let side = sides_of(order)[k] as usize;
    let p = first_pass::pass(side, outline, limits::limit_of(side, numbers[side]), m);
    let left = p.to - p.from;
    if left < 3 {
        return nothing();
    }
    // The sides before this one cut nothing off.
    let mut counts = [(outline.len() / 2) as u8; 4];
    counts[k] = left as u8;
    go_on(
        numbers,
        cuts,
        order,
        k,
        outline,
        m,
        Leftover { places: p, counts },
    )
}
