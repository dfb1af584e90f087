// An outline against a rectangle, in any of the 24 side orders: the ring of what they have in common.
#![tactic(auto)]

ghost use Rattle.std.specs.Prelude.{◌≡◌, true, List, ◌+◌, ◌*◌, ◌≤◌, ℤ, length, MatchResult};
ghost use Rattle.whole.specs.Choice.{Decides};
ghost use Rattle.grid.specs.Calls.{answered_by};
ghost use Rattle.grid.specs.Table.{WindowOnTable, NumbersOnTable};
ghost use Rattle.limits.specs.Sides.{window_of};
ghost use Rattle.crossings.specs.Outlines.{OutlineOnTable};
ghost use Rattle.passes.specs.Passes.{Cutting};
ghost use Rattle.reach.specs.Reach.{Reaches, ReachOnTable};
ghost use Rattle.convex.specs.Corners.{most_corners, right_count};
ghost use Rattle.outlines.specs.Outlines.{outline_refusal, refused_outline, gave_outline, OutlineDone, Outline};
ghost use Rattle.outlines.specs.Workers.{GaveCounted, CallTaken, CallRefused};

use grid::{Refusal, Window};

// The most corners of an outline.
const MOST_CORNERS: usize = 64;

// What the call returns: number and place of a refusal, or how many numbers it wrote; and how many corners each pass left, in the order
// given, all 0 where there is no area.
#[repr(C)]
#[derive(Clone, Copy)]
pub struct OutlineAnswer {
    pub number: u8,
    pub place: usize,
    pub count: usize,
    pub passes: [u8; 4],
}

// Whether nothing is refused, the outline's length being right. The window and the order come last: then they take no registers from the walks.
fn takes(w: Window, order: u32, outline: &[i32], reach: Window) -> bool
    requires outline_value { right_count most_corners (length outline.now) ≡ true }
    requires reaches { Reaches outline.now reach }
    requires reach_on_table { NumbersOnTable outline.now → ReachOnTable reach }
    ensures { Decides result ((outline_refusal w order outline.now).number ≡ 0) }
{
    if !reach::on_table(reach) {
        return false;
    }
    if !convex::strictly_convex(outline) {
        return false;
    }
    if grid::test_window(w).is_err() {
        return false;
    }
    order <= 23
}

// What is refused, where something is: only then the tests are made in the order of their numbers.
fn refusal(w: Window, order: u32, outline: &[i32]) -> Refusal
    requires { (outline_refusal w order outline.now).number ≡ 0 → ⊥ }
    ensures { CallRefused w order outline.now result }
{
    if let Err(window_refusal) = grid::test_window(w) {
        return window_refusal;
    }
    if 23 < order {
        return Refusal {
            number: grid::NO_ORDER,
            place: 0,
        };
    }
    if !convex::right_count(MOST_CORNERS, outline.len()) {
        return Refusal {
            number: grid::WRONG_LENGTH,
            place: 0,
        };
    }
    let off = grid::first_off(outline);
    if off < outline.len() {
        return Refusal {
            number: grid::NUMBER_OFF,
            place: off,
        };
    }
    Refusal {
        number: grid::NOT_CONVEX,
        place: 0,
    }
}

// Tests a call. Where nothing is refused, it says how far the outline reaches.
fn test_call(w: Window, order: u32, outline: &[i32]) -> Result<Window, Refusal>
    ensures { MatchResult result (CallTaken w order outline.now) (CallRefused w order outline.now) }
{
    if convex::right_count(MOST_CORNERS, outline.len()) {
        let reach = reach::reach_of(outline);
        if takes(w, order, outline, reach) {
            return Ok(reach);
        }
    }
    Err(refusal(w, order, outline))
}

// The answer that refuses.
impl From<Refusal> for OutlineAnswer {
    ghost from_gives = { λ r a. a ≡ refused_outline r };

    fn from(r: Refusal) -> OutlineAnswer {
        OutlineAnswer {
            number: r.number,
            place: r.place,
            count: 0,
            passes: [0; 4],
        }
    }
}

// The answer where so many numbers are given into an output of some room.
fn given(need: usize, passes: [u8; 4], room: usize) -> OutlineAnswer
    ensures { (xs : List ℤ) → need ≡ length xs → result ≡ answered_by refused_outline (gave_outline passes) xs room }
{
    match grid::test_room(need, room) {
        Err(short) => OutlineAnswer::from(short),
        Ok(()) => OutlineAnswer {
            number: 0,
            place: 0,
            count: need,
            passes,
        },
    }
}

// How many numbers a ring has, and how many corners each pass left.
#[derive(Clone, Copy)]
struct Counts {
    numbers: usize,
    passes: [u8; 4],
}

// Counts what the passes leave of an outline in a memory; the numbers are written where they have room.
fn cut_in(
    numbers: &[i32; 4],
    cuts: &[bool; 4],
    order: u32,
    outline: &[i32],
    m: &mut [i32],
    out: &mut [i32],
) -> Counts
    requires window_on_table { WindowOnTable (window_of numbers.now) }
    requires order_bound { order ≤ 23 }
    requires outline_on_table { OutlineOnTable outline.now }
    requires cutting { Cutting (window_of numbers.now) outline.now cuts.now }
    requires outline_in_bounds { 2 * length outline.now + 16 ≤ length m.old }
    ensures { GaveCounted (window_of numbers.now) order outline.now result out.old out.new }
{
    let left = passes::run(numbers, cuts, order, outline, m);
    let passes = left.counts;
    let places = left.places;
    let n = places.to - places.from;
    if n == 0 {
        return Counts { numbers: 0, passes };
    }
    let numbers = writing::give_ring(&m[4 * places.from..], n, out);
    Counts { numbers, passes }
}

// The same with a memory of its own, of so many numbers.
fn cut_in_memory<const ROOM: usize>(
    numbers: &[i32; 4],
    cuts: &[bool; 4],
    order: u32,
    outline: &[i32],
    out: &mut [i32],
) -> Counts
    requires window_on_table { WindowOnTable (window_of numbers.now) }
    requires order_bound { order ≤ 23 }
    requires outline_on_table { OutlineOnTable outline.now }
    requires cutting { Cutting (window_of numbers.now) outline.now cuts.now }
    requires room_bound { ROOM ≤ 272 }
    requires outline_in_bounds { 2 * length outline.now + 16 ≤ ROOM }
    ensures { GaveCounted (window_of numbers.now) order outline.now result out.old out.new }
{
    let mut memory = [0i32; ROOM];
    cut_in(numbers, cuts, order, outline, &mut memory, out)
}

// The same with the memory that the outline needs: fewer corners need a smaller one, which is sooner cleared.
fn cut_by_passes(
    numbers: &[i32; 4],
    cuts: &[bool; 4],
    order: u32,
    outline: &[i32],
    out: &mut [i32],
) -> Counts
    requires window_on_table { WindowOnTable (window_of numbers.now) }
    requires order_bound { order ≤ 23 }
    requires outline_on_table { OutlineOnTable outline.now }
    requires cutting { Cutting (window_of numbers.now) outline.now cuts.now }
    ensures { GaveCounted (window_of numbers.now) order outline.now result out.old out.new }
{
    if outline.len() <= 24 {
        return cut_in_memory::<64>(numbers, cuts, order, outline, out);
    }
    if outline.len() <= 56 {
        return cut_in_memory::<128>(numbers, cuts, order, outline, out);
    }
    cut_in_memory::<272>(numbers, cuts, order, outline, out)
}

// The answer for an outline in which nothing is refused. The plain cases come first: they need no pass. The passes are given the sides' numbers, and
// which of them cut, by the sides' places.
fn clipped(w: Window, order: u32, outline: &[i32], reach: Window, out: &mut [i32]) -> OutlineAnswer
    requires window_on_table { WindowOnTable w }
    requires order_bound { order ≤ 23 }
    requires outline_on_table { OutlineOnTable outline.now }
    requires reaches { Reaches outline.now reach }
    ensures { OutlineDone w order outline.now result out.old out.new }
{
    let room = out.len();
    if reach::inside(w, reach) {
        let corners = (outline.len() / 2) as u8;
        return given(uncut::give_whole(outline, out), [corners; 4], room);
    }
    if reach::apart(w, reach) {
        return given(0, [0; 4], room);
    }
    let numbers = [w.left, w.right, w.bottom, w.top];
    let cuts = [
        reach.left < w.left,
        w.right < reach.right,
        reach.bottom < w.bottom,
        w.top < reach.top,
    ];
    let counts = cut_by_passes(&numbers, &cuts, order, outline, out);
    let passes = counts.passes;
    given(counts.numbers, passes, room)
}

// What a window keeps of a strictly convex outline, cut along the window's sides in one of the 24 orders. The outline is x y x y ..,
// counterclockwise; the ring is written as four numbers a corner. Its statement is `Outline`, specs/Outlines.antt.
pub fn clip_outline(w: Window, order: u32, outline: &[i32], out: &mut [i32]) -> OutlineAnswer
    ensures { Outline w order outline.now result out.old out.new }
{
    match test_call(w, order, outline) {
        Ok(reach) => clipped(w, order, outline, reach, out),
        Err(refusal) => OutlineAnswer::from(refusal),
    }
}
