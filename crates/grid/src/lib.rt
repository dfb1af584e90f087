// The table: its range, windows and strokes, the refusals that every call shares, and the answer of a call that gives numbers into a lent output.
#![tactic(auto)]

ghost use Rattle.std.specs.Prelude.{◌≡◌, true, [], ◌∷◌, ◌+◌, ◌≤◌, ◌<ℤ◌, length};
ghost use Rattle.std.proofs.lemmas.List.Edits.{sets};
ghost use Rattle.whole.specs.Within.{Within};
ghost use Rattle.grid.specs.Table.{farthest, on_table, first_off, ends, stroke_at, WindowOnTable};
ghost use Rattle.grid.specs.Refusals.{tested, window_refusal, stroke_refusal, strokes_refusal, room_refusal};
ghost use Rattle.grid.specs.Calls.{refused_by};

// The numbers of the refusals, as specs/Refusals.antt defines them.
pub const WINDOW_OFF: u8 = 2;

pub const NO_WINDOW: u8 = 3;

pub const NO_ORDER: u8 = 4;

pub const WRONG_LENGTH: u8 = 5;

pub const NUMBER_OFF: u8 = 6;

pub const NOT_CONVEX: u8 = 7;

pub const NO_ROOM: u8 = 8;

pub const NOT_A_NUMBER: u8 = 9;

pub const TOO_FAR: u8 = 10;

pub const BAD_DRAWING: u8 = 11;

// A rectangle: its left, bottom, right and top side.
#[repr(C)]
#[derive(Clone, Copy)]
pub struct Window {
    pub left: i32,
    pub bottom: i32,
    pub right: i32,
    pub top: i32,
}

// A stroke from (x1, y1) to (x2, y2).
#[repr(C)]
#[derive(Clone, Copy)]
pub struct Stroke {
    pub x1: i32,
    pub y1: i32,
    pub x2: i32,
    pub y2: i32,
}

// A refusal's number and place.
#[derive(Clone, Copy)]
pub struct Refusal {
    pub number: u8,
    pub place: usize,
}

// What a call that gives numbers returns: number and place of a refusal, or how many numbers it wrote.
#[repr(C)]
#[derive(Clone, Copy)]
pub struct Answer {
    pub number: u8,
    pub place: usize,
    pub count: usize,
}

// Whether x is a coordinate of the table.
pub fn on_table(x: i32) -> bool
    ensures { result ≡ on_table x }
{
    -16383 <= x && x <= 16383
}

// Whether all numbers are on the table. The loop has no way out, so that it can go several numbers at a time.
fn all_on(s: &[i32]) -> bool
    ensures { result ≡ true → length s.now ≡ first_off s.now }
{
    let mut on = true;
    for x in s {
        if !on_table(*x) {
            on = false;
        }
    }
    on
}

// x, or the 16-bit number nearest to it: on the table only where x is.
fn short(x: i32) -> i16
    ensures { Within farthest result → on_table x ≡ true }
{
    x.clamp(-32768, 32767) as i16
}

// Whether all numbers of a long list are on the table: the least and the greatest are. The loop has fewer instructions than that of `all_on`, since
// every x86-64 takes the lesser of several 16-bit numbers at once; but there are more behind its end, which pays from some 32 numbers on.
fn long_list_on(s: &[i32]) -> bool
    ensures { result ≡ true → length s.now ≡ first_off s.now }
{
    let mut least: i16 = 0;
    let mut most: i16 = 0;
    for x in s {
        let nearest = short(*x);
        least = least.min(nearest);
        most = most.max(nearest);
    }
    -16383 <= least && most <= 16383
}

// The index of the first number off the table, or how many there are. It is searched for only where there is one.
pub fn first_off(s: &[i32]) -> usize
    ensures { result ≡ first_off s.now }
{
    if all_on(s) {
        return s.len();
    }
    for i in 0..s.len() {
        if !on_table(s[i]) {
            return i;
        }
    }
    s.len()
}

// Of four numbers the index of the first off the table, or 4.
fn first_off_of_four(a: i32, b: i32, c: i32, d: i32) -> usize
    ensures { result ≡ first_off (a ∷ b ∷ c ∷ d ∷ []) }
{
    if !on_table(a) {
        return 0;
    }
    if !on_table(b) {
        return 1;
    }
    if !on_table(c) {
        return 2;
    }
    if !on_table(d) {
        return 3;
    }
    4
}

// What a test refuses in a bad window, whose numbers are looked at in their order.
fn bad_window(w: Window) -> Refusal
    requires { WindowOnTable w → ⊥ }
    ensures { result ≡ window_refusal w }
{
    let off = first_off_of_four(w.left, w.bottom, w.right, w.top);
    if off < 4 {
        return Refusal {
            number: WINDOW_OFF,
            place: off,
        };
    }
    Refusal {
        number: NO_WINDOW,
        place: 0,
    }
}

// Whether two numbers are on the table, the first below the second. Then only the first can be too low and only the second too high.
fn in_order(low: i32, high: i32) -> bool
    ensures yes { result ≡ true → (Within farthest low) × (Within farthest high) × (low <ℤ high) }
    ensures no { Within farthest low → Within farthest high → low <ℤ high → result ≡ true }
{
    -16383 <= low && low < high && high <= 16383
}

// Tests a window.
pub fn test_window(w: Window) -> Result<(), Refusal>
    ensures { result ≡ tested (window_refusal w) }
{
    if in_order(w.left, w.right) && in_order(w.bottom, w.top) {
        return Ok(());
    }
    Err(bad_window(w))
}

// Tests a stroke.
pub fn test_stroke(s: Stroke) -> Result<(), Refusal>
    ensures { result ≡ tested (stroke_refusal s) }
{
    let off = first_off_of_four(s.x1, s.y1, s.x2, s.y2);
    if off < 4 {
        return Err(Refusal {
            number: NUMBER_OFF,
            place: off,
        });
    }
    Ok(())
}

// Tests a list of strokes.
pub fn test_strokes(s: &[i32]) -> Result<(), Refusal>
    ensures { result ≡ tested (strokes_refusal s.now) }
{
    if s.len() % 4 != 0 || 16384 < s.len() {
        return Err(Refusal {
            number: WRONG_LENGTH,
            place: 0,
        });
    }
    if long_list_on(s) {
        return Ok(());
    }
    let off = first_off(s);
    if off < s.len() {
        return Err(Refusal {
            number: NUMBER_OFF,
            place: off,
        });
    }
    Ok(())
}

// The stroke whose first number stands at p.
pub fn stroke_at(s: &[i32], p: usize) -> Stroke
    requires { p + 4 ≤ length s.now }
    ensures { result ≡ stroke_at s.now p }
{
    Stroke {
        x1: s[p],
        y1: s[p + 1],
        x2: s[p + 2],
        y2: s[p + 3],
    }
}

// Puts the four numbers of a stroke from place n of a list on.
pub fn put_stroke(out: &mut [i32], n: usize, s: Stroke)
    requires { n + 4 ≤ length out.old }
    ensures { out.new ≡ sets out.old n (ends s) }
{
    let x1 = s.x1;
    let y1 = s.y1;
    let x2 = s.x2;
    let y2 = s.y2;
    out[n] = x1;
    out[n + 1] = y1;
    out[n + 2] = x2;
    out[n + 3] = y2;
}

// Tests an output, which may be shorter than needed.
pub fn test_room(need: usize, room: usize) -> Result<(), Refusal>
    ensures { result ≡ tested (room_refusal need room) }
{
    if room < need {
        return Err(Refusal {
            number: NO_ROOM,
            place: need,
        });
    }
    Ok(())
}

// The answer of a call that refuses.
pub fn refused_by(r: Refusal) -> Answer
    ensures { result ≡ refused_by r }
{
    Answer {
        number: r.number,
        place: r.place,
        count: 0,
    }
}
