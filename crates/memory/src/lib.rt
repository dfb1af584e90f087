// A ring of corners in memory, four numbers a corner: corners put, read, copied and moved. The fourth number, the tag, is kept and never looked at here.
#![tactic(auto)]

ghost use Rattle.std.specs.Prelude.{◌≡◌, ◌+◌, ◌*◌, ◌≤◌, length};
ghost use Rattle.memory.specs.Memory.{point_of, point_in};
ghost use Rattle.memory.specs.Tagged.{tag_in, put_at, Brought};

// A corner at (x/den, y/den).
#[derive(Clone, Copy)]
pub struct Corner {
    pub x: i32,
    pub y: i32,
    pub den: i32,
}

// The places that a ring has in a memory: from one up to another.
#[derive(Clone, Copy)]
pub struct Places {
    pub from: usize,
    pub to: usize,
}

// The corner at the place i.
pub fn corner_at(m: &[i32], i: usize) -> Corner
    requires { 4 * i + 4 ≤ length m.now }
    ensures { point_of result ≡ point_in m.now i }
{
    let at = 4 * i;
    Corner {
        x: m[at],
        y: m[at + 1],
        den: m[at + 2],
    }
}

// Puts a corner with its tag at the place i.
pub fn put(m: &mut [i32], i: usize, p: Corner, tag: i32)
    requires { 4 * i + 4 ≤ length m.old }
    ensures { m.new ≡ put_at m.old i (point_of p) tag }
{
    let at = 4 * i;
    m[at] = p.x;
    m[at + 1] = p.y;
    m[at + 2] = p.den;
    m[at + 3] = tag;
}

// Copies the corner at the place i to the place k.
fn copy(m: &mut [i32], i: usize, k: usize)
    requires i_in_bounds { 4 * i + 4 ≤ length m.old }
    requires k_in_bounds { 4 * k + 4 ≤ length m.old }
    ensures { m.new ≡ put_at m.old k (point_in m.old i) (tag_in m.old i) }
{
    let from = 4 * i;
    let to = 4 * k;
    let x = m[from];
    let y = m[from + 1];
    let den = m[from + 2];
    let tag = m[from + 3];
    m[to] = x;
    m[to + 1] = y;
    m[to + 2] = den;
    m[to + 3] = tag;
}

// Moves the corners from one place up to another down, to begin at a third; the first goes first.
// By corners, and not by the slice's copy_within: that goes number by number, and takes more instructions.
pub fn move_down(m: &mut [i32], from: usize, to: usize, at: usize)
    requires at_le_from { at ≤ from }
    requires from_le_to { from ≤ to }
    requires to_in_bounds { 4 * to ≤ length m.old }
    ensures { Brought m.old m.old m.new from to at }
{
    if at == from {
        return;
    }
    for i in from..to {
        copy(m, i, at + (i - from));
    }
}

// Moves the corners from one place up to another up by one place; the last goes first.
pub fn move_up(m: &mut [i32], from: usize, to: usize)
    requires from_le_to { from ≤ to }
    requires to_in_bounds { 4 * to + 4 ≤ length m.old }
    ensures { Brought m.old m.old m.new from to (from + 1) }
{
    for i in (from..to).rev() {
        copy(m, i, i + 1);
    }
}
