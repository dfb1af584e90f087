// The lowest corner of a ring: down from the first corner, whichever way that is. Where the corners stand, and how two of them are compared,
// says the test that a caller hands over. Here too: a ring that stands in a memory, four numbers a corner.
#![tactic(auto)]

ghost use Rattle.std.specs.Prelude.{List, ℕ, ◌+◌, ◌*◌, ◌<◌, ◌≤◌, length};
ghost use Rattle.whole.specs.Choice.{Decides};
ghost use Rattle.rings.specs.Points.{Point, Before};
ghost use Rattle.rings.specs.Rings.{Ring};
ghost use Rattle.memory.specs.Memory.{point_in, ring_in};
ghost use Rattle.lowest.specs.Lowest.{LowestIn, Forward, Told};

// The place to which the walk forward from the first of n corners comes down: it goes on while the next corner comes before.
fn down_forward<F: Fn(usize, usize) -> bool>(n: usize, before: &F) -> usize
    requires asked { (i j : ℕ) → i < n → j < n → F.pre before.now i j }
    ensures { (r : List Point) → Told n (F.post before.now) r → Forward r result }
{
    let mut reached = 0;
    for next in 1..n {
        if !before(next, reached) {
            return reached;
        }
        reached = next;
    }
    reached
}

// The place to which the walk back from the first of n corners comes down, where the walk forward stays.
fn down_back<F: Fn(usize, usize) -> bool>(n: usize, before: &F) -> usize
    requires asked { (i j : ℕ) → i < n → j < n → F.pre before.now i j }
    ensures { (r : List Point) → Told n (F.post before.now) r → Forward r 0 → LowestIn r result }
{
    let mut reached = 0;
    for last in (1..n).rev() {
        if !before(last, reached) {
            return reached;
        }
        reached = last;
    }
    reached
}

// The place of the lowest of the n corners of a ring, of those the leftmost, by a test that tells which of two comes before the other: down from
// the first, whichever way that is.
pub fn lowest_by<F: Fn(usize, usize) -> bool>(n: usize, before: F) -> usize
    requires asked { (i j : ℕ) → i < n → j < n → F.pre before i j }
    ensures { (r : List Point) → Told n (F.post before) r → LowestIn r result }
{
    let i = down_forward(n, &before);
    if i == 0 {
        return down_back(n, &before);
    }
    i
}

// Whether the corner at place i lies lower than that at place j, or as low and further left.
fn comes_before(m: &[i32], i: usize, j: usize) -> bool
    requires i_in_bounds { 4 * i + 4 ≤ length m.now }
    requires j_in_bounds { 4 * j + 4 ≤ length m.now }
    ensures { Decides result (Before (point_in m.now i) (point_in m.now j)) }
{
    let p = 4 * i;
    let q = 4 * j;
    let u = m[p + 2] as i64;
    let v = m[q + 2] as i64;
    let a = (m[p + 1] as i64) * v;
    let b = (m[q + 1] as i64) * u;
    if a == b {
        return (m[p] as i64) * v < (m[q] as i64) * u;
    }
    a < b
}

// The place of the lowest of the first n corners, of those the leftmost: down from the first, whichever way that is.
pub fn lowest_corner(m: &[i32], n: usize) -> usize
    requires n_in_bounds { 4 * n ≤ length m.now }
    requires ring { Ring (ring_in m.now n) }
    ensures { LowestIn (ring_in m.now n) result }
{
    lowest_by(n, |i, j| comes_before(m, i, j))
}
