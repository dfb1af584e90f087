// A rack: the strips of a book side by side, so that all are compared with each other, or one with all, in few steps.
#![tactic(auto)]

ghost use Rattle.std.specs.Prelude.{◌≡◌, List, ◌∷◌, ◌+◌, ◌%◌, ◌≤◌, ◌<◌, pos, ◌-ℤ◌, length};
ghost use Rattle.std.specs.Int.Signed.{lt_z};
ghost use Rattle.std.specs.Int.{w16};
ghost use Rattle.std.proofs.Common.{SFits};
ghost use Rattle.whole.specs.Extremes.{lesser, greater};
ghost use Rattle.grid.specs.Table.{WindowOnTable};
ghost use Rattle.grid.specs.declared.Window.{Window};
ghost use Rattle.racks.specs.Areas.{shares_area};
ghost use Rattle.racks.specs.Members.{any};
ghost use Rattle.racks.specs.Pairs.{overlap_at, share, above, Met, Compares, Crowd};
ghost use Rattle.racks.specs.Racks.{Carries};

use grid::Window;

// The number at a place without a strip: one past the table's end, so that a strip has nothing in common with it.
pub const VACANT: i16 = 16384;

// How far the parts from a to b and from x to y lie over each other: from the greater of their beginnings to the lesser of their ends.
fn overlap(a: i16, b: i16, x: i16, y: i16) -> i16
    requires { SFits w16 (lesser b y -ℤ greater a x) }
    ensures { result ≡ lesser b y -ℤ greater a x }
{
    b.min(y) - a.max(x)
}

// Puts a strip on a rack that holds n.
pub fn put(rack: &mut [i16; 288], n: usize, w: Window)
    requires n_bound { n < 64 }
    requires window_on_table { WindowOnTable w }
    ensures { (ws : List Window) → n ≡ length ws → Carries rack.old ws → Carries rack.new (w ∷ ws) }
{
    let left = w.left as i16;
    let bottom = w.bottom as i16;
    let right = w.right as i16;
    let top = w.top as i16;
    rack[n] = left;
    rack[72 + n] = bottom;
    rack[144 + n] = right;
    rack[216 + n] = top;
}

// Whether w shares area with one of the n strips of a rack: the lesser of the width and the height that they have in common is then above 0. The most
// of it is sought. The compiler takes sixteen places together, so that the loop ends at a multiple of sixteen, vacant places among them.
pub fn shares(rack: &[i16; 288], n: usize, w: Window) -> bool
    requires n_value { (ws : List Window) × (n ≡ length ws) × Carries rack.now ws }
    requires window_on_table { WindowOnTable w }
    ensures { (ws : List Window) → n ≡ length ws → Carries rack.now ws → result ≡ any (shares_area w) ws }
{
    let left = w.left as i16;
    let bottom = w.bottom as i16;
    let right = w.right as i16;
    let top = w.top as i16;
    let end = (n + 15) / 16 * 16;
    let mut most: i16 = 0;
    for j in 0..end {
        let width = overlap(left, right, rack[j], rack[144 + j]);
        let height = overlap(bottom, top, rack[72 + j], rack[216 + j]);
        most = most.max(width.min(height));
    }
    0 < most
}

// How far the strips at two places lie over each other: from left to right, or from bottom to top where the row is 72.
fn overlap_at(rack: &[i16; 288], row: usize, p: usize, q: usize) -> i16
    requires p_bound { p < 72 }
    requires q_bound { q < 72 }
    requires row_bound { row ≤ 72 }
    requires sfits { SFits w16 (overlap_at rack.now row p q) }
    ensures { result ≡ overlap_at rack.now row p q }
{
    overlap(
        rack[row + p],
        rack[row + 144 + p],
        rack[row + q],
        rack[row + 144 + q],
    )
}

// The lesser of the width and the height that the strips at two places have in common: above 0 where they share area.
fn in_common(rack: &[i16; 288], p: usize, q: usize) -> i16
    requires carries { (ws : List Window) × Carries rack.now ws }
    requires p_lt_q { p < q }
    requires q_bound { q < 72 }
    ensures { lt_z (pos 0) result ≡ share rack.now p q }
{
    let width = overlap_at(rack, 0, p, q);
    let height = overlap_at(rack, 72, p, q);
    width.min(height)
}

// Compares eight strips, from the place i on, with the eight from the place j on, each with one. The most that was found for each so far is kept.
fn compare_eight(rack: &[i16; 288], i: usize, j: usize, most: [i16; 8]) -> [i16; 8]
    requires carries { (ws : List Window) × Carries rack.now ws }
    requires i_lt_j { i < j }
    requires j_bound { j < 65 }
    ensures { Compares rack.now (Met i j (j + 1)) most result }
{
    let mut found = most;
    for e in 0..8 {
        found[e] = found[e].max(in_common(rack, i + e, j + e));
    }
    found
}

// The same with the eight from j on, then from j + 1 on and so to j + 7. They are written out, since the compiler makes slower code of a loop.
fn compare_on(rack: &[i16; 288], i: usize, j: usize, most: [i16; 8]) -> [i16; 8]
    requires carries { (ws : List Window) × Carries rack.now ws }
    requires i_lt_j { i < j }
    requires j_bound { j < 58 }
    ensures { Compares rack.now (Met i j (j + 8)) most result }
{
    let found0 = compare_eight(rack, i, j, most);
    let found1 = compare_eight(rack, i, j + 1, found0);
    let found2 = compare_eight(rack, i, j + 2, found1);
    let found3 = compare_eight(rack, i, j + 3, found2);
    let found4 = compare_eight(rack, i, j + 4, found3);
    let found5 = compare_eight(rack, i, j + 5, found4);
    let found6 = compare_eight(rack, i, j + 6, found5);
    compare_eight(rack, i, j + 7, found6)
}

// Compares the eight strips from the place i on with all strips behind them, at least one. The vacant place behind the last strip ends the
// loop: if the compiler could count the turns, it would take eight turns at once in place of eight strips, which is dearer.
fn compare_behind(rack: &[i16; 288], i: usize, most: [i16; 8]) -> [i16; 8]
    requires i_value { i % 8 ≡ 0 }
    requires carries { (ws : List Window) × Carries rack.now ws × (i + 1 < length ws) }
    ensures { (ws : List Window) → Carries rack.now ws → Compares rack.now (Met i (i + 1) (length ws)) most result }
{
    let mut found = most;
    let mut j = i + 1;
    loop {
        let more = compare_on(rack, i, j, found);
        found = more;
        j += 8;
        if rack[j] == VACANT {
            return found;
        }
    }
}

// Whether one of eight numbers is above 0.
fn any_above(numbers: [i16; 8]) -> bool
    ensures { result ≡ above numbers }
{
    let mut greatest: i16 = 0;
    for number in numbers {
        greatest = greatest.max(number);
    }
    0 < greatest
}

// Whether two of the n strips of a rack share area. Eight strips are compared with the eight that begin one place behind, two places and so on, each
// with one, so that every two strips meet once. The last strip alone has none behind it.
pub fn crowded(rack: &[i16; 288], n: usize) -> bool
    requires { (ws : List Window) × (n ≡ length ws) × Carries rack.now ws }
    ensures { Crowd rack.now n result }
{
    let mut most = [0i16; 8];
    for eight in 0..(n + 6) / 8 {
        let more = compare_behind(rack, 8 * eight, most);
        most = more;
    }
    any_above(most)
}
