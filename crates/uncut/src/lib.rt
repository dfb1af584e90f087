// An outline that lies in the window whole: its own corners, four numbers each. The lowest is found by comparing the corners' numbers as they are,
// without products.
#![tactic(auto)]

ghost use Rattle.std.specs.Prelude.{◌≡◌, ◌+◌, ◌*◌, ◌%◌, ◌≤◌, length};
ghost use Rattle.whole.specs.Choice.{Decides};
ghost use Rattle.rings.specs.Points.{Before};
ghost use Rattle.rings.specs.Rings.{Ring};
ghost use Rattle.convex.specs.Corners.{corners_of};
ghost use Rattle.lowest.specs.Lowest.{LowestIn};
ghost use Rattle.writing.specs.Writing.{Wrote, GaveRing};
ghost use Rattle.uncut.specs.Uncut.{own_corner};

// Whether the corner i of an outline lies lower than the corner j, or as low and further left.
fn comes_before(c: &[i32], i: usize, j: usize) -> bool
    requires i_in_bounds { 2 * i + 2 ≤ length c.now }
    requires j_in_bounds { 2 * j + 2 ≤ length c.now }
    ensures { Decides result (Before (own_corner c.now i) (own_corner c.now j)) }
{
    let p = 2 * i;
    let q = 2 * j;
    let y = c[p + 1];
    let v = c[q + 1];
    if y == v {
        return c[p] < c[q];
    }
    y < v
}

// The place of the lowest corner, of those the leftmost.
fn lowest_corner(c: &[i32]) -> usize
    requires { Ring (corners_of c.now) }
    ensures inside { 2 * result + 2 ≤ length c.now }
    ensures lowest { LowestIn (corners_of c.now) result }
{
    lowest::lowest_by(c.len() / 2, |i, j| comes_before(c, i, j))
}

// Writes x 1 y 1 for each corner, from the front of out.
fn write_corners(c: &[i32], out: &mut [i32])
    requires c_len { length c.now % 2 ≡ 0 }
    requires c_in_bounds { 2 * length c.now ≤ length out.old }
    ensures { Wrote (corners_of c.now) out.old out.new }
{
    for i in 0..c.len() / 2 {
        let x = c[2 * i];
        let y = c[2 * i + 1];
        out[4 * i] = x;
        out[4 * i + 1] = 1;
        out[4 * i + 2] = y;
        out[4 * i + 3] = 1;
    }
}

// How many numbers an outline's own corners have; they are written, from the lowest corner on, where they have room.
pub fn give_whole(outline: &[i32], out: &mut [i32]) -> usize
    requires outline_len { length outline.now % 2 ≡ 0 }
    requires outline_len_bound { length outline.now ≤ 128 }
    requires ring { Ring (corners_of outline.now) }
    ensures { GaveRing (corners_of outline.now) result out.old out.new }
{
    let n = outline.len();
    let need = 2 * n;
    if need <= out.len() {
        let start = 2 * lowest_corner(outline);
        let rest = 2 * (n - start);
        write_corners(&outline[start..], out);
        write_corners(&outline[..start], &mut out[rest..]);
    }
    need
}
