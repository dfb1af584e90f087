// The numbers of a ring that stands in a memory, four a corner: two fractions in lowest terms, given from the lowest corner on.
#![tactic(auto)]

ghost use Rattle.std.specs.Prelude.{◌+◌, ◌*◌, ◌<◌, ◌≤◌, pos, length, ◌<ℤ◌};
ghost use Rattle.rings.specs.Lists.{All};
ghost use Rattle.rings.specs.Points.{Proper};
ghost use Rattle.rings.specs.Rings.{Ring};
ghost use Rattle.memory.specs.Memory.{ring_in};
ghost use Rattle.lowest.specs.Lowest.{started_at};
ghost use Rattle.writing.specs.Writing.{WroteFraction, Wrote, GaveRing};

// Writes n/d in lowest terms at place k of out, the numerator before the denominator.
fn write_fraction(n: i32, d: i32, out: &mut [i32], k: usize)
    requires pos_bound { pos 0 <ℤ d }
    requires k_in_bounds { k + 2 ≤ length out.old }
    ensures { WroteFraction n d k out.old out.new }
{
    // At most 1 is 1; so the compiler knows, too, that no denominator below is 0.
    if d <= 1 {
        out[k] = n;
        out[k + 1] = d;
        return;
    }
    let f = fraction::lowest_signed(n, d);
    let num = f.num as i32;
    let den = f.den as i32;
    out[k] = num;
    out[k + 1] = den;
}

// Writes the first n corners, four numbers each, from the front of out.
fn write_corners(m: &[i32], n: usize, out: &mut [i32])
    requires n_in_bounds { 4 * n ≤ length m.now }
    requires all { All Proper (ring_in m.now n) }
    requires n_in_bounds_2 { 4 * n ≤ length out.old }
    ensures { Wrote (ring_in m.now n) out.old out.new }
{
    for place in 0..n {
        let k = 4 * place;
        let w = m[k + 2];
        write_fraction(m[k], w, out, k);
        write_fraction(m[k + 1], w, out, k + 2);
    }
}

// Writes the ring of the first n corners, started at a place, from the front of out: those from the place on, and behind them those before it.
fn write_ring(m: &[i32], n: usize, start: usize, out: &mut [i32])
    requires start_lt_n { start < n }
    requires n_in_bounds { 4 * n ≤ length m.now }
    requires all { All Proper (ring_in m.now n) }
    requires n_in_bounds_2 { 4 * n ≤ length out.old }
    ensures { Wrote (started_at (ring_in m.now n) start) out.old out.new }
{
    let rest = n - start;
    write_corners(&m[4 * start..], rest, out);
    write_corners(m, start, &mut out[4 * rest..]);
}

// How many numbers the ring of the first n corners has; they are written where they have room.
pub fn give_ring(m: &[i32], n: usize, out: &mut [i32]) -> usize
    requires n_in_bounds { 4 * n ≤ length m.now }
    requires ring { Ring (ring_in m.now n) }
    ensures { GaveRing (ring_in m.now n) result out.old out.new }
{
    let need = 4 * n;
    if need <= out.len() {
        let start = lowest::lowest_corner(m, n);
        write_ring(m, n, start, out);
    }
    need
}
