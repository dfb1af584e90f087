// Exact fractions: brought to lowest terms, compared, and rounded to the grid.
#![tactic(auto)]

ghost use Rattle.std.specs.Prelude.{◌≡◌, ◌<◌, ◌≤◌, ◌^◌, pos, ◌<ℤ◌};
ghost use Rattle.whole.specs.Within.{Within};
ghost use Rattle.fraction.specs.Fraction.{GreatestCommon, LowestOf, less_than, Comparable};
ghost use Rattle.fraction.specs.Rounding.{along, Rounded};

#[repr(C)]
#[derive(Clone, Copy)]
pub struct Fraction {
    pub num: i64,
    pub den: i64,
}

// Euclid's rule, by divisions of 32 bits; two steps a turn, so that the numbers change places without being moved.
// A while: how many turns it takes depends on the numbers.
fn common(a: u32, b: u32) -> u32
    ensures { GreatestCommon a b result }
{
    let mut m = a;
    let mut n = b;
    while n != 0 {
        m = m % n;
        if m == 0 {
            return n;
        }
        n = n % m;
    }
    m
}

// n/d in lowest terms, for numbers of 32 bits. The denominator comes first, as the larger one saves a division.
pub fn lowest_small(n: u32, d: u32) -> Fraction
    requires { 0 < d }
    ensures { LowestOf (pos n) (pos d) result }
{
    let divisor = common(d, n);
    if divisor == 1 {
        return Fraction {
            num: n as i64,
            den: d as i64,
        };
    }
    Fraction {
        num: (n / divisor) as i64,
        den: (d / divisor) as i64,
    }
}

// n/d in lowest terms, for numbers of 32 bits with a sign; a whole number needs one division.
pub fn lowest_signed(n: i32, d: i32) -> Fraction
    requires { pos 0 <ℤ d }
    ensures { LowestOf n d result }
{
    let rest = n % d;
    if rest == 0 {
        return Fraction {
            num: (n / d) as i64,
            den: 1,
        };
    }
    let shared = common(d as u32, whole::size(rest as i64) as u32) as i32;
    if shared == 1 {
        return Fraction {
            num: n as i64,
            den: d as i64,
        };
    }
    Fraction {
        num: (n / shared) as i64,
        den: (d / shared) as i64,
    }
}

// Whether f is less than g.
pub fn less(f: Fraction, g: Fraction) -> bool
    requires { Comparable f g }
    ensures { result ≡ less_than f g }
{
    f.num * g.den < g.num * f.den
}

// The whole number nearest to x/d, halves to the even one: an odd quotient adds one to twice the rest, so that its half goes up.
// `decimal` has it in 64 bits: one function of both widths would need a trait with the laws of division, and be longer than the two.
fn closest(x: u32, d: u32) -> u32
    requires d_nonzero { (0 < d) × (d ≤ 32766) }
    requires x_bound { x < 2 ^ 31 }
    ensures { Rounded (pos x) (pos d) (pos result) }
{
    let quotient = x / d;
    if d < x % d * 2 + quotient % 2 {
        return quotient + 1;
    }
    quotient
}

// The coordinate at n/d of the way from a to b, rounded. It is lifted above 0 by an even number, which keeps even what is even.
pub fn rounded(a: i32, b: i32, n: u32, d: u32) -> i32
    requires within { Within 16383 a }
    requires within_2 { Within 16383 b }
    requires d_nonzero { (0 < d) × (d ≤ 32766) }
    requires n_le_d { n ≤ d }
    ensures { Rounded (along a b (pos n) (pos d)) (pos d) result }
{
    let lifted = (a + 16384) * d as i32 + (b - a) * n as i32;
    closest(lifted as u32, d) as i32 - 16384
}
