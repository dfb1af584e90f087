// The way of one coordinate, and where on it the coordinate is between two sides of the window.
ghost use Rattle.std.specs.Prelude.{◌≡◌, true, false, ◌≤◌, ◌<ℤ◌};
ghost use Rattle.whole.specs.Within.{Within};
ghost use Rattle.grid.specs.Table.{farthest};
ghost use Rattle.strokes.specs.Workers.{MayReach, Ranged, Risen, Fallen, ProperWay, WayOf, Apart, Overlap};

// The way of one coordinate: how long it is, from where to where it is between two sides, and the coordinates there.
// A way that is all between them is 1 long, so that one of no length is no exception.
#[derive(Clone, Copy)]
pub struct Way {
    pub long: u32,
    pub start: u32,
    pub end: u32,
    pub at: i32,
    pub to: i32,
}

// The way up from a to b, which is between the sides from `at` to `to`.
fn rising(a: i32, at: i32, to: i32, b: i32) -> Way
    requires { Ranged a at to b }
    ensures { Risen a at to b result }
{
    Way {
        long: whole::gap(a, b),
        start: whole::gap(a, at),
        end: whole::gap(a, to),
        at,
        to,
    }
}

// The way down from a to b, which is between the sides from `at` to `to`. Beside `rising`: each knows which number is the greater, and tests none.
fn falling(a: i32, at: i32, to: i32, b: i32) -> Way
    requires { Ranged b to at a }
    ensures { Fallen a at to b result }
{
    Way {
        long: whole::gap(b, a),
        start: whole::gap(at, a),
        end: whole::gap(to, a),
        at,
        to,
    }
}

// The way from a to b, which is not plainly beyond lo or hi: it comes in where a is beyond a side, and goes out where b is.
pub fn passage(lo: i32, hi: i32, a: i32, b: i32) -> Way
    requires within { Within farthest lo }
    requires within_2 { Within farthest hi }
    requires within_3 { Within farthest a }
    requires within_4 { Within farthest b }
    requires lo_lt_hi { lo <ℤ hi }
    requires may_reach { MayReach lo hi a b }
    ensures { WayOf lo hi a b result }
{
    if a < lo {
        if hi < b {
            return rising(a, lo, hi, b);
        }
        return rising(a, lo, b, b);
    }
    if hi < a {
        if b < lo {
            return falling(a, hi, lo, b);
        }
        return falling(a, hi, b, b);
    }
    if b < lo {
        return falling(a, a, lo, b);
    }
    if hi < b {
        return rising(a, a, hi, b);
    }
    Way {
        long: 1,
        start: 0,
        end: 1,
        at: a,
        to: b,
    }
}

// Whether one coordinate goes out before the other comes in; with `least` 1 instead of 0, also whether it goes out as the other comes in, so that the
// two are between their sides at one point at most. What both have in common is measured by the products of their lengths.
pub fn apart(x: Way, y: Way, least: u32) -> bool
    requires proper_way { ProperWay x }
    requires proper_way_2 { ProperWay y }
    requires least_bound { least ≤ 1 }
    ensures apart { result ≡ true → Apart least x y }
    ensures overlap { result ≡ false → Overlap least x y }
{
    y.end * x.long < x.start * y.long + least || x.end * y.long < y.start * x.long + least
}
