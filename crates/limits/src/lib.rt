// A side of a window as a limit on x or on y, and which corners of a ring in memory lie inside it: the tests on which every pass decides.
#![tactic(auto)]

ghost use Rattle.std.specs.Prelude.{◌<◌};
ghost use Rattle.whole.specs.Within.{Within};
ghost use Rattle.grid.specs.Table.{farthest};

pub mod own;
mod ring;

pub use ring::{end_of_run, lies_on, limit_of};

// Inside is where X, or Y where axis is 1, is at least c times the denominator where low, else at most.
#[derive(Clone, Copy)]
pub struct Limit {
    pub low: bool,
    pub axis: usize,
    pub c: i32,
    pub ghost axis_bound: { axis < 2 },
    pub ghost on_table: { Within farthest c },
}
