// How far an outline reaches: the rectangle round its corners tells most outlines that no side cuts, and most that no side leaves.
#![tactic(auto)]

ghost use Rattle.std.specs.Prelude.{◌≡◌, true, ◌≤◌, length};
ghost use Rattle.whole.specs.Choice.{Decides};
ghost use Rattle.grid.specs.Sides.{Side, Clear, Beyond};
ghost use Rattle.grid.specs.Table.{NumbersOnTable};
ghost use Rattle.reach.specs.Reach.{Round, Reaches, ReachOnTable};

use grid::Window;

// A rectangle widened so that it reaches every corner from one on, where it holds all before that.
fn widened(outline: &[i32], from: usize, b: Window) -> Window
    requires { Round outline.now from b }
    ensures reaches { Reaches outline.now result }
    ensures reach_on_table { NumbersOnTable outline.now → ReachOnTable b → ReachOnTable result }
{
    let mut left = b.left;
    let mut bottom = b.bottom;
    let mut right = b.right;
    let mut top = b.top;
    for k in from..outline.len() / 2 {
        let x = outline[2 * k];
        let y = outline[2 * k + 1];
        left = left.min(x);
        bottom = bottom.min(y);
        right = right.max(x);
        top = top.max(y);
    }
    Window {
        left,
        bottom,
        right,
        top,
    }
}

// A rectangle that every corner lies in. Up to eight corners begin with the first, as one by one they take fewer steps than in vectors;
// more begin with the table's ends, so that it leaves the table only where a corner does.
pub fn reach_of(outline: &[i32]) -> Window
    requires { 2 ≤ length outline.now }
    ensures reaches { Reaches outline.now result }
    ensures reach_on_table { NumbersOnTable outline.now → ReachOnTable result }
{
    if outline.len() <= 16 {
        let x = outline[0];
        let y = outline[1];
        return widened(
            outline,
            1,
            Window {
                left: x,
                bottom: y,
                right: x,
                top: y,
            },
        );
    }
    widened(
        outline,
        0,
        Window {
            left: 16383,
            bottom: 16383,
            right: -16383,
            top: -16383,
        },
    )
}

// Whether what reaches to b lies on the table: the least numbers are not too low and the greatest not too high.
pub fn on_table(b: Window) -> bool
    ensures { Decides result (ReachOnTable b) }
{
    -16383 <= b.left && b.right <= 16383 && -16383 <= b.bottom && b.top <= 16383
}

// Whether no side of w cuts anything off that lies in b.
pub fn inside(w: Window, b: Window) -> bool
    ensures { result ≡ true → (k : Side) → Clear w b k }
{
    w.left <= b.left && b.right <= w.right && w.bottom <= b.bottom && b.top <= w.top
}

// Whether one side of w leaves nothing of what lies in b, but what is on its line.
pub fn apart(w: Window, b: Window) -> bool
    ensures { result ≡ true → (k : Side) × Beyond w b k }
{
    b.right <= w.left || w.right <= b.left || b.top <= w.bottom || w.top <= b.bottom
}
