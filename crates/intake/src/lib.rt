// Millimetres to the grid of 1/32 mm and back.
#![tactic(auto)]

ghost use Rattle.intake.specs.Millimetres.{TakenAt, PointOnGrid, PointToGrid, WindowOnGrid, WindowToGrid, ToMillimetres};

use grid::{Refusal, Window};

// A point in millimetres.
#[repr(C)]
#[derive(Clone, Copy)]
pub struct PointMm {
    pub x: f32,
    pub y: f32,
}

// A rectangle in millimetres: its left, bottom, right and top side.
#[repr(C)]
#[derive(Clone, Copy)]
pub struct WindowMm {
    pub left: f32,
    pub bottom: f32,
    pub right: f32,
    pub top: f32,
}

// A refusal's number and place, or a point of the grid.
#[repr(C)]
#[derive(Clone, Copy)]
pub struct PointAnswer {
    pub number: u8,
    pub place: usize,
    pub x: i32,
    pub y: i32,
}

// A refusal's number and place, or a window of the grid.
#[repr(C)]
#[derive(Clone, Copy)]
pub struct WindowAnswer {
    pub number: u8,
    pub place: usize,
    pub window: Window,
}

// A refusal's number and place, or a number in millimetres.
#[repr(C)]
#[derive(Clone, Copy)]
pub struct BackAnswer {
    pub number: u8,
    pub place: usize,
    pub mm: f32,
}

// A point of the grid.
#[derive(Clone, Copy, PartialEq, Eq)]
pub struct Point {
    pub x: i32,
    pub y: i32,
}

// The whole number nearest to 32 x, halves to the even one. A refusal has the place of x among its numbers.
fn to_grid(x: f32, place: usize) -> Result<i32, Refusal>
    ensures { TakenAt place x result }
{
    if x.is_nan() {
        return Err(Refusal {
            number: grid::NOT_A_NUMBER,
            place,
        });
    }
    let y = x * 32.0;
    // 16383.5 itself would go to 16384.
    if y < 16383.5 && y > -16383.5 {
        // From 2^23 to 2^24 an f32 counts in whole numbers: the sum rounds y, and its bits count on from those of 12582912.0.
        let shifted = y + 12582912.0;
        return Ok((f32::to_bits(shifted) as i32) - 0x4b40_0000);
    }
    Err(Refusal {
        number: grid::TOO_FAR,
        place,
    })
}

// The point of the grid. Its numbers are taken in order, and the first faulty one decides.
pub fn point_on_grid(p: PointMm) -> Result<Point, Refusal>
    ensures { PointOnGrid p result }
{
    Ok(Point {
        x: to_grid(p.x, 0)?,
        y: to_grid(p.y, 1)?,
    })
}

// The same as the answer of a call; where it refuses every other field is 0.
// Its statement is `PointToGrid`, specs/Millimetres.antt.
pub fn point_to_grid(p: PointMm) -> PointAnswer
    ensures { PointToGrid p result }
{
    match point_on_grid(p) {
        Ok(Point { x, y }) => PointAnswer {
            number: 0,
            place: 0,
            x,
            y,
        },
        Err(Refusal { number, place }) => PointAnswer {
            number,
            place,
            x: 0,
            y: 0,
        },
    }
}

// The window of the grid, by its four numbers in order. Its area is not tested here.
pub fn window_on_grid(w: WindowMm) -> Result<Window, Refusal>
    ensures { WindowOnGrid w result }
{
    Ok(Window {
        left: to_grid(w.left, 0)?,
        bottom: to_grid(w.bottom, 1)?,
        right: to_grid(w.right, 2)?,
        top: to_grid(w.top, 3)?,
    })
}

// The same as the answer of a call; where it refuses every other field is 0.
// Its statement is `WindowToGrid`, specs/Millimetres.antt.
pub fn window_to_grid(w: WindowMm) -> WindowAnswer
    ensures { WindowToGrid w result }
{
    match window_on_grid(w) {
        Ok(window) => WindowAnswer {
            number: 0,
            place: 0,
            window,
        },
        Err(Refusal { number, place }) => WindowAnswer {
            number,
            place,
            window: Window {
                left: 0,
                bottom: 0,
                right: 0,
                top: 0,
            },
        },
    }
}

// A grid number in millimetres, exactly.
// Its statement is `ToMillimetres`, specs/Millimetres.antt.
pub fn to_millimetres(g: i32) -> BackAnswer
    ensures { ToMillimetres g result }
{
    if grid::on_table(g) {
        return BackAnswer {
            number: 0,
            place: 0,
            mm: (g as f32) / 32.0,
        };
    }
    BackAnswer {
        number: grid::NUMBER_OFF,
        place: 0,
        mm: 0.0,
    }
}
