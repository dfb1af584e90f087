// Every public call, for C programs to link: the same call under the prefix gerlyantu_, with the same statement.
#![tactic(auto)]

ghost use Rattle.batch.specs.Batches.{Batch, BatchWithTouches};
ghost use Rattle.codes.specs.Steps.{CohenSutherland};
ghost use Rattle.corners.specs.Corners.{CyrusBeck};
ghost use Rattle.drawing.specs.Drawings.{ReadDrawing};
ghost use Rattle.intake.specs.Millimetres.{PointToGrid, WindowToGrid, ToMillimetres};
ghost use Rattle.outlines.specs.Outlines.{Outline};
ghost use Rattle.own_strips.specs.OwnStrips.{ListStrips};
ghost use Rattle.strip_book.specs.Books.{BookStrip, ReleaseSlot};
ghost use Rattle.strokes.specs.Strokes.{Clipping};

use codes::CountedAnswer;
use corners::CornerAnswer;
use drawing::DrawingAnswer;
use grid::{Answer, Stroke, Window};
use intake::{BackAnswer, PointAnswer, PointMm, WindowAnswer, WindowMm};
use outlines::OutlineAnswer;
use strip_book::{BookingAnswer, ReleaseAnswer};
use strokes::StrokeAnswer;

#[unsafe(no_mangle)]
pub extern "C" fn gerlyantu_point_to_grid(p: PointMm) -> PointAnswer
    ensures { PointToGrid p result }
{
    intake::point_to_grid(p)
}

#[unsafe(no_mangle)]
pub extern "C" fn gerlyantu_window_to_grid(w: WindowMm) -> WindowAnswer
    ensures { WindowToGrid w result }
{
    intake::window_to_grid(w)
}

#[unsafe(no_mangle)]
pub extern "C" fn gerlyantu_to_millimetres(g: i32) -> BackAnswer
    ensures { ToMillimetres g result }
{
    intake::to_millimetres(g)
}

#[unsafe(no_mangle)]
pub extern "C" fn gerlyantu_liang_barsky(w: Window, s: Stroke) -> StrokeAnswer
    ensures { Clipping w s result }
{
    strokes::liang_barsky(w, s)
}

#[unsafe(no_mangle)]
pub extern "C" fn gerlyantu_cohen_sutherland(w: Window, s: Stroke) -> CountedAnswer
    ensures { CohenSutherland w s result }
{
    codes::cohen_sutherland(w, s)
}

#[unsafe(no_mangle)]
pub extern "C" fn gerlyantu_cross_product(w: Window, s: Stroke) -> StrokeAnswer
    ensures { Clipping w s result }
{
    cross_product::cross_product(w, s)
}

#[unsafe(no_mangle)]
pub extern "C" fn gerlyantu_batch(w: Window, strokes: &[i32], out: &mut [i32]) -> Answer
    ensures { Batch w strokes.now result out.old out.new }
{
    batch::batch(w, strokes, out)
}

#[unsafe(no_mangle)]
pub extern "C" fn gerlyantu_batch_with_touches(
    w: Window,
    strokes: &[i32],
    out: &mut [i32],
) -> Answer
    ensures { BatchWithTouches w strokes.now result out.old out.new }
{
    batch::batch_with_touches(w, strokes, out)
}

#[unsafe(no_mangle)]
pub extern "C" fn gerlyantu_cyrus_beck(corners: &[i32], s: Stroke) -> CornerAnswer
    ensures { CyrusBeck corners.now s result }
{
    corners::cyrus_beck(corners, s)
}

#[unsafe(no_mangle)]
pub extern "C" fn gerlyantu_read_drawing(bytes: &[u8], out: &mut [i32]) -> DrawingAnswer
    ensures { ReadDrawing bytes.now result out.old out.new }
{
    drawing::read_drawing(bytes, out)
}

#[unsafe(no_mangle)]
pub extern "C" fn gerlyantu_clip_outline(
    w: Window,
    order: u32,
    outline: &[i32],
    out: &mut [i32],
) -> OutlineAnswer
    ensures { Outline w order outline.now result out.old out.new }
{
    outlines::clip_outline(w, order, outline, out)
}

#[unsafe(no_mangle)]
pub extern "C" fn gerlyantu_book_strip(book: &mut [i32], renter: i32, w: Window) -> BookingAnswer
    ensures { BookStrip renter w result book.old book.new }
{
    strip_book::book_strip(book, renter, w)
}

#[unsafe(no_mangle)]
pub extern "C" fn gerlyantu_release_slot(book: &mut [i32], renter: i32, slot: i32) -> ReleaseAnswer
    ensures { ReleaseSlot renter slot result book.old book.new }
{
    strip_book::release_slot(book, renter, slot)
}

#[unsafe(no_mangle)]
pub extern "C" fn gerlyantu_list_strips(book: &[i32], renter: i32, out: &mut [i32]) -> Answer
    ensures { ListStrips renter book.now result out.old out.new }
{
    own_strips::list_strips(book, renter, out)
}
