// Reads a drawing on standard input, and writes its picture as an SVG.
#![tactic(auto)]

ghost use Rattle.std.specs.Prelude.{◌≡◌, ◌+◌, ◌*◌, ◌≤◌, length, take};
ghost use Rattle.io.specs.Counts.{IsPrefixLen};
ghost use Rattle.text.specs.Pages.{Put};
ghost use Rattle.picture.specs.Pictures.{picture, Picture};

use grid::Window;
use reports::Made;

// Puts the picture of a drawing that was cut.
fn put_picture(
    page: &mut [u8],
    w: Window,
    strokes: &[i32],
    drawn: usize,
    rows: &[i32],
    kept: usize,
) -> usize
    requires drawn_in_bounds { drawn * 4 ≤ length strokes.now }
    requires kept_in_bounds { kept * 5 ≤ length rows.now }
    requires kept_bound { kept ≤ 4096 }
    requires kept_in_bounds_2 { 49 * drawn + 147 * kept + 11200 ≤ length page.old }
    ensures { Put page.old page.new 0 result (picture w strokes.now drawn rows.now kept) }
{
    let v = view::reach(w, strokes);
    let a = frames::put_frame(page, 0, v, kept, drawn);
    let b = frames::put_placed(page, a, v);
    let c = artwork::put_artwork(page, b, w, v, strokes, drawn, rows, kept);
    captions::put_caption(page, c, w, v, kept, drawn)
}

// Draws a drawing into a page.
fn draw(bytes: &[u8], strokes: &mut [i32], rows: &mut [i32], page: &mut [u8]) -> Made
    requires value { 16384 ≡ length strokes.old }
    requires value_2 { 20480 ≡ length rows.old }
    requires in_bounds { 820000 ≤ length page.old }
    ensures picture { Picture bytes.now (take result.end page.new) result.refusal }
    ensures prefix_len { IsPrefixLen result.end page.new }
{
    match cutting::cut_drawing(bytes, strokes, rows) {
        Ok(sheet) => {
            let numbers = sheet.drawn * 4;
            let count = sheet.kept * 5;
            let end = put_picture(
                page,
                sheet.window,
                &strokes[..numbers],
                sheet.drawn,
                &rows[..count],
                sheet.kept,
            );
            Made { end, refusal: None }
        }
        Err(refusal) => Made {
            end: refused::put_refused(page, refusal.number, refusal.place),
            refusal: Some(refusal),
        },
    }
}

// Reads, draws and writes, in the memory that main lends.
fn run(rt: &HostRuntime, bytes: &mut [u8], strokes: &mut [i32], rows: &mut [i32], page: &mut [u8])
    requires value { 16384 ≡ length strokes.old }
    requires value_2 { 20480 ≡ length rows.old }
    requires in_bounds { 820000 ≤ length page.old }
{
    let Some(count) = streams::read_all(rt, bytes) else {
        return;
    };
    let made = draw(&bytes[..count], strokes, rows, page);
    if streams::write(rt, &page[..made.end]) {
        if let Some(refusal) = made.refusal {
            reports::tell(rt, refusal);
        }
    }
}

fn main(rt: HostRuntime) {
    // One byte more than a drawing may have.
    let mut bytes = [0u8; 65537];
    let mut strokes = [0i32; 16384];
    let mut rows = [0i32; 20480];
    let mut page = [0u8; 820000];
    run(&rt, &mut bytes, &mut strokes, &mut rows, &mut page);
}
