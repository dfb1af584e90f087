// Reads a drawing on standard input, and prints its strip, its kept strokes and their count.
#![tactic(auto)]

ghost use Rattle.std.specs.Prelude.{◌≡◌, ◌≤◌, length, take};
ghost use Rattle.io.specs.Counts.{IsPrefixLen};
ghost use Rattle.listing.specs.Listings.{Listing};

use reports::Made;

// Lists a drawing into a page.
fn list(bytes: &[u8], strokes: &mut [i32], rows: &mut [i32], page: &mut [u8]) -> Made
    requires in_bounds { 16384 ≤ length strokes.old }
    requires value { 20480 ≡ length rows.old }
    requires in_bounds_2 { 262144 ≤ length page.old }
    ensures listing { Listing bytes.now (take result.end page.new) result.refusal }
    ensures prefix_len { IsPrefixLen result.end page.new }
{
    match cutting::cut_drawing(bytes, strokes, rows) {
        Ok(sheet) => {
            let count = sheet.kept * 5;
            Made {
                end: lines::put_listing(
                    page,
                    sheet.window,
                    sheet.drawn,
                    &rows[..count],
                    sheet.kept,
                ),
                refusal: None,
            }
        }
        Err(refusal) => Made {
            end: text::put_refusal(page, 0, refusal.number, refusal.place, b'\n'),
            refusal: Some(refusal),
        },
    }
}

// Reads, lists and prints, in the memory that main lends.
fn run(rt: &HostRuntime, bytes: &mut [u8], strokes: &mut [i32], rows: &mut [i32], page: &mut [u8])
    requires in_bounds { 16384 ≤ length strokes.old }
    requires value { 20480 ≡ length rows.old }
    requires in_bounds_2 { 262144 ≤ length page.old }
{
    let Some(count) = streams::read_all(rt, bytes) else {
        return;
    };
    let made = list(&bytes[..count], strokes, rows, page);
    if streams::write(rt, &page[..made.end]) {
        if let Some(refusal) = made.refusal {
            reports::tell(rt, refusal);
        }
    }
}

fn main(rt: HostRuntime) {
    // One byte more than a drawing may have.
    let mut bytes = [0u8; 65537];
    let mut strokes = [0i32; 16384];
    let mut rows = [0i32; 20480];
    let mut page = [0u8; 262144];
    run(&rt, &mut bytes, &mut strokes, &mut rows, &mut page);
}
