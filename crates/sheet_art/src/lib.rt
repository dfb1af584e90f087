// The sheet of a strip book, as an SVG: the table with the strips of both renters, a ruler and a legend.
#![tactic(auto)]

ghost use Rattle.std.specs.Prelude.{◌≡◌, ◌+◌, ◌≤◌, length};
ghost use Rattle.text.specs.Pages.{Put};
ghost use Rattle.sheet_art.specs.SheetArt.{table, sheet_head, glass, sheet_foot, sheet};

use grid::Window;

// The whole table.
fn table() -> Window
    ensures { result ≡ table }
{
    Window {
        left: -16383,
        bottom: -16383,
        right: 16383,
        top: 16383,
    }
}

// Puts the sheet's size, its title and a white ground.
fn put_head(page: &mut [u8], n: usize, m: usize) -> usize
    requires { 450 ≤ length page.old }
    ensures put { Put page.old page.new 0 result (sheet_head n m) }
    ensures upper_bound { result ≤ 450 }
{
    let v = table();
    let a = frames::put_size(page, 0, v);
    let b = marks::put_labelled(page, a, b"strip book: ", n as u64, b' ');
    let c = marks::put_labelled(page, b, b"+ ", m as u64, b' ');
    text::put(
        page,
        c,
        b"strips</title>\n<rect width=\"100%\" height=\"100%\" fill=\"white\"/>\n",
    )
}

// Puts the table and the strips of both renters.
fn put_glass(page: &mut [u8], at: usize, book: &[i32]) -> usize
    requires book_len { length book.now ≡ 320 }
    requires at_in_bounds { at + 33400 ≤ length page.old }
    ensures put { Put page.old page.new at result (glass book.now) }
    ensures upper_bound { result ≤ at + 33400 }
{
    let v = table();
    let e = view::extent(v);
    let a = frames::put_placed(page, at, v);
    let b = layers::put_strip(page, a, v, e);
    let c = renter_art::put_renter(page, b, book, 0);
    let d = renter_art::put_renter(page, c, book, 1);
    text::put(page, d, b"</g>\n")
}

// Puts the ruler and the legend below the table.
fn put_foot(page: &mut [u8], at: usize, n: usize, m: usize) -> usize
    requires { at + 1000 ≤ length page.old }
    ensures { Put page.old page.new at result (sheet_foot n m) }
{
    let v = table();
    let e = view::extent(v);
    let a = captions::put_caption_place(page, at, v);
    let b = ruler::put_ruler(page, a, e);
    let c = text::put(page, b, b"</text>\n");
    let d = legend::put_legend(page, c, n, m);
    text::put(page, d, b"</g>\n</g>\n</svg>\n")
}

// Puts the sheet of a book into a page, from its start on, and says where it ends.
pub fn put_sheet(page: &mut [u8], book: &[i32]) -> usize
    requires book_len { length book.now ≡ 320 }
    requires in_bounds { 35000 ≤ length page.old }
    ensures { Put page.old page.new 0 result (sheet book.now) }
{
    let n = renter_art::count_strips(book, 0);
    let m = renter_art::count_strips(book, 1);
    let a = put_head(page, n, m);
    let b = put_glass(page, a, book);
    put_foot(page, b, n, m)
}
