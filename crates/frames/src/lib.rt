// What stands before the artwork of a picture: its size, its title and the drawing's place.
#![tactic(auto)]

ghost use Rattle.std.specs.Prelude.{◌≡◌, ◌+◌, ◌≤◌, length};
ghost use Rattle.text.specs.Pages.{Put};
ghost use Rattle.frames.specs.Frames.{pixels_high, size, frame, placed};

use grid::Window;

// How many pixels a picture is high that is 1120 wide.
fn pixels_high(v: Window) -> u64
    ensures { result ≡ pixels_high v }
{
    let e = view::extent(v);
    let high = view::height(v);
    // A strip has area; a view of one point alone would be a margin.
    if e == 0 {
        return 260;
    }
    1000 * high / e + 260
}

// Puts the picture's size.
pub fn put_size(page: &mut [u8], at: usize, v: Window) -> usize
    requires { at + 300 ≤ length page.old }
    ensures put { Put page.old page.new at result (size v) }
    ensures upper_bound { result ≤ at + 300 }
{
    let pixels = pixels_high(v);
    let e = view::extent(v);
    let high = view::height(v);
    let a = marks::put_labelled(
        page,
        at,
        b"<svg xmlns=\"http://www.w3.org/2000/svg\" font-family=\"sans-serif\" width=\"1120\" height=\"",
        pixels,
        b'"',
    );
    let b = marks::put_labelled_pair(
        page,
        a,
        b" viewBox=\"0 0 ",
        112 * e,
        100 * high + 26 * e,
        b'"',
    );
    text::put(
        page,
        b,
        b">\n<style>@media screen{:root{width:100%;height:100%;background:white}}</style>\n<title>",
    )
}

// Puts the picture's size, the title and a white ground.
pub fn put_frame(page: &mut [u8], at: usize, v: Window, kept: usize, all: usize) -> usize
    requires { at + 450 ≤ length page.old }
    ensures put { Put page.old page.new at result (frame v kept all) }
    ensures upper_bound { result ≤ at + 450 }
{
    let a = put_size(page, at, v);
    let b = marks::put_kept(page, a, kept, all, b'<');
    text::put(
        page,
        b,
        b"/title>\n<rect width=\"100%\" height=\"100%\" fill=\"white\"/>\n",
    )
}

// Puts the start of a group with the drawing's own grid numbers, at the drawing's place in the picture.
pub fn put_placed(page: &mut [u8], at: usize, v: Window) -> usize
    requires { at + 300 ≤ length page.old }
    ensures put { Put page.old page.new at result (placed v) }
    ensures upper_bound { result ≤ at + 300 }
{
    let e = view::extent(v);
    let wide = view::width(v);
    let a = marks::put_labelled_pair(
        page,
        at,
        b"<g fill=\"none\" stroke-linecap=\"round\" transform=\"translate(",
        56 * e - 50 * wide,
        6 * e,
        b')',
    );
    let b = text::put(page, a, b"scale(-100 100)translate(");
    let c = marks::put_point(page, b, v.left, v.top, b')');
    text::put(page, c, b"scale(-1)\">\n")
}
