// A strip in a sheet: its name, its sides and its number.
#![tactic(auto)]

ghost use Rattle.std.specs.Prelude.{◌≡◌, ◌+◌, ◌≤◌, length};
ghost use Rattle.text.specs.Pages.{Put};
ghost use Rattle.strip_art.specs.StripArt.{number_size, strip_name, number_place, strip_number, strip_art};

use grid::Window;

// How high the number of a strip is, in half grid steps: 1600 of them are 25 mm.
fn number_size(w: Window) -> u64
    ensures { result ≡ number_size w }
{
    let high = view::height(w);
    let wide = view::width(w);
    (8 * high / 5).min(wide).min(1600)
}

// Puts the words that name a strip.
fn put_name(page: &mut [u8], at: usize, renter: usize, k: usize) -> usize
    requires { at + 80 ≤ length page.old }
    ensures put { Put page.old page.new at result (strip_name renter k) }
    ensures upper_bound { result ≤ at + 80 }
{
    let a = marks::put_labelled(page, at, b"<g><title>renter ", renter as u64, b',');
    let b = marks::put_labelled(page, a, b" slot ", k as u64, b'<');
    text::put(page, b, b"/title>")
}

// Puts the start of a text in the middle of a strip.
fn put_place(page: &mut [u8], at: usize, w: Window) -> usize
    requires { at + 230 ≤ length page.old }
    ensures put { Put page.old page.new at result (number_place w) }
    ensures upper_bound { result ≤ at + 230 }
{
    let wide = view::width(w);
    let high = view::height(w);
    let a = text::put(
        page,
        at,
        b"<text stroke=\"none\" fill=\"currentColor\" fill-opacity=\"1\" dy=\".35em\" transform=\"translate(",
    );
    let b = marks::put_point(page, a, w.left, w.bottom, b')');
    let c = marks::put_labelled(page, b, b"scale(.5 -.5)\" x=\"", wide, b'"');
    marks::put_labelled(page, c, b" y=\"-", high, b'"')
}

// Puts a strip's number in its middle.
fn put_number(page: &mut [u8], at: usize, w: Window, k: usize) -> usize
    requires { at + 320 ≤ length page.old }
    ensures put { Put page.old page.new at result (strip_number w k) }
    ensures upper_bound { result ≤ at + 320 }
{
    let size = number_size(w);
    let a = put_place(page, at, w);
    let b = marks::put_labelled(page, a, b" font-size=\"", size, b'"');
    let c = marks::put_labelled(page, b, b">", k as u64, b'<');
    text::put(page, c, b"/text></g>\n")
}

// Puts a strip that a renter has in his slot k.
pub fn put_strip(page: &mut [u8], at: usize, renter: usize, k: usize, w: Window) -> usize
    requires { at + 500 ≤ length page.old }
    ensures put { Put page.old page.new at result (strip_art renter k w) }
    ensures upper_bound { result ≤ at + 500 }
{
    let a = put_name(page, at, renter, k);
    let b = text::put(page, a, b"<path d=\"M");
    let c = layers::put_round(page, b, w);
    let d = text::put(page, c, b"\"/>");
    put_number(page, d, w, k)
}
