// What stands below the drawing in a picture: the ruler, the strip's size and the counts.
#![tactic(auto)]

ghost use Rattle.std.specs.Prelude.{◌+◌, ◌≤◌, length};
ghost use Rattle.text.specs.Pages.{Put};
ghost use Rattle.captions.specs.Captions.{caption_place, strip_size, caption};

use grid::Window;

// Puts the place below the drawing.
pub fn put_caption_place(page: &mut [u8], at: usize, v: Window) -> usize
    requires { at + 100 ≤ length page.old }
    ensures put { Put page.old page.new at result (caption_place v) }
    ensures upper_bound { result ≤ at + 100 }
{
    let e = view::extent(v);
    let high = view::height(v);
    let a = marks::put_labelled_pair(
        page,
        at,
        b"<g transform=\"translate(",
        6 * e,
        100 * high + 12 * e,
        b')',
    );
    text::put(page, a, b"\">\n")
}

// Puts the strip's size.
fn put_size(page: &mut [u8], at: usize, w: Window) -> usize
    requires { at + 270 ≤ length page.old }
    ensures put { Put page.old page.new at result (strip_size w) }
    ensures upper_bound { result ≤ at + 270 }
{
    let wide = view::width(w);
    let high = view::height(w);
    let a = text::put(page, at, b"strip ");
    let b = measures::put_millimetres(page, a, wide);
    let c = text::put(page, b, b" x ");
    let d = measures::put_millimetres(page, c, high);
    text::put(page, d, b" mm</text>\n")
}

// Puts the ruler, the strip's size and the counts, below the drawing.
pub fn put_caption(
    page: &mut [u8],
    at: usize,
    w: Window,
    v: Window,
    kept: usize,
    all: usize,
) -> usize
    requires { at + 950 ≤ length page.old }
    ensures { Put page.old page.new at result (caption w v kept all) }
{
    let e = view::extent(v);
    let a = put_caption_place(page, at, v);
    let b = ruler::put_ruler(page, a, e);
    let c = text::put(
        page,
        b,
        b"</text>\n<text x=\"100\" y=\"5\" text-anchor=\"end\">",
    );
    let d = put_size(page, c, w);
    let f = text::put(page, d, b"<text x=\"100\" y=\"9.2\" text-anchor=\"end\">");
    let g = marks::put_kept(page, f, kept, all, b'<');
    text::put(page, g, b"/text>\n</g>\n</g>\n</svg>\n")
}
