// The ruler below a picture: a bar in ten parts, and the length that it shows.
#![tactic(auto)]

ghost use Rattle.std.specs.Prelude.{◌≡◌, ◌+◌, ◌≤◌, length};
ghost use Rattle.text.specs.Pages.{Put};
ghost use Rattle.ruler.specs.Rulers.{bar_length, bar_words, bar, ruler};

// How long the bar is that goes with a view.
fn bar_length(e: u64) -> u64
    ensures { result ≡ bar_length e }
{
    if e < 5 {
        return 32;
    }
    if e < 50 {
        return 320;
    }
    if e < 500 {
        return 3200;
    }
    if e < 5000 {
        return 32000;
    }
    320000
}

// Puts the words for a bar.
fn put_words(page: &mut [u8], at: usize, long: u64) -> usize
    requires { at + 7 ≤ length page.old }
    ensures put { Put page.old page.new at result (bar_words long) }
    ensures upper_bound { result ≤ at + 7 }
{
    match long {
        32 => text::put(page, at, b"0.01 mm"),
        320 => text::put(page, at, b"0.1 mm"),
        3200 => text::put(page, at, b"1 mm"),
        32000 => text::put(page, at, b"10 mm"),
        _ => text::put(page, at, b"100 mm"),
    }
}

// Puts a bar of that length, in ten parts, where the view's longer side is e.
fn put_bar(page: &mut [u8], at: usize, long: u64, e: u64) -> usize
    requires { at + 250 ≤ length page.old }
    ensures put { Put page.old page.new at result (bar long e) }
    ensures upper_bound { result ≤ at + 250 }
{
    let a = marks::put_labelled_pair(page, at, b"<g transform=\"scale(", long, e, b')');
    let b = text::put(
        page,
        a,
        b"\">\n<path fill=\"#c9d4d8\" d=\"M0 0h1v1h-1z\"/>\n<path fill=\"#1d2f38\" d=\"M0 0h.1v1h-.1z",
    );
    text::put(
        page,
        b,
        b"m.2 0h.1v1h-.1zm.2 0h.1v1h-.1zm.2 0h.1v1h-.1zm.2 0h.1v1h-.1z\"/>\n</g>\n",
    )
}

// Puts the bar that goes with the view, and the words for it.
pub fn put_ruler(page: &mut [u8], at: usize, e: u64) -> usize
    requires { at + 370 ≤ length page.old }
    ensures put { Put page.old page.new at result (ruler e) }
    ensures upper_bound { result ≤ at + 370 }
{
    let long = bar_length(e);
    let a = put_bar(page, at, long, e);
    let b = marks::put_labelled(
        page,
        a,
        b"<g font-size=\"3\" fill=\"#1d2f38\" transform=\"scale(",
        e,
        b')',
    );
    let c = text::put(page, b, b"\">\n<text y=\"5\">");
    put_words(page, c, long)
}
