// The numbers of the strokes in a picture, where they are few enough to be read.
#![tactic(auto)]

ghost use Rattle.std.specs.Prelude.{◌≡◌, ◌+◌, ◌*◌, ◌≤◌, length};
ghost use Rattle.text.specs.Pages.{Put};
ghost use Rattle.labels.specs.Labels.{middle, beside, number_text, label, label_texts, label_place, labels};

use grid::Window;

// How far the middle of a and b is from a side of the view, in half grid steps.
fn middle(side: i32, a: i32, b: i32) -> u64
    ensures { result ≡ middle side a b }
{
    view::apart(side, a) + view::apart(side, b)
}

// Puts a number's side and the number: above its place to the right if it is even, below it to the left if it is odd.
fn put_beside(page: &mut [u8], at: usize, number: u64) -> usize
    requires { at + 70 ≤ length page.old }
    ensures put { Put page.old page.new at result (beside number) }
    ensures upper_bound { result ≤ at + 70 }
{
    if number % 2 == 0 {
        return marks::put_labelled(page, at, b">", number, b'<');
    }
    marks::put_labelled(
        page,
        at,
        b" dx=\"-.5em\" dy=\"1.25em\" text-anchor=\"end\">",
        number,
        b'<',
    )
}

// Puts a number at a place.
fn put_number(page: &mut [u8], at: usize, right: u64, down: u64, number: u64) -> usize
    requires { at + 132 ≤ length page.old }
    ensures put { Put page.old page.new at result (number_text right down number) }
    ensures upper_bound { result ≤ at + 132 }
{
    let a = marks::put_labelled(page, at, b"<text x=\"", right, b'"');
    let b = marks::put_labelled(page, a, b" y=\"", down, b'"');
    let c = put_beside(page, b, number);
    text::put(page, c, b"/text>\n")
}

// Puts the number of a stroke at its middle.
fn put_label(page: &mut [u8], at: usize, v: Window, strokes: &[i32], k: usize) -> usize
    requires k_in_bounds { k * 4 + 4 ≤ length strokes.now }
    requires at_in_bounds { at + 132 ≤ length page.old }
    ensures put { Put page.old page.new at result (label v strokes.now k) }
    ensures upper_bound { result ≤ at + 132 }
{
    let right = middle(v.left, strokes[k * 4], strokes[k * 4 + 2]);
    let down = middle(v.top, strokes[k * 4 + 1], strokes[k * 4 + 3]);
    put_number(page, at, right, down, k as u64)
}

// Puts the numbers of all strokes.
fn put_texts(page: &mut [u8], at: usize, v: Window, strokes: &[i32], count: usize) -> usize
    requires count_in_bounds { count * 4 ≤ length strokes.now }
    requires count_in_bounds_2 { at + 132 * count ≤ length page.old }
    ensures put { Put page.old page.new at result (label_texts v strokes.now count) }
    ensures upper_bound { result ≤ at + 132 * count }
{
    let mut end = at;
    for k in 0..count {
        end = put_label(page, end, v, strokes, k);
    }
    end
}

// Puts the place of the numbers.
fn put_place(page: &mut [u8], at: usize, v: Window) -> usize
    requires { at + 280 ≤ length page.old }
    ensures put { Put page.old page.new at result (label_place v) }
    ensures upper_bound { result ≤ at + 280 }
{
    let e = view::extent(v);
    let wide = view::width(v);
    let a = text::put(page, at, b"<g fill=\"#5c4a2e\" font-size=\"");
    let b = measures::put_thousandths(page, a, 40 * e, b'"');
    let c = marks::put_labelled_pair(
        page,
        b,
        b" transform=\"translate(",
        56 * e - 50 * wide + e / 2,
        6 * e - e / 2,
        b')',
    );
    text::put(
        page,
        c,
        b"scale(50)\">\n<g stroke=\"white\" stroke-width=\".3em\" stroke-linejoin=\"round\">\n",
    )
}

// Puts the numbers of the strokes, if there are at most 30.
pub fn put_labels(page: &mut [u8], at: usize, v: Window, strokes: &[i32], count: usize) -> usize
    requires count_in_bounds { count * 4 ≤ length strokes.now }
    requires at_in_bounds { at + 8210 ≤ length page.old }
    ensures put { Put page.old page.new at result (labels v strokes.now count) }
    ensures upper_bound { result ≤ at + 8210 }
{
    if count > 30 {
        return at;
    }
    let a = put_place(page, at, v);
    let b = put_texts(page, a, v, strokes, count);
    let c = text::put(page, b, b"</g>\n");
    let d = put_texts(page, c, v, strokes, count);
    text::put(page, d, b"</g>\n")
}
