// The legend of a sheet: a line for each renter, which says how many strips the renter has.
#![tactic(auto)]

ghost use Rattle.std.specs.Prelude.{◌+◌, ◌≤◌, length};
ghost use Rattle.text.specs.Pages.{Put};
ghost use Rattle.legend.specs.Legends.{strip_word, legend_line, legend};

// Puts the word for so many strips, and the end of its line.
fn put_word(page: &mut [u8], at: usize, n: usize) -> usize
    requires { at + 15 ≤ length page.old }
    ensures put { Put page.old page.new at result (strip_word n) }
    ensures upper_bound { result ≤ at + 15 }
{
    if n == 1 {
        return text::put(page, at, b"strip</text>\n");
    }
    text::put(page, at, b"strips</text>\n")
}

// Puts the line of the legend for a renter who has n strips.
fn put_line(page: &mut [u8], at: usize, renter: usize, n: usize) -> usize
    requires renter_bound { renter ≤ 1 }
    requires at_in_bounds { at + 200 ≤ length page.old }
    ensures put { Put page.old page.new at result (legend_line renter n) }
    ensures upper_bound { result ≤ at + 200 }
{
    let a = text::put(page, at, b"<text x=\"69\" y=\"");
    let b = measures::put_thousandths(page, a, 2600 + 4500 * (renter as u64), b'"');
    let c = marks::put_labelled(page, b, b">renter ", renter as u64, b':');
    let d = marks::put_labelled(page, c, b" ", n as u64, b' ');
    put_word(page, d, n)
}

// Puts the legend's two lines.
pub fn put_legend(page: &mut [u8], at: usize, n: usize, m: usize) -> usize
    requires { at + 400 ≤ length page.old }
    ensures put { Put page.old page.new at result (legend n m) }
    ensures upper_bound { result ≤ at + 400 }
{
    let a = put_line(page, at, 0, n);
    put_line(page, a, 1, m)
}
