// The picture of a refusal: its number and place, and what it means in a sentence.
#![tactic(auto)]

ghost use Rattle.std.specs.Prelude.{◌+◌, ◌≤◌, length};
ghost use Rattle.text.specs.Pages.{Put};
ghost use Rattle.refused.specs.Refused.{refused_title, refused_picture};

// Puts the picture's size, which has room for the longest sentence, and its title.
fn put_title(page: &mut [u8], at: usize, number: u8, place: usize) -> usize
    requires { at + 350 ≤ length page.old }
    ensures put { Put page.old page.new at result (refused_title number place) }
    ensures upper_bound { result ≤ at + 350 }
{
    let a = text::put(
        page,
        at,
        b"<svg xmlns=\"http://www.w3.org/2000/svg\" font-family=\"sans-serif\" width=\"760\" height=\"96\">\n<title>",
    );
    let b = refusals::put_line(page, a, number, place);
    text::put(
        page,
        b,
        b"</title>\n<rect width=\"100%\" height=\"100%\" fill=\"white\"/>\n",
    )
}

// Puts the picture of a refusal.
pub fn put_refused(page: &mut [u8], number: u8, place: usize) -> usize
    requires { 700 ≤ length page.old }
    ensures { Put page.old page.new 0 result (refused_picture number place) }
{
    let a = put_title(page, 0, number, place);
    let b = text::put(
        page,
        a,
        b"<g fill=\"#8c2f23\" font-size=\"16\">\n<text x=\"24\" y=\"42\">",
    );
    let c = text::put_refusal(page, b, number, place, b'<');
    let d = text::put(page, c, b"/text>\n<text x=\"24\" y=\"68\">");
    let e = refusals::put_meaning(page, d, number);
    text::put(page, e, b"</text>\n</g>\n</svg>\n")
}
