// What the bookkeeper is answered: a reply on a page, and the lines that tell of a refusal.
#![tactic(auto)]

ghost use Rattle.std.specs.Prelude.{◌+◌, ◌≤◌, length};
ghost use Rattle.text.specs.Pages.{Put};
ghost use Rattle.answers.specs.Answers.{meaning_text, refusal_text, strip_refusal_text, Exactly, Answers};

use grid::Window;

// An answer: the page up to `end`, and the number of the refusal, which is 0 where the command is done.
// The number is that of the C interface's answers, which `BooksAs` and `ReleasesAs` of clerk state.
#[derive(Drop)]
pub struct Reply {
    pub end: usize,
    pub number: u8,
}

// Ends the line of a refusal.
fn put_meaning(page: &mut [u8], at: usize, number: u8) -> usize
    requires { at + 103 ≤ length page.old }
    ensures { Put page.old page.new at result (meaning_text number) }
{
    let a = text::put(page, at, b": ");
    let b = refusals::put_meaning(page, a, number);
    text::put(page, b, b"\n")
}

// Answers a refusal.
pub fn refuse(page: &mut [u8], number: u8, place: usize) -> Reply
    requires { 1000 ≤ length page.old }
    ensures { Answers (Exactly (refusal_text number place) number) page.new result }
{
    let a = text::put_count(page, 0, number as u64, b' ');
    let b = text::put_natural(page, a, place as u64);
    let end = put_meaning(page, b, number);
    Reply { end, number }
}

// Answers that a strip is not booked.
pub fn refuse_strip(page: &mut [u8], number: u8, place: usize, w: Window) -> Reply
    requires { 1000 ≤ length page.old }
    ensures { Answers (Exactly (strip_refusal_text number place w) number) page.new result }
{
    let a = text::put_count(page, 0, number as u64, b' ');
    let b = text::put_count(page, a, place as u64, b' ');
    let c = strip_lines::put_strip(page, b, w);
    let end = put_meaning(page, c, number);
    Reply { end, number }
}
