// What each refusal means, in a sentence. A new refusal gets its words here, and beside its number in include/gerlyantu.h; tests/linked compares.
#![tactic(auto)]

ghost use Rattle.std.specs.Prelude.{◌+◌, ◌≤◌, length};
ghost use Rattle.text.specs.Pages.{Put};
ghost use Rattle.refusals.specs.Words.{sentence, sentence_from12, refusal_words};

// Puts what a refusal's number means. The numbers are those of the C interface.
pub fn put_meaning(page: &mut [u8], at: usize, number: u8) -> usize
    requires { at + 100 ≤ length page.old }
    ensures put { Put page.old page.new at result (sentence number) }
    ensures upper_bound { result ≤ at + 100 }
{
    match number {
        0 => text::put(page, at, b"done"),
        2 => text::put(page, at, b"a number of the window is off the table"),
        3 => text::put(
            page,
            at,
            b"the window has no area, or its corners are not a strictly convex ring",
        ),
        4 => text::put(page, at, b"there is no such side order: they are 0 to 23"),
        5 => text::put(page, at, b"the list has a wrong length"),
        6 => text::put(page, at, b"a grid number is off the table"),
        7 => text::put(
            page,
            at,
            b"the outline is not strictly convex counterclockwise",
        ),
        8 => text::put(
            page,
            at,
            b"the output is too short: the place says how many numbers it needs",
        ),
        9 => text::put(page, at, b"a number of millimetres is not a number"),
        10 => text::put(
            page,
            at,
            b"a number of millimetres is infinite or off the table",
        ),
        11 => text::put(page, at, b"not a drawing file, or damaged"),
        _ => put_meaning_from_12(page, at, number),
    }
}

// Puts what a refusal's number means, from 12 on.
fn put_meaning_from_12(page: &mut [u8], at: usize, number: u8) -> usize
    requires { at + 100 ≤ length page.old }
    ensures put { Put page.old page.new at result (sentence_from12 number) }
    ensures upper_bound { result ≤ at + 100 }
{
    match number {
        16 => text::put(page, at, b"the strip shares area with one in the book"),
        17 => text::put(
            page,
            at,
            b"none of the renter's slots is free for the strip",
        ),
        18 => text::put(
            page,
            at,
            b"the slot to release is not one of the renter's slots in use",
        ),
        19 => text::put(page, at, b"there is no such renter: they are 0 and 1"),
        23 => text::put(page, at, b"not a strip book, or damaged"),
        _ => text::put(page, at, b"unknown refusal"),
    }
}

// Puts the line that tells of a refusal: its number, its place and its meaning.
pub fn put_line(page: &mut [u8], at: usize, number: u8, place: usize) -> usize
    requires { at + 160 ≤ length page.old }
    ensures put { Put page.old page.new at result (refusal_words number place) }
    ensures upper_bound { result ≤ at + 160 }
{
    let a = text::put_refusal(page, at, number, place, b':');
    let b = text::put(page, a, b" ");
    let c = put_meaning(page, b, number);
    text::put(page, c, b"\n")
}
