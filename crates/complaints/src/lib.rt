// The line that says why a line of the pen's text is not taken.
#![tactic(auto)]

ghost use Rattle.std.specs.Prelude.{◌+◌, ◌≤◌, length};
ghost use Rattle.text.specs.Pages.{Put};
ghost use Rattle.complaints.specs.Complaints.{expectation, reason, remark, complaint};

use pen_line::Fault;
use slips::Slip;

// Puts what is expected in place of the numbers of a line.
fn put_expected(page: &mut [u8], at: usize, count: usize) -> usize
    requires { at + 80 ≤ length page.old }
    ensures put { Put page.old page.new at result (expectation count) }
    ensures upper_bound { result ≤ at + 80 }
{
    match count {
        0 => text::put(page, at, b"expected nothing after close"),
        2 => text::put(page, at, b"expected two numbers of up to 9 digits"),
        _ => text::put(page, at, b"expected four numbers of up to 9 digits"),
    }
}

// Puts why a line is not taken.
#[tactic(auto, unfolding(crate::specs::Complaints::reason))]
fn put_reason(page: &mut [u8], at: usize, fault: Fault) -> usize
    requires { at + 80 ≤ length page.old }
    ensures put { Put page.old page.new at result (reason fault) }
    ensures upper_bound { result ≤ at + 80 }
{
    match fault {
        Fault::NoStrip => text::put(page, at, b"expected strip first"),
        Fault::SecondStrip => text::put(page, at, b"a second strip"),
        Fault::UnknownWord => text::put(page, at, b"expected strip, move, line or close"),
        Fault::NotNumbers(count) => put_expected(page, at, count),
        Fault::LongDrawing => text::put(page, at, b"the drawing is longer than 65,536 bytes"),
        Fault::LongText => text::put(page, at, b"the text is longer than 524,288 bytes"),
    }
}

// Puts what slip was seen and what to write, or else why the line is not taken.
#[tactic(auto, unfolding(crate::specs::Complaints::remark))]
fn put_said(page: &mut [u8], at: usize, slip: Option<Slip>, fault: Fault) -> usize
    requires { at + 80 ≤ length page.old }
    ensures put { Put page.old page.new at result (remark slip fault) }
    ensures upper_bound { result ≤ at + 80 }
{
    match slip {
        Some(Slip::Mark) => text::put(
            page,
            at,
            b"a byte-order mark before the first word; save the file without it",
        ),
        Some(Slip::Unseen) => text::put(
            page,
            at,
            b"a tab or a carriage return; words are parted by spaces",
        ),
        Some(Slip::Capital) => text::put(
            page,
            at,
            b"a capital letter; the words are strip, move, line and close",
        ),
        Some(Slip::Comma) => text::put(
            page,
            at,
            b"a comma in a number; write a point, or a space between two numbers",
        ),
        Some(Slip::PointLast) => text::put(
            page,
            at,
            b"a point with no digit after it; leave it out",
        ),
        Some(Slip::PointFirst) => text::put(
            page,
            at,
            b"a point with no digit before it; write a 0 there",
        ),
        Some(Slip::Plus) => text::put(page, at, b"a plus sign; leave it out"),
        Some(Slip::Exponent) => text::put(page, at, b"an e in a number; write out its digits"),
        None => put_reason(page, at, fault),
    }
}

// Puts why the line with this number, counted from 1, is not taken.
pub fn put(page: &mut [u8], text: &[u8], number: usize, fault: Fault) -> usize
    requires in_bounds { 128 ≤ length page.old }
    requires le_number { 1 ≤ number }
    ensures { Put page.old page.new 0 result (complaint text.now number fault) }
{
    let slip = slips::shown(text, number - 1, fault);
    let a = text::put(page, 0, b"line ");
    let b = text::put_natural(page, a, number as u64);
    let c = text::put(page, b, b": ");
    let d = put_said(page, c, slip, fault);
    text::put(page, d, b"\n")
}
