// The way in by hand: reads lines of text from standard input, and writes the drawing that they tell to standard output.
#![tactic(auto)]

ghost use Rattle.std.specs.Prelude.{◌+◌, ◌≤◌, ◌≡◌, length};
ghost use Rattle.pen.specs.Texts.{most_text, Becomes};
ghost use Rattle.pen.specs.Workers.{Counted};

use pen_line::Fault;

// The longest text that is taken; a line end may follow it.
const MOST_TEXT: usize = 524288;

// What became of a text: that of its last line, and which line it is.
#[derive(Drop)]
struct Outcome {
    line: usize,
    step: Result<usize, Fault>,
}

// Puts the count of the bytes that follow it before a drawing.
fn put_length(page: &mut [u8], at: usize) -> Result<usize, Fault>
    requires { (4 ≤ at) × (at ≤ length page.old) × (length page.old ≤ 65536) }
    ensures { Counted page.old page.new at result }
{
    if at == 4 {
        return Err(Fault::NoStrip);
    }
    text::put_bytes(page, 0, (at - 4) as u32);
    Ok(at)
}

// Draws a text into a page, line by line.
fn draw(text: &[u8], page: &mut [u8]) -> Outcome
    requires { (4 ≤ length page.old) × (length page.old ≤ 65536) }
    ensures { Becomes text.now page.new result }
{
    let mut at: usize = 4;
    let mut line: usize = 1;
    let mut from = 0;
    // A while: a line is as long as it is, so that no range has the places where lines start.
    while from < text.len() {
        let end = text::find(text, from, b'\n');
        if MOST_TEXT < end {
            return Outcome {
                line,
                step: Err(Fault::LongText),
            };
        }
        match pen_line::take_line(&text[from..end], page, at) {
            Ok(next) => {
                at = next;
            }
            Err(fault) => {
                return Outcome {
                    line,
                    step: Err(fault),
                };
            }
        }
        from = end + 1;
        line += 1;
    }
    Outcome {
        line,
        step: put_length(page, at),
    }
}

// Says why a line of a text is not taken.
fn complain(rt: &HostRuntime, text: &[u8], line: usize, fault: Fault)
    requires { 1 ≤ line }
{
    let mut words = [0u8; 128];
    let end = complaints::put(&mut words, text, line, fault);
    streams::tell(rt, &words[..end]);
}

// Draws the text on standard input into a page, and writes the page, or why a line is not taken. There is room for a byte
// more than a text and its line end may have, so that a longer text is seen to be longer.
fn run(rt: &HostRuntime, text: &mut [u8], page: &mut [u8])
    requires most_text_value { most_text + 2 ≡ length text.old }
    requires value { 65536 ≡ length page.old }
{
    let Some(count) = streams::read_all(rt, text) else {
        return;
    };
    let outcome = draw(&text[..count], page);
    match outcome.step {
        Ok(length) => {
            streams::write(rt, &page[..length]);
        }
        Err(fault) => complain(rt, &text[..count], outcome.line, fault),
    }
}

fn main(rt: HostRuntime) {
    let mut text = [0u8; 524290];
    let mut page = [0u8; 65536];
    run(&rt, &mut text, &mut page);
}
