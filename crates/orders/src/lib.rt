// A line of the bookkeeper's text, read as an order to the strip book.
#![tactic(auto)]

ghost use Rattle.std.specs.Prelude.{◌≡◌, ◌≤◌, eqb, length};
ghost use Rattle.std.specs.Option.{ok_or};
ghost use Rattle.text.specs.Pages.{ascii};
ghost use Rattle.pen_line.specs.Lines.{start_of, spoken};
ghost use Rattle.orders.specs.Orders.{Orders};
ghost use Rattle.orders.specs.Workers.{NextWord, Begins, WholeFrom, LengthFrom, Names};

use intake::WindowMm;

// Whose words are wrong: a line's first word, or those after a command.
#[derive(Clone, Copy, Debug, PartialEq, Eq)]
pub enum Fault {
    Word,
    Book,
    Release,
    Strips,
    Show,
}

// What a line orders. Book has the renter and the strip, Release the renter and the slot, Strips the renter.
#[derive(Clone, Copy)]
pub enum Order {
    Blank,
    Book(i32, WindowMm),
    Release(i32, i32),
    Strips(i32),
    Show,
}

// The command that a word is.
#[derive(Clone, Copy)]
enum Command {
    Book,
    Release,
    Strips,
    Show,
}

// Where the next word from `from` on starts, and where it ends.
fn next_word(line: &[u8], from: usize) -> (usize, usize)
    requires { from ≤ length line.now }
    ensures { NextWord line.now from result.0 result.1 }
{
    let start = text::skip(line, from, b' ');
    (start, text::find(line, start, b' '))
}

// Reads the next word from `from` on as a whole number, and says where it ends.
fn whole_from(line: &[u8], from: usize) -> Option<(i32, usize)>
    requires { from ≤ length line.now }
    ensures { WholeFrom line.now from result }
{
    let (start, end) = next_word(line, from);
    let number = words::read_integer(&line[start..end])?;
    Some((number, end))
}

// Reads the next word from `from` on as a number of millimetres, and says where it ends.
fn length_from(line: &[u8], from: usize) -> Option<(f32, usize)>
    requires { from ≤ length line.now }
    ensures { LengthFrom line.now from result }
{
    let (start, end) = next_word(line, from);
    let bits = decimal::read(&line[start..end])?;
    Some((words::from_bits(bits), end))
}

// Whether no word follows the place `from`.
fn over(line: &[u8], from: usize) -> bool
    requires { from ≤ length line.now }
    ensures { result ≡ eqb (start_of line.now from) (length line.now) }
{
    text::skip(line, from, b' ') == line.len()
}

// Reads what follows the word book.
fn read_booking(line: &[u8], from: usize) -> Option<Order>
    requires { Begins line.now (ascii "book") from }
    ensures { Orders line.now (ok_or result Fault.Book) }
{
    let (renter, a) = whole_from(line, from)?;
    let (left, b) = length_from(line, a)?;
    let (bottom, c) = length_from(line, b)?;
    let (right, d) = length_from(line, c)?;
    let (top, e) = length_from(line, d)?;
    if !over(line, e) {
        return None;
    }
    let strip = WindowMm {
        left,
        bottom,
        right,
        top,
    };
    Some(Order::Book(renter, strip))
}

// Reads what follows the word release.
fn read_release(line: &[u8], from: usize) -> Option<Order>
    requires { Begins line.now (ascii "release") from }
    ensures { Orders line.now (ok_or result Fault.Release) }
{
    let (renter, a) = whole_from(line, from)?;
    let (slot, b) = whole_from(line, a)?;
    if !over(line, b) {
        return None;
    }
    Some(Order::Release(renter, slot))
}

// Reads what follows the word strips.
fn read_strips(line: &[u8], from: usize) -> Option<Order>
    requires { Begins line.now (ascii "strips") from }
    ensures { Orders line.now (ok_or result Fault.Strips) }
{
    let (renter, a) = whole_from(line, from)?;
    if !over(line, a) {
        return None;
    }
    Some(Order::Strips(renter))
}

// Reads what follows the word show.
fn read_show(line: &[u8], from: usize) -> Option<Order>
    requires { Begins line.now (ascii "show") from }
    ensures { Orders line.now (ok_or result Fault.Show) }
{
    if !over(line, from) {
        return None;
    }
    Some(Order::Show)
}

// The command that a word is, if it is one.
fn command_of(word: &[u8]) -> Option<Command>
    ensures { Names word.now result }
{
    if word == b"book".as_slice() {
        return Some(Command::Book);
    }
    if word == b"release".as_slice() {
        return Some(Command::Release);
    }
    if word == b"strips".as_slice() {
        return Some(Command::Strips);
    }
    if word == b"show".as_slice() {
        return Some(Command::Show);
    }
    None
}

// Reads a line without its comment.
fn read_words(line: &[u8]) -> Result<Order, Fault>
    ensures { Orders line.now result }
{
    let (start, end) = next_word(line, 0);
    if end == start {
        return Ok(Order::Blank);
    }
    match command_of(&line[start..end]) {
        Some(Command::Book) => read_booking(line, end).ok_or(Fault::Book),
        Some(Command::Release) => read_release(line, end).ok_or(Fault::Release),
        Some(Command::Strips) => read_strips(line, end).ok_or(Fault::Strips),
        Some(Command::Show) => read_show(line, end).ok_or(Fault::Show),
        None => Err(Fault::Word),
    }
}

// Reads a line.
pub fn read(line: &[u8]) -> Result<Order, Fault>
    ensures { Orders (spoken line.now) result }
{
    let end = pen_line::words_end(line);
    read_words(&line[..end])
}
