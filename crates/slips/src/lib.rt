// What a line of the pen's text that is not taken may have meant: the slips of the hand that are known.
#![tactic(auto)]

ghost use Rattle.std.specs.Prelude.{◌≡◌, ◌≤◌, length, get_or};
ghost use Rattle.pen_line.specs.Lines.{spoken};
ghost use Rattle.slips.specs.Slips.{has_mark, unseen, is_capital, of_digits, of_plain, of_number, of_numbers, of_line};
ghost use Rattle.slips.specs.Texts.{line_after, slip_for};

use pen_line::Fault;

// A slip that the answer names.
#[derive(Clone, Copy)]
pub enum Slip {
    // A byte-order mark before the first word.
    Mark,
    // A tab, or a carriage return that does not end the line.
    Unseen,
    // A first word that starts with a capital letter.
    Capital,
    // The others are in a number: a comma, a point with no digit after it or before it, a plus sign, an e.
    Comma,
    PointLast,
    PointFirst,
    Plus,
    Exponent,
}

// Whether a line starts with a byte-order mark.
fn marked(line: &[u8]) -> bool
    ensures { result ≡ has_mark line.now }
{
    line.starts_with(&[0xEF, 0xBB, 0xBF])
}

// Whether something stands in a line that looks like a space, or like nothing.
fn unseen(line: &[u8]) -> bool
    ensures { result ≡ unseen line.now }
{
    text::has(line, b'\t') || text::has(line, b'\r')
}

// Whether a text starts with a capital letter.
fn is_capital(text: &[u8]) -> bool
    ensures { result ≡ is_capital (get_or text.now 0 0) }
{
    match text.first() {
        Some(first) => first.is_ascii_uppercase(),
        None => false,
    }
}

// The slip in a number that starts with a digit.
fn of_digits(word: &[u8]) -> Option<Slip>
    ensures { result ≡ of_digits word.now }
{
    if text::has(word, b'e') || text::has(word, b'E') {
        return Some(Slip::Exponent);
    }
    None
}

// The slip in a number without its minus.
fn of_plain(word: &[u8]) -> Option<Slip>
    ensures { result ≡ of_plain word.now }
{
    if text::has(word, b',') {
        return Some(Slip::Comma);
    }
    if word.ends_with(b".") {
        return Some(Slip::PointLast);
    }
    let first = *word.first()?;
    match first {
        b'.' => Some(Slip::PointFirst),
        b'+' => Some(Slip::Plus),
        _ if decimal::is_digit(first) => of_digits(word),
        _ => None,
    }
}

// The slip in a word that should be a number.
fn of_number(word: &[u8]) -> Option<Slip>
    ensures { result ≡ of_number word.now }
{
    let from = text::skip(word, 0, b'-');
    of_plain(&word[from..])
}

// The first slip in the next `count` words of a line from `from` on, which should be numbers.
fn of_numbers(line: &[u8], from: usize, count: usize) -> Option<Slip>
    requires { from ≤ length line.now }
    ensures { result ≡ of_numbers line.now from count }
{
    let mut end = from;
    for _ in 0..count {
        let start = text::skip(line, end, b' ');
        end = text::find(line, start, b' ');
        if let Some(slip) = of_number(&line[start..end]) {
            return Some(slip);
        }
    }
    None
}

// The slip in a line without its comment, whose first word should be followed by `count` numbers.
fn of_words(line: &[u8], count: usize) -> Option<Slip>
    ensures { result ≡ of_line line.now count }
{
    if marked(line) {
        return Some(Slip::Mark);
    }
    if unseen(line) {
        return Some(Slip::Unseen);
    }
    let start = text::skip(line, 0, b' ');
    if is_capital(&line[start..]) {
        return Some(Slip::Capital);
    }
    let end = text::find(line, start, b' ');
    of_numbers(line, end, count)
}

// The same for a line with its comment, which does not count.
fn seen(line: &[u8], count: usize) -> Option<Slip>
    ensures { result ≡ of_line (spoken line.now) count }
{
    let end = pen_line::words_end(line);
    of_words(&line[..end], count)
}

// The line of a text that so many lines stand before; nothing where there are fewer.
fn line_after(text: &[u8], before: usize) -> &[u8]
    ensures { result.now ≡ line_after before text.now }
{
    let mut from = 0;
    for _ in 0..before {
        let end = text::find(text, from, b'\n');
        if end == text.len() {
            return &text[end..];
        }
        from = end + 1;
    }
    let end = text::find(text, from, b'\n');
    &text[from..end]
}

// The slip to tell: only where a word is wrong may it have been meant otherwise.
fn slip_for(line: &[u8], fault: Fault) -> Option<Slip>
    ensures { result ≡ slip_for line.now fault }
{
    match fault {
        Fault::UnknownWord => seen(line, 0),
        Fault::NotNumbers(count) => seen(line, count),
        _ => None,
    }
}

// The slip in the line of a text that so many lines stand before, where the fault says why it is not taken.
pub fn shown(text: &[u8], before: usize, fault: Fault) -> Option<Slip>
    ensures { result ≡ slip_for (line_after before text.now) fault }
{
    slip_for(line_after(text, before), fault)
}
