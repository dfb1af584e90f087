// A line of the pen's text: the record that it asks for, put on a page.
#![tactic(auto)]

ghost use Rattle.std.specs.Prelude.{◌+◌, ◌*◌, ◌≤◌, ◌≡◌, length};
ghost use Rattle.pen_line.specs.Lines.{words_end, spoken};
ghost use Rattle.pen_line.specs.Records.{LineTaken};
ghost use Rattle.pen_line.specs.Workers.{NumbersPut, AskedBy, RecordPut};

// The version of the drawing file, which is the first byte of the strip's record too.
const VERSION: u8 = 1;

// Why a line is not taken.
#[derive(Clone, Copy)]
pub enum Fault {
    NoStrip,
    SecondStrip,
    UnknownWord,
    // Not as many numbers, or something after them.
    NotNumbers(usize),
    LongDrawing,
    LongText,
}

// The record that a word asks for: its first byte, and how many numbers follow.
#[derive(Clone, Copy)]
struct Asked {
    first: u8,
    count: usize,
}

// Puts the numbers of a line from `from` on, and says whether they are as many as asked and nothing follows them.
fn put_numbers(line: &[u8], from: usize, count: usize, page: &mut [u8], at: usize) -> bool
    requires from_in_bounds { from ≤ length line.now }
    requires count_bound { count ≤ 4 }
    requires count_in_bounds { at + count * 4 ≤ length page.old }
    ensures { NumbersPut line.now from count page.old page.new at result }
{
    let mut end = from;
    for i in 0..count {
        let start = text::skip(line, end, b' ');
        end = text::find(line, start, b' ');
        let Some(bits) = decimal::read(&line[start..end]) else {
            return false;
        };
        text::put_bytes(page, at + i * 4, bits);
    }
    text::skip(line, end, b' ') == line.len()
}

// Puts a record, its first byte and the numbers of the line from `from` on, and says where it ends.
fn put_record(
    line: &[u8],
    from: usize,
    asked: Asked,
    page: &mut [u8],
    at: usize,
) -> Result<usize, Fault>
    requires from_in_bounds { from ≤ length line.now }
    requires count_bound { asked.count ≤ 4 }
    requires at_in_bounds { at ≤ length page.old }
    ensures { RecordPut line.now from asked.first asked.count page.old page.new at result }
{
    let next = at + 1 + asked.count * 4;
    if page.len() < next {
        return Err(Fault::LongDrawing);
    }
    page[at] = asked.first;
    if put_numbers(line, from, asked.count, page, at + 1) {
        return Ok(next);
    }
    Err(Fault::NotNumbers(asked.count))
}

// The record that a word asks for, if it asks for one.
fn asked_by(word: &[u8]) -> Option<Asked>
    ensures { AskedBy word.now result }
{
    let (first, count) = if check::same(word, b"strip") {
        (VERSION, 4)
    } else if check::same(word, b"move") {
        (b'M', 2)
    } else if check::same(word, b"line") {
        (b'L', 2)
    } else if check::same(word, b"close") {
        (b'Z', 0)
    } else {
        return None;
    };
    Some(Asked { first, count })
}

// Takes a line without its comment, and says where the drawing ends after it. The drawing starts at the place 4, behind room for the count of bytes.
fn take_words(line: &[u8], page: &mut [u8], at: usize) -> Result<usize, Fault>
    requires { (4 ≤ at) × (at ≤ length page.old) }
    ensures { LineTaken line.now page.old page.new at result }
{
    // Many lines have nothing but a comment, or not even that.
    if line.is_empty() {
        return Ok(at);
    }
    let start = text::skip(line, 0, b' ');
    let end = text::find(line, start, b' ');
    if end == start {
        return Ok(at);
    }
    let Some(asked) = asked_by(&line[start..end]) else {
        return Err(Fault::UnknownWord);
    };
    if asked.first == VERSION && at != 4 {
        return Err(Fault::SecondStrip);
    }
    if asked.first != VERSION && at == 4 {
        return Err(Fault::NoStrip);
    }
    put_record(line, end, asked, page, at)
}

// Where the words of a line end: at a comment, or at a carriage return that ends the line.
pub fn words_end(line: &[u8]) -> usize
    ensures value { result ≡ words_end line.now }
    ensures upper_bound { result ≤ length line.now }
{
    let end = text::find(line, 0, b'#');
    if end < line.len() {
        return end;
    }
    if line.ends_with(b"\r") {
        return end - 1;
    }
    end
}

// Takes a line: puts the record that it asks for, and says where the drawing ends after it, or why the line is not taken.
pub fn take_line(line: &[u8], page: &mut [u8], at: usize) -> Result<usize, Fault>
    requires { (4 ≤ at) × (at ≤ length page.old) }
    ensures { LineTaken (spoken line.now) page.old page.new at result }
{
    let end = words_end(line);
    take_words(&line[..end], page, at)
}
