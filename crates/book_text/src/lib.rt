// A strip book as text, which a person can read and a file can hold: it is put on a page, and read back.
#![tactic(auto)]

ghost use Rattle.std.specs.Prelude.{◌≡◌, ◌≤◌, ◌<◌, length};
ghost use Rattle.text.specs.Pages.{Put};
ghost use Rattle.slots.specs.Slots.{is_book};
ghost use Rattle.bookkeeping.specs.Runs.{empty_book};
ghost use Rattle.book_text.specs.Texts.{book_text, with_strip};
ghost use Rattle.book_text.specs.Readings.{ReadsAs};
ghost use Rattle.book_text.specs.Workers.{EndsAs};

use grid::Window;
// The first line of a book's text, and the last.
const HEAD: &[u8] = b"strip book 1: renter, slot, left bottom right top in 1/32 mm = in mm\n";

const END: &[u8] = b"end\n";

// Puts the text of a book.
pub fn put_book(page: &mut [u8], book: &[i32]) -> usize
    requires book_len { length book.now ≡ 320 }
    requires in_bounds { 37200 ≤ length page.old }
    ensures { Put page.old page.new 0 result (book_text book.now) }
{
    let a = text::put(page, 0, HEAD);
    let b = book_rows::put_rows(page, a, book, 0, 64);
    text::put(page, b, END)
}

// Tests a text that has no strip's line at a place: it is a book's if the last line stands there and nothing behind it. If something does, the last
// line itself is not at fault, but the one after it.
fn test_end(text: &[u8], at: usize, line: usize) -> Result<(), usize>
    requires at_in_bounds { at ≤ length text.now }
    requires line_bound { line ≤ 66 }
    ensures { EndsAs text.now at line result }
{
    let Some(behind) = text[at..].strip_prefix(END) else {
        return Err(line);
    };
    if !behind.is_empty() {
        return Err(line + 1);
    }
    Ok(())
}

// Puts a strip in the slot k, and says whether the table is a book then.
fn enter(book: &mut [i32], k: usize, w: Window) -> bool
    requires k_bound { k < 64 }
    requires book_len { length book.old ≡ 320 }
    ensures book_after { book.new ≡ with_strip book.old k w }
    ensures value { result ≡ is_book book.new }
{
    slots::put(book, k, 1, w);
    let mut rack = [racks::VACANT; 288];
    slots::test_book(book, &mut rack).is_some()
}

// Reads a text into an empty table: each line puts its strip in its slot, which comes after those of the lines before it, and leaves a book. The error
// is the first line at which the text goes on as no book's does.
pub fn read_book(text: &[u8], book: &mut [i32]) -> Result<(), usize>
    requires { book.old ≡ empty_book }
    ensures { ReadsAs text.now result book.new }
{
    if !text.starts_with(HEAD) {
        return Err(1);
    }
    let mut at = HEAD.len();
    let mut line: usize = 2;
    let mut next: usize = 0;
    // A while: where a line begins is known when the one before it has been read.
    while at < text.len() {
        let Some(row) = row_reading::row_at(text, at) else {
            return test_end(text, at, line);
        };
        if row.slot < next {
            return Err(line);
        }
        if !enter(book, row.slot, row.strip) {
            return Err(line);
        }
        at = row.end;
        next = row.slot + 1;
        line += 1;
    }
    Err(line)
}
