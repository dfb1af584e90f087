// A strip book in its file, which is in hand: loaded from there, and saved.
#![tactic(auto)]

ghost use Rattle.std.specs.Prelude.{◌≡◌, ◌≤◌, IfOk, IfSome, length, take};
ghost use Rattle.bookkeeping.specs.Runs.{empty_book};
ghost use Rattle.book_text.specs.Texts.{Sound, book_text};
ghost use Rattle.storing.specs.Storing.{IsNewName, Understands};

use keeping::Told;

// What holds a book's text: the longest has some 5,000 bytes, and the proofs are content with more.
type Text = [u8; 40000];

// The names of a book's files: that of the new file, which is the book's own, so many bytes, and ".new".
#[derive(Clone, Copy)]
pub struct Names<'a> {
    pub new: &'a [u8],
    pub long: usize,
    ghost new_name: { IsNewName new.now long },
}

impl<'a> Names<'a> {
    // The name of the book's own file.
    pub fn file(self) -> &'a [u8]
        ensures { result.now ≡ take self.entry.long self.entry.new.now }
    {
        &self.new[..self.long]
    }
}

// Understands what was read of the book's file: one that is missing is the empty book. The error is the first line that is not a book's.
fn understand(held: Option<usize>, text: &[u8], table: &mut [i32]) -> Result<(), usize>
    requires held_in_bounds { IfSome held (λ count. count ≤ length text.now) }
    requires table_value { table.old ≡ empty_book }
    ensures { Understands text.now held result table.new }
{
    match held {
        Some(count) => book_text::read_book(&text[..count], table),
        None => Ok(()),
    }
}

// Tells which line of the book's file is not a book's.
fn tell_faulty(rt: &HostRuntime, file: &[u8], line: usize) {
    streams::tell(rt, file);
    streams::tell(rt, b": ");
    faults::tell(rt, line, b"; the file is left alone\n");
}

// Reads the book's file into an empty table: where this answers Ok, it is a book.
pub fn load(rt: &HostRuntime, file: &[u8], table: &mut [i32; 320]) -> Result<(), Told>
    requires { table.old ≡ empty_book }
    ensures { IfOk result (λ _. Sound table.new) }
{
    let mut text: Text = [0u8; 40000];
    let held = keeping::read(rt, file, &mut text)?;
    if let Err(line) = understand(held, &text, table) {
        tell_faulty(rt, file, line);
        return Err(Told);
    }
    Ok(())
}

// Keeps the text of a table in the book's file, which is in hand. It is a sound book's, so it will be read back as that book (`ReadsBack` of book_text).
fn keep_text(rt: &HostRuntime, names: Names, table: &[i32; 320], text: &[u8]) -> Result<(), Told>
    requires sound { Sound table.now }
    requires text_value { text.now ≡ book_text table.now }
{
    keeping::keep(rt, names.new, names.long, text)
}

// Keeps a table in the book's file.
pub fn save(rt: &HostRuntime, names: Names, table: &[i32; 320]) -> Result<(), Told>
    requires { Sound table.now }
{
    let mut text: Text = [0u8; 40000];
    let end = book_text::put_book(&mut text, table);
    keep_text(rt, names, table, &text[..end])
}
