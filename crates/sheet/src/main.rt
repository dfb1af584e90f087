// Reads the text of a strip book on standard input, and writes the sheet as an SVG: the table with the booked strips of both renters.
#![tactic(auto)]

ghost use Rattle.std.specs.Prelude.{◌≡◌, ◌≤◌, length};
ghost use Rattle.bookkeeping.specs.Runs.{empty_book};
ghost use Rattle.sheet.specs.Sheets.{Draws};

// Draws the book that a text is, and says where its sheet ends on the page. The error is the first line at which the text is not a strip book's.
fn draw(text: &[u8], page: &mut [u8]) -> Result<usize, usize>
    requires { 35000 ≤ length page.old }
    ensures { Draws text.now page.new result }
{
    let mut table = [0i32; 320];
    match book_text::read_book(text, &mut table) {
        Ok(()) => Ok(sheet_art::put_sheet(page, &table)),
        Err(line) => Err(line),
    }
}

// Reads, draws and writes, in the memory that main lends.
fn run(rt: &HostRuntime, text: &mut [u8], page: &mut [u8])
    requires { 35000 ≤ length page.old }
{
    let Some(count) = streams::read_all(rt, text) else {
        return;
    };
    match draw(&text[..count], page) {
        Ok(end) => {
            streams::write(rt, &page[..end]);
        }
        Err(line) => faults::tell(rt, line, b"\n"),
    }
}

fn main(rt: HostRuntime) {
    // More than the text of any book has.
    let mut text = [0u8; 40000];
    let mut page = [0u8; 35000];
    run(&rt, &mut text, &mut page);
}
