// A sitting of the bookkeeper: the book is taken in hand and read from its file, his lines are answered, and a book that a line has changed is on disk
// before that line's answer is written.
#![tactic(auto)]

ghost use Rattle.std.specs.Prelude.{◌≡◌, ◌≤◌, length};
ghost use Rattle.book_text.specs.Texts.{Sound};
ghost use Rattle.counter.specs.Serving.{Serves};
ghost use Rattle.sittings.specs.Sittings.{line_of};

use counter::{Outcome, Service};
use input::{Chunk, Line};
use keeping::Told;
use storing::Names;

// The answer to one line.
pub type Page = [u8; 40000];

// The memory of a sitting, which the caller lends, wherever it has it: what is read at a time, a line, and its answer.
#[derive(Drop)]
pub struct Room<'a> {
    pub chunk: &'a mut Chunk,
    pub line: &'a mut Line,
    pub page: &'a mut Page,
}

// How many lines a sitting may have: a proved loop has to end, so it has a number of turns that no run reaches.
const MOST_LINES: u64 = 0x4000_0000_0000_0000;

// Answers a line. One that is too long is no order.
fn answer(line: &[u8], table: &mut [i32], page: &mut [u8]) -> Service
    requires value { 320 ≡ length table.old }
    requires in_bounds { 40000 ≤ length page.old }
    ensures serves { Serves (line_of line.now (length line.now)) table.old table.new page.new result }
    ensures end_in_bounds { result.end ≤ length page.new }
{
    if line.len() == 400001 {
        return counter::serve(b"too long", table, page);
    }
    counter::serve(line, table, page)
}

// Writes the answer to a line: where the line has changed the table, that is kept before.
fn put_out(
    rt: &HostRuntime,
    names: Names,
    service: Service,
    table: &[i32; 320],
    page: &Page,
) -> Result<(), Told>
    requires sound { Sound table.now }
    requires end_in_bounds { service.end ≤ length page.now }
{
    if service.outcome == Outcome::Changed {
        storing::save(rt, names, table)?;
    }
    if streams::write(rt, &page[..service.end]) {
        Ok(())
    } else {
        Err(Told)
    }
}

// Answers the lines of standard input one after another, and says whether one was refused. It ends with the input, or where something failed.
fn sit(rt: &HostRuntime, names: Names, room: Room, table: &mut [i32; 320]) -> bool
    requires { Sound table.old }
{
    let Room { chunk, line, page } = room;
    let mut source = input::start();
    let mut refused = false;
    for _ in 0..MOST_LINES {
        source = input::next_line(rt, chunk, line, source);
        let Some(have) = source.whole() else {
            break;
        };
        let service = answer(&line[..have], table, page);
        if service.outcome == Outcome::Refused {
            refused = true;
        }
        if put_out(rt, names, service, table, page).is_err() {
            break;
        }
    }
    refused
}

// The sitting, with the book in hand.
fn hold(rt: &HostRuntime, names: Names, room: Room) -> Result<(), Told> {
    keeping::test_own(rt, names.file())?;
    keeping::test_clear(rt, names.new)?;
    let mut table = [0i32; 320];
    storing::load(rt, names.file(), &mut table)?;
    if sit(rt, names, room, &mut table) {
        streams::tell(rt, b"not every line was done: its answer says why\n");
    }
    Ok(())
}

// Takes the book in hand, holds the sitting, and lets the book go. The names are lent: that of the file which says that the book is in hand, and those
// of the book's own files.
pub fn keep_book(rt: &HostRuntime, busy: &[u8], names: Names, room: Room) {
    let Ok(held) = keeping::take(rt, busy) else {
        return;
    };
    // What ended it before its time is told already.
    let _ = hold(rt, names, room);
    keeping::leave(rt, busy, held);
}
