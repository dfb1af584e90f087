// The bookkeeper's commands that change a strip book: each is one call on the table, and its answer is put on a page.
#![tactic(auto)]

ghost use Rattle.std.specs.Prelude.{◌≡◌, ◌≤◌, length};
ghost use Rattle.answers.specs.Answers.{Answers};
ghost use Rattle.clerk.specs.Commands.{BooksOnGrid, BooksAs, ReleasesAs, SlotOf};

use answers::Reply;
use grid::Window;
use intake::WindowMm;

// Books a strip that is on the grid.
fn book_on_grid(table: &mut [i32], renter: i32, w: Window, page: &mut [u8]) -> Reply
    requires value { 320 ≡ length table.old }
    requires in_bounds { 1000 ≤ length page.old }
    ensures { Answers (BooksOnGrid renter w table.old table.new) page.new result }
{
    // The answer is that of the C interface: its number is 0 where the strip is booked.
    let a = strip_book::book_strip(table, renter, w);
    if a.number != 0 {
        return answers::refuse_strip(page, a.number, a.place, w);
    }
    let k = strip_book::first_slot(renter) + (a.slot as usize);
    let end = strip_lines::put_row(page, 0, k, w);
    Reply { end, number: 0 }
}

// Books a strip in the lowest free slot of the renter, and answers its row.
// Its statement is `BooksAs`, specs/Commands.antt.
pub fn book(table: &mut [i32], renter: i32, mm: WindowMm, page: &mut [u8]) -> Reply
    requires value { 320 ≡ length table.old }
    requires in_bounds { 1000 ≤ length page.old }
    ensures { Answers (BooksAs renter mm table.old table.new) page.new result }
{
    match intake::window_on_grid(mm) {
        Ok(w) => book_on_grid(table, renter, w, page),
        Err(refusal) => answers::refuse(page, refusal.number, refusal.place),
    }
}

// The table's slot that is this slot of the renter's; the first of all where he has none of that number, since then nothing is released.
fn slot_of(renter: i32, slot: i32) -> usize
    ensures { SlotOf renter slot result }
{
    if !strip_book::is_renter(renter) || !(0..32).contains(&slot) {
        return 0;
    }
    strip_book::first_slot(renter) + (slot as usize)
}

// Releases a slot of the renter's, and answers the row of the strip that was in it, which is read before it is gone.
// Its statement is `ReleasesAs`, specs/Commands.antt.
pub fn release(table: &mut [i32], renter: i32, slot: i32, page: &mut [u8]) -> Reply
    requires value { 320 ≡ length table.old }
    requires in_bounds { 1000 ≤ length page.old }
    ensures { Answers (ReleasesAs renter slot table.old table.new) page.new result }
{
    let k = slot_of(renter, slot);
    let w = slots::strip_at(table, 5 * k);
    let a = strip_book::release_slot(table, renter, slot);
    // The answer is that of the C interface: its number is 0 where the slot is released.
    if a.number != 0 {
        return answers::refuse(page, a.number, a.place);
    }
    let end = strip_lines::put_row(page, 0, k, w);
    Reply { end, number: 0 }
}
