// The bookkeeper's commands that only look at a strip book: the rows of its strips are put on a page.
#![tactic(auto)]

ghost use Rattle.std.specs.Prelude.{◌≡◌, ◌≤◌, length};
ghost use Rattle.std.proofs.Math.Seq.{slice};
ghost use Rattle.slots.specs.Slots.{slots_of};
ghost use Rattle.strip_book.specs.Books.{renter_refusal};
ghost use Rattle.book_rows.specs.Rows.{rows_text};
ghost use Rattle.answers.specs.Answers.{Exactly, Answers};
ghost use Rattle.lister.specs.Listings.{or_none, strips_text, show_text};

use answers::Reply;

// Answers the rows of the slots from one up to another.
fn list(table: &[i32], from: usize, to: usize, page: &mut [u8]) -> Reply
    requires from_le_to { from ≤ to }
    requires to_bound { to ≤ 64 }
    requires value { 320 ≡ length table.now }
    requires in_bounds { 40000 ≤ length page.old }
    ensures { Answers (Exactly (or_none (rows_text from (slice from to (slots_of table.now)))) 0) page.new result }
{
    let rows = book_rows::put_rows(page, 0, table, from, to);
    if rows == 0 {
        let end = text::put(page, 0, b"none\n");
        return Reply { end, number: 0 };
    }
    Reply {
        end: rows,
        number: 0,
    }
}

// Answers the rows of the renter's strips.
// Its statement is `strips_text`, specs/Listings.antt.
pub fn strips(table: &[i32], renter: i32, page: &mut [u8]) -> Reply
    requires value { 320 ≡ length table.now }
    requires in_bounds { 40000 ≤ length page.old }
    ensures { Answers (Exactly (strips_text renter table.now) (renter_refusal renter).number) page.new result }
{
    if !strip_book::is_renter(renter) {
        return answers::refuse(page, strip_book::UNKNOWN_RENTER, 0);
    }
    let from = strip_book::first_slot(renter);
    list(table, from, from + 32, page)
}

// Answers the rows of all strips.
// Its statement is `show_text`, specs/Listings.antt.
pub fn show(table: &[i32], page: &mut [u8]) -> Reply
    requires value { 320 ≡ length table.now }
    requires in_bounds { 40000 ≤ length page.old }
    ensures { Answers (Exactly (show_text table.now) 0) page.new result }
{
    list(table, 0, 64, page)
}
