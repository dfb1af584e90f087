// A renter's own strips: for each, in slot order, its slot and its four numbers, into a lent output.
#![tactic(auto)]

ghost use Rattle.std.specs.Prelude.{◌≡◌, List, ℕ, ◌+◌, ◌≤◌, ℤ, length};
ghost use Rattle.std.proofs.Math.Seq.{slice};
ghost use Rattle.grid.specs.Calls.{written};
ghost use Rattle.grid.specs.Refusals.{room_refusal, tested};
ghost use Rattle.slots.specs.Slots.{slots_of};
ghost use Rattle.own_strips.specs.OwnStrips.{listed_from, ListStrips, listing_answer};
ghost use Rattle.own_strips.specs.Rows.{Rows, Writes};

use grid::{Answer, Refusal};
use strip_book::Renter;

// How many numbers the listing of the 32 slots from one on has.
pub fn count_listed(book: &[i32], from: usize) -> usize
    requires from_bound { from ≤ 32 }
    requires book_len { length book.now ≡ 320 }
    ensures { result ≡ length (listed_from 0 (slice from (from + 32) (slots_of book.now))) }
{
    let mut needed = 0;
    for k in 0..32 {
        if slots::in_use(book, from + k) {
            needed += 5;
        }
    }
    needed
}

// Goes on with a listing, of which the rows of the slots before k are written, `at` numbers, where the mark of the slot k stands at the place p:
// writes its row, if it is in use, and tells how many numbers there are then. A row is put as a slot is: its number where the mark stands, then the
// strip.
fn write_slot(book: &[i32], p: usize, k: usize, out: &mut [i32], at: usize) -> usize
    requires k_bound { k + 1 ≤ 32 }
    requires book_len { length book.now ≡ 320 }
    requires by_index { (from : ℕ) × (lent : List ℤ) × Rows from book.now p k at lent out.old }
    ensures { Writes book.now p k at out.old (p + 5) (k + 1) result out.new }
{
    if book[p] != 1 {
        return at;
    }
    slots::put_at(out, at, k as u8, slots::strip_at(book, p));
    at + 5
}

// Writes that listing, for which there is room, and tells how many numbers it has.
fn write_listed(book: &[i32], from: usize, out: &mut [i32]) -> usize
    requires from_bound { from ≤ 32 }
    requires book_len { length book.now ≡ 320 }
    requires book_in_bounds { length (listed_from 0 (slice from (from + 32) (slots_of book.now))) ≤ length out.old }
    ensures value { result ≡ length (listed_from 0 (slice from (from + 32) (slots_of book.now))) }
    ensures out_after { out.new ≡ written (listed_from 0 (slice from (from + 32) (slots_of book.now))) out.old }
{
    let mut at = 0;
    for k in 0..32 {
        at = write_slot(book, 5 * (from + k), k, out, at);
    }
    at
}

// Tests whether there is room for that listing. Its numbers are counted only where the room may be too little.
fn test_room(book: &[i32], from: usize, room: usize) -> Result<(), Refusal>
    requires from_bound { from ≤ 32 }
    requires book_len { length book.now ≡ 320 }
    ensures { result ≡ tested (room_refusal (length (listed_from 0 (slice from (from + 32) (slots_of book.now)))) room) }
{
    if 160 <= room {
        return Ok(());
    }
    grid::test_room(count_listed(book, from), room)
}

// Lists the strips of the renter's half of a book, and tells how many numbers it has written.
fn list_half(book: &[i32], renter: i32, out: &mut [i32]) -> Result<usize, Refusal>
    ensures { ListStrips renter book.now (listing_answer result) out.old out.new }
{
    let from = Renter::try_from(renter)?.first_slot();
    let mut rack = [racks::VACANT; 288];
    slots::test_book(book, &mut rack).ok_or(strip_book::refused(strip_book::NO_BOOK))?;
    test_room(book, from, out.len())?;
    Ok(write_listed(book, from, out))
}

// Lists the strips of the renter's half of a book; the other's strips are not told.
// Its statement is `ListStrips`, specs/OwnStrips.antt.
pub fn list_strips(book: &[i32], renter: i32, out: &mut [i32]) -> Answer
    ensures { ListStrips renter book.now result out.old out.new }
{
    match list_half(book, renter, out) {
        Ok(count) => Answer {
            number: 0,
            place: 0,
            count,
        },
        Err(refusal) => grid::refused_by(refusal),
    }
}
