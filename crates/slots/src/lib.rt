// The slots of a strip book: whether a table is a book, which slot is free, and what is put in a slot.
#![tactic(auto)]

ghost use Rattle.std.specs.Prelude.{◌≡◌, [], ◌+◌, ◌*◌, ◌≤◌, ◌<◌, length};
ghost use Rattle.std.proofs.lemmas.List.Edits.{sets};
ghost use Rattle.std.proofs.Math.Seq.{slice};
ghost use Rattle.racks.specs.Racks.{Carries};
ghost use Rattle.slots.specs.Slots.{slots_of, slot_of, slot_at, in_use, lowest_free, slot_numbers};
ghost use Rattle.slots.specs.Workers.{strip_in, slots_from, Gathered, Gathers, BookTest};

use grid::Window;

// The strip of the slot whose mark stands at the place p.
pub fn strip_at(book: &[i32], p: usize) -> Window
    requires { p + 5 ≤ length book.now }
    ensures { result ≡ strip_in book.now p }
{
    Window {
        left: book[p + 1],
        bottom: book[p + 2],
        right: book[p + 3],
        top: book[p + 4],
    }
}

// Tests the slot whose mark stands at the place p and puts its strip on the rack, where the n strips of the slots behind it are, and tells how many
// are there then; None where the slot is faulty. Whether the mark is 1 is asked last: the compiler then leaves the mark in memory, so that a free
// slot costs one comparison.
fn gather_slot(book: &[i32], p: usize, rack: &mut [i16; 288], n: usize) -> Option<usize>
    requires p_bound { p + 5 ≤ 320 }
    requires book_len { length book.now ≡ 320 }
    requires gathered { Gathered (slots_from (p + 5) book.now) n rack.old }
    ensures { Gathers (slots_from p book.now) result rack.new }
{
    if book[p] == 0 {
        return Some(n);
    }
    let w = strip_at(book, p);
    if grid::test_window(w).is_err() {
        return None;
    }
    racks::put(rack, n, w);
    if book[p] != 1 {
        return None;
    }
    Some(n + 1)
}

// The same with the eight slots from the place p on, the last of them first. They are written out: in a loop a free slot costs two instructions more.
fn gather_eight(book: &[i32], p: usize, rack: &mut [i16; 288], n: usize) -> Option<usize>
    requires p_bound { p + 40 ≤ 320 }
    requires book_len { length book.now ≡ 320 }
    requires gathered { Gathered (slots_from (p + 40) book.now) n rack.old }
    ensures { Gathers (slots_from p book.now) result rack.new }
{
    let from7 = gather_slot(book, p + 35, rack, n)?;
    let from6 = gather_slot(book, p + 30, rack, from7)?;
    let from5 = gather_slot(book, p + 25, rack, from6)?;
    let from4 = gather_slot(book, p + 20, rack, from5)?;
    let from3 = gather_slot(book, p + 15, rack, from4)?;
    let from2 = gather_slot(book, p + 10, rack, from3)?;
    let from1 = gather_slot(book, p + 5, rack, from2)?;
    gather_slot(book, p, rack, from1)
}

// Tests the marks and the strips of all slots, from the last to the first, and puts the strips on a rack, on which there is none before. It tells
// how many there are; None where a slot is faulty.
fn gather(book: &[i32], rack: &mut [i16; 288]) -> Option<usize>
    requires book_len { length book.now ≡ 320 }
    requires carries { Carries rack.old [] }
    ensures { Gathers (slots_of book.now) result rack.new }
{
    let mut n = 0;
    for behind in 0..8 {
        n = gather_eight(book, 280 - 40 * behind, rack, n)?;
    }
    Some(n)
}

// How many strips a book has, which are then on a rack, on which there is none before; None where the table is no book.
pub fn test_book(book: &[i32], rack: &mut [i16; 288]) -> Option<usize>
    requires { Carries rack.old [] }
    ensures { BookTest book.now result rack.new }
{
    if book.len() != 320 {
        return None;
    }
    let n = gather(book, rack)?;
    if racks::crowded(rack, n) {
        return None;
    }
    Some(n)
}

// Whether the slot k is in use.
pub fn in_use(book: &[i32], k: usize) -> bool
    requires k_bound { k < 64 }
    requires book_len { length book.now ≡ 320 }
    ensures { result ≡ in_use (slot_at book.now k) }
{
    book[5 * k] == 1
}

// Of the slots from one up to another the first that is not in use; the other, where all are.
pub fn lowest_free(book: &[i32], from: usize, to: usize) -> usize
    requires from_le_to { from ≤ to }
    requires to_bound { to ≤ 64 }
    requires book_len { length book.now ≡ 320 }
    ensures { result ≡ from + lowest_free (slice from to (slots_of book.now)) }
{
    for k in from..to {
        if !in_use(book, k) {
            return k;
        }
    }
    to
}

// Puts a mark and a strip in the five numbers from the place p on.
pub fn put_at(book: &mut [i32], p: usize, mark: u8, w: Window)
    requires { p + 5 ≤ length book.old }
    ensures { book.new ≡ sets book.old p (slot_numbers (slot_of mark w)) }
{
    let left = w.left;
    let bottom = w.bottom;
    let right = w.right;
    let top = w.top;
    book[p] = mark as i32;
    book[p + 1] = left;
    book[p + 2] = bottom;
    book[p + 3] = right;
    book[p + 4] = top;
}

// Puts a mark and a strip in the slot k.
pub fn put(book: &mut [i32], k: usize, mark: u8, w: Window)
    requires { 5 * k + 5 ≤ length book.old }
    ensures { book.new ≡ sets book.old (5 * k) (slot_numbers (slot_of mark w)) }
{
    put_at(book, 5 * k, mark, w);
}
