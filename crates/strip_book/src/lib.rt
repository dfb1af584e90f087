// The strip book: a strip is tested and entered in one call, and a slot is released. The book is a table that the caller lends; each of its two
// renters has a half of it, and is named in each call.
#![tactic(auto)]

ghost use Rattle.std.specs.Prelude.{◌≡◌, true, length};
ghost use Rattle.grid.specs.Refusals.{refuse};
ghost use Rattle.strip_book.specs.Books.{BookStrip, ReleaseSlot};
ghost use Rattle.strip_book.specs.Renters.{is_renter, first_slot, half};
ghost use Rattle.strip_book.specs.Workers.{number_of, Names, booking_answer, release_answer_of, Finds};

use grid::{Refusal, Window};

// The numbers of the book's own refusals, as specs/Books.antt defines them.
pub const STRIP_TAKEN: u8 = 16;

pub const HALF_FULL: u8 = 17;

pub const SLOT_NOT_IN_USE: u8 = 18;

pub const UNKNOWN_RENTER: u8 = 19;

pub const NO_BOOK: u8 = 23;

// What booking returns: number and place of a refusal, or the renter's slot that the strip is in.
#[repr(C)]
#[derive(Drop)]
pub struct BookingAnswer {
    pub number: u8,
    pub place: usize,
    pub slot: i32,
}

// What releasing returns: number and place of a refusal.
#[repr(C)]
#[derive(Drop)]
pub struct ReleaseAnswer {
    pub number: u8,
    pub place: usize,
}

// A refusal of the book's own, whose place is 0.
pub fn refused(number: u8) -> Refusal
    ensures { result ≡ refuse number 0 }
{
    Refusal { number, place: 0 }
}

// The renter's slot that a strip was entered in, or a refusal, as the call answers it.
impl From<Result<i32, Refusal>> for BookingAnswer {
    ghost from_gives = { λ booked a. a ≡ booking_answer booked };

    fn from(booked: Result<i32, Refusal>) -> BookingAnswer {
        match booked {
            Ok(slot) => BookingAnswer {
                number: 0,
                place: 0,
                slot,
            },
            Err(refusal) => BookingAnswer {
                number: refusal.number,
                place: refusal.place,
                slot: 0,
            },
        }
    }
}

// A release that is done, or a refusal, as the call answers it.
impl From<Result<(), Refusal>> for ReleaseAnswer {
    ghost from_gives = { λ released a. a ≡ release_answer_of released };

    fn from(released: Result<(), Refusal>) -> ReleaseAnswer {
        match released {
            Ok(()) => ReleaseAnswer {
                number: 0,
                place: 0,
            },
            Err(refusal) => ReleaseAnswer {
                number: refusal.number,
                place: refusal.place,
            },
        }
    }
}

// One of the two renters: the first, of number 0, has the table's slots 0 to 31, the second, of number 1, the slots 32 to 63.
#[derive(Clone, Copy)]
pub enum Renter {
    First,
    Second,
}

impl TryFrom<i32> for Renter {
    type Error = Refusal;

    ghost try_from_gives = { Names };

    fn try_from(number: i32) -> Result<Renter, Refusal> {
        match number {
            0 => Ok(Renter::First),
            1 => Ok(Renter::Second),
            _ => Err(refused(UNKNOWN_RENTER)),
        }
    }
}

impl Renter {
    // The table's slot that is the renter's first.
    pub fn first_slot(self) -> usize
        ensures { result ≡ first_slot (number_of self) }
    {
        match self {
            Renter::First => 0,
            Renter::Second => 32,
        }
    }
}

// Whether there is a renter of this number.
pub fn is_renter(renter: i32) -> bool
    ensures { result ≡ is_renter renter }
{
    Renter::try_from(renter).is_ok()
}

// The table's slot that is the first of the renter of this number.
pub fn first_slot(renter: i32) -> usize
    requires { is_renter renter ≡ true }
    ensures { result ≡ first_slot renter }
{
    if renter == 0 { 0 } else { 32 }
}

// Enters a strip in the lowest free slot of the renter's half, unless it shares area with one that is entered in either half, and tells which of the
// renter's slots it is.
fn booked(book: &mut [i32], renter: i32, w: Window) -> Result<i32, Refusal>
    ensures { BookStrip renter w (booking_answer result) book.old book.new }
{
    let from = Renter::try_from(renter)?.first_slot();
    let mut rack = [racks::VACANT; 288];
    let n = slots::test_book(book, &mut rack).ok_or(refused(NO_BOOK))?;
    grid::test_window(w)?;
    let to = from + 32;
    let k = slots::lowest_free(book, from, to);
    if k == to {
        return Err(refused(HALF_FULL));
    }
    if racks::shares(&rack, n, w) {
        return Err(refused(STRIP_TAKEN));
    }
    slots::put(book, k, 1, w);
    Ok((k - from) as i32)
}

// Enters a strip in the lowest free slot of the renter's half, unless it shares area with one that is entered in either half.
// Its statement is `BookStrip`, specs/Books.antt.
pub fn book_strip(book: &mut [i32], renter: i32, w: Window) -> BookingAnswer
    ensures { BookStrip renter w result book.old book.new }
{
    BookingAnswer::from(booked(book, renter, w))
}

// The table's slot that the renter has under this number, if there is one and it is in use.
fn used_slot(book: &[i32], renter: Renter, slot: i32) -> Option<usize>
    requires { length book.now ≡ 320 }
    ensures { Finds (number_of renter) slot book.now result }
{
    if slot < 0 || 31 < slot {
        return None;
    }
    let k = renter.first_slot() + slot as usize;
    if slots::in_use(book, k) {
        Some(k)
    } else {
        None
    }
}

// Frees a slot of the renter's half, which then holds five zeros.
fn released(book: &mut [i32], renter: i32, slot: i32) -> Result<(), Refusal>
    ensures { ReleaseSlot renter slot (release_answer_of result) book.old book.new }
{
    let renter = Renter::try_from(renter)?;
    let mut rack = [racks::VACANT; 288];
    slots::test_book(book, &mut rack).ok_or(refused(NO_BOOK))?;
    let k = used_slot(book, renter, slot).ok_or(refused(SLOT_NOT_IN_USE))?;
    let nothing = Window {
        left: 0,
        bottom: 0,
        right: 0,
        top: 0,
    };
    slots::put(book, k, 0, nothing);
    Ok(())
}

// Frees a slot of the renter's half, which then holds five zeros.
// Its statement is `ReleaseSlot`, specs/Books.antt.
pub fn release_slot(book: &mut [i32], renter: i32, slot: i32) -> ReleaseAnswer
    ensures { ReleaseSlot renter slot result book.old book.new }
{
    ReleaseAnswer::from(released(book, renter, slot))
}
