// The commands of the strip book: enter, release and strips. Of the first two the table is read into the lent output, where the call then works on
// it; strips writes its listing there, and reads the table elsewhere. There is no reply where the line is no call.
#![tactic(auto)]

ghost use Rattle.std.specs.Prelude.{◌+◌, ◌≤◌, ◌<◌, length, IfSome};
ghost use Rattle.replies.specs.Replies.{answer_fields, Tells};
ghost use Rattle.lending.specs.Lent.{Lends};
ghost use Rattle.strip_book.specs.Books.{BookStrip, ReleaseSlot};
ghost use Rattle.own_strips.specs.OwnStrips.{ListStrips};
ghost use Rattle.book_commands.specs.Lines.{booking_fields, release_fields, ReadTable, EnterLine, ReleaseLine, StripsLine};

use grid::Window;
use replies::Reply;

// The most numbers of a table.
const MOST_TABLE: usize = 20000;

// Reads M, a table of M numbers, and `behind` numbers more; all but M are put at the front of lent. It says M; none where the text is something
// else. M is read as a room is, since enter and release lend the table.
fn read_table(rest: &[u8], behind: usize, lent: &mut [i32]) -> Option<usize>
    requires behind_nonzero { 0 < behind }
    requires behind_bound { behind ≤ 5 }
    requires behind_in_bounds { 20000 + behind ≤ length lent.old }
    ensures table_bound { IfSome result (λ m. m ≤ 20000) }
    ensures table { ReadTable behind rest.now lent.new result }
{
    let (first, text) = arguments::split_first(rest)?;
    let m = lending::read_room(first)?;
    if MOST_TABLE < m {
        return None;
    }
    let count = arguments::read_numbers(text, lent)?;
    if count != m + behind {
        return None;
    }
    Some(m)
}

// N P SLOT of a strip, booked in a table
fn book(table: &mut [i32], renter: i32, w: Window) -> Reply
    ensures count_bound { result.count ≤ 16 }
    ensures tells { Tells (λ a. BookStrip renter w a table.old table.new) booking_fields 0 result }
{
    let a = strip_book::book_strip(table, renter, w);
    replies::begin(a.number, a.place).integer(a.slot)
}

// N P of a slot, freed in a table
fn free(table: &mut [i32], renter: i32, slot: i32) -> Reply
    ensures count_bound { result.count ≤ 16 }
    ensures tells { Tells (λ a. ReleaseSlot renter slot a table.old table.new) release_fields 0 result }
{
    let a = strip_book::release_slot(table, renter, slot);
    replies::begin(a.number, a.place)
}

// N P W of a renter's strips in a table, listed into a lent output
fn list(table: &[i32], renter: i32, lent: &mut [i32]) -> Reply
    requires { length lent.old ≤ 40960 }
    ensures count_bound { result.count ≤ 16 }
    ensures tells { Tells (λ a. Lends (ListStrips renter table.now a) lent.new) answer_fields 0 result }
{
    lending::prepare(lent);
    let a = own_strips::list_strips(table, renter, lent);
    replies::begin(a.number, a.place).natural(a.count as u64)
}

// enter M t1 .. tM R l b r t: N P SLOT t1 .. tM, M at most 20,000
pub fn enter(rest: &[u8], lent: &mut [i32]) -> Option<Reply>
    requires { 40960 ≤ length lent.old }
    ensures count_bound { IfSome result (λ r. r.count ≤ 16) }
    ensures enter_line { EnterLine rest.now lent.new result }
{
    let m = read_table(rest, 5, lent)?;
    let renter = lent[m];
    let w = arguments::first_window(&lent[m + 1..]);
    let reply = book(&mut lent[0..m], renter, w);
    Some(reply.lent(m))
}

// release M t1 .. tM R SLOT: N P t1 .. tM, M at most 20,000
pub fn release(rest: &[u8], lent: &mut [i32]) -> Option<Reply>
    requires { 40960 ≤ length lent.old }
    ensures count_bound { IfSome result (λ r. r.count ≤ 16) }
    ensures release_line { ReleaseLine rest.now lent.new result }
{
    let m = read_table(rest, 2, lent)?;
    let renter = lent[m];
    let slot = lent[m + 1];
    let reply = free(&mut lent[0..m], renter, slot);
    Some(reply.lent(m))
}

// strips ROOM M t1 .. tM R: N P W o1 .. oROOM, M at most 20,000
pub fn strips(rest: &[u8], lent: &mut [i32]) -> Option<Reply>
    requires { 40960 ≤ length lent.old }
    ensures count_bound { IfSome result (λ r. r.count ≤ 16) }
    ensures strips_line { StripsLine rest.now lent.new result }
{
    let (first, behind) = arguments::split_first(rest)?;
    let room = lending::read_room(first)?;
    let mut numbers = [0i32; 20001];
    let m = read_table(behind, 1, &mut numbers)?;
    let renter = numbers[m];
    let reply = list(&numbers[0..m], renter, &mut lent[0..room]);
    Some(reply.lent(room))
}
