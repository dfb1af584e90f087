// The counter at which the bookkeeper stands: a line of his text is read as an order, and the order is answered.
#![tactic(auto)]

ghost use Rattle.std.specs.Prelude.{◌≡◌, ◌≤◌, length};
ghost use Rattle.text.specs.Pages.{Put};
ghost use Rattle.pen_line.specs.Lines.{spoken};
ghost use Rattle.counter.specs.Serving.{wrong_text, came_of, Does, Serves};

use answers::Reply;
use orders::{Fault, Order};

// What came of a line: it has changed the table, it has left it as it was, or it was refused, or is no order at all.
#[derive(Clone, Copy, Debug, PartialEq, Eq)]
pub enum Outcome {
    Changed,
    Unchanged,
    Refused,
}

// What came of a line, and its answer, which is the page up to `end`.
#[derive(Clone, Copy)]
pub struct Service {
    pub end: usize,
    pub outcome: Outcome,
}

// Puts the answer to a line that is no order.
fn put_wrong(page: &mut [u8], fault: Fault) -> usize
    requires { 1000 ≤ length page.old }
    ensures { Put page.old page.new 0 result (wrong_text fault) }
{
    let a = text::put(page, 0, b"? ");
    let b = usage::put_fault(page, a, fault);
    text::put(page, b, b"\n")
}

// What comes of a reply to an order: where it is done, that which is given.
fn came_of(reply: Reply, done: Outcome) -> Service
    ensures { result ≡ came_of reply done }
{
    let outcome = match reply.number {
        0 => done,
        _ => Outcome::Refused,
    };
    Service {
        end: reply.end,
        outcome,
    }
}

// Does what an order says.
fn obey(order: Order, table: &mut [i32], page: &mut [u8]) -> Service
    requires value { 320 ≡ length table.old }
    requires in_bounds { 40000 ≤ length page.old }
    ensures { Does (Ok order) table.old table.new page.new result }
{
    match order {
        Order::Blank => Service {
            end: 0,
            outcome: Outcome::Unchanged,
        },
        Order::Book(renter, strip) => came_of(
            clerk::book(table, renter, strip, page),
            Outcome::Changed,
        ),
        Order::Release(renter, slot) => came_of(
            clerk::release(table, renter, slot, page),
            Outcome::Changed,
        ),
        Order::Strips(renter) => came_of(lister::strips(table, renter, page), Outcome::Unchanged),
        Order::Show => came_of(lister::show(table, page), Outcome::Unchanged),
    }
}

// Answers a line.
pub fn serve(line: &[u8], table: &mut [i32], page: &mut [u8]) -> Service
    requires value { 320 ≡ length table.old }
    requires in_bounds { 40000 ≤ length page.old }
    ensures { Serves line.now table.old table.new page.new result }
{
    match orders::read(line) {
        Ok(order) => obey(order, table, page),
        Err(fault) => Service {
            end: put_wrong(page, fault),
            outcome: Outcome::Refused,
        },
    }
}
