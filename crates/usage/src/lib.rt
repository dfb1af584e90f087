// What a line of the bookkeeper's text should have been, in a sentence.
#![tactic(auto)]

ghost use Rattle.std.specs.Prelude.{◌+◌, ◌≤◌, length};
ghost use Rattle.text.specs.Pages.{Put};
ghost use Rattle.usage.specs.Usage.{fault_words};

use orders::Fault;

// Puts what a line should have been, or what should have followed its command.
pub fn put_fault(page: &mut [u8], at: usize, fault: Fault) -> usize
    requires { at + 100 ≤ length page.old }
    ensures put { Put page.old page.new at result (fault_words fault) }
    ensures upper_bound { result ≤ at + 100 }
{
    match fault {
        Fault::Word => text::put(
            page,
            at,
            b"a line is book R l b r t, release R slot, strips R or show",
        ),
        Fault::Book => text::put(
            page,
            at,
            b"book takes the renter, 0 or 1, and four numbers of millimetres: left, bottom, right, top",
        ),
        Fault::Release => text::put(
            page,
            at,
            b"release takes the renter and his slot, two whole numbers",
        ),
        Fault::Strips => text::put(page, at, b"strips takes the renter"),
        Fault::Show => text::put(page, at, b"show takes nothing"),
    }
}
