// The lines of a book's slots: one for each that is in use.
#![tactic(auto)]

ghost use Rattle.std.specs.Prelude.{◌+◌, ◌*◌, ◌-◌, ◌≤◌, ◌≡◌, length};
ghost use Rattle.std.proofs.Math.Seq.{slice};
ghost use Rattle.text.specs.Pages.{Put};
ghost use Rattle.slots.specs.Slots.{slots_of};
ghost use Rattle.book_rows.specs.Rows.{rows_text};

// Puts the lines of the slots from one up to another.
pub fn put_rows(page: &mut [u8], at: usize, book: &[i32], from: usize, to: usize) -> usize
    requires from_le_to { from ≤ to }
    requires to_bound { to ≤ 64 }
    requires book_len { length book.now ≡ 320 }
    requires from_in_bounds { at + 580 * (to - from) ≤ length page.old }
    ensures put { Put page.old page.new at result (rows_text from (slice from to (slots_of book.now))) }
    ensures upper_bound { result ≤ at + 580 * (to - from) }
{
    let mut end = at;
    for k in from..to {
        if slots::in_use(book, k) {
            end = strip_lines::put_row(page, end, k, slots::strip_at(book, 5 * k));
        }
    }
    end
}
