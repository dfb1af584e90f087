// All strips of a renter in a sheet: counted, and drawn in the renter's colours.
#![tactic(auto)]

ghost use Rattle.std.specs.Prelude.{◌≡◌, ◌+◌, ◌<◌, ◌≤◌, length};
ghost use Rattle.text.specs.Pages.{Put};
ghost use Rattle.renter_art.specs.RenterArt.{strip_count, slot_art, slot_arts, look, group_start, renter_art};

// How many strips a renter has.
pub fn count_strips(book: &[i32], renter: usize) -> usize
    requires renter_bound { renter ≤ 1 }
    requires book_len { length book.now ≡ 320 }
    ensures { result ≡ strip_count renter book.now }
{
    // A listing has five numbers for each strip.
    own_strips::count_listed(book, 32 * renter) / 5
}

// Puts the strip in the renter's slot k, if there is one.
fn put_slot(page: &mut [u8], at: usize, book: &[i32], renter: usize, k: usize) -> usize
    requires renter_bound { renter ≤ 1 }
    requires k_bound { k < 32 }
    requires book_len { length book.now ≡ 320 }
    requires at_in_bounds { at + 500 ≤ length page.old }
    ensures put { Put page.old page.new at result (slot_art renter book.now k) }
    ensures upper_bound { result ≤ at + 500 }
{
    let slot = 32 * renter + k;
    if !slots::in_use(book, slot) {
        return at;
    }
    let w = slots::strip_at(book, 5 * slot);
    strip_art::put_strip(page, at, renter, k, w)
}

// Puts the strips in all 32 slots of a renter.
fn put_slots(page: &mut [u8], at: usize, book: &[i32], renter: usize) -> usize
    requires renter_bound { renter ≤ 1 }
    requires book_len { length book.now ≡ 320 }
    requires at_in_bounds { at + 16000 ≤ length page.old }
    ensures put { Put page.old page.new at result (slot_arts renter book.now 32) }
    ensures upper_bound { result ≤ at + 16000 }
{
    let mut end = at;
    for k in 0..32 {
        end = put_slot(page, end, book, renter, k);
    }
    end
}

// Puts a renter's colours.
fn put_look(page: &mut [u8], at: usize, renter: usize) -> usize
    requires { at + 120 ≤ length page.old }
    ensures put { Put page.old page.new at result (look renter) }
    ensures upper_bound { result ≤ at + 120 }
{
    if renter == 0 {
        return text::put(
            page,
            at,
            b"<g color=\"#14324f\" stroke=\"#14324f\" fill=\"#14324f\"",
        );
    }
    text::put(
        page,
        at,
        b"<g color=\"#8f4300\" stroke=\"#8f4300\" fill=\"#e9a23b\" stroke-dasharray=\"128 96\" stroke-linecap=\"butt\"",
    )
}

// Puts the start of a renter's group, and the sample of the legend.
fn put_start(page: &mut [u8], at: usize, renter: usize) -> usize
    requires renter_bound { renter ≤ 1 }
    requires at_in_bounds { at + 300 ≤ length page.old }
    ensures put { Put page.old page.new at result (group_start renter) }
    ensures upper_bound { result ≤ at + 300 }
{
    let a = put_look(page, at, renter);
    let b = marks::put_labelled(
        page,
        a,
        b" fill-opacity=\".3\" stroke-width=\"32\" text-anchor=\"middle\">\n<path d=\"M3932 -",
        18349 + 1475 * (renter as u64),
        b'h',
    );
    text::put(page, b, b"1638v-983h-1638z\"/>\n")
}

// Puts the group of a renter: the sample and the strips.
pub fn put_renter(page: &mut [u8], at: usize, book: &[i32], renter: usize) -> usize
    requires renter_bound { renter ≤ 1 }
    requires book_len { length book.now ≡ 320 }
    requires at_in_bounds { at + 16400 ≤ length page.old }
    ensures put { Put page.old page.new at result (renter_art renter book.now) }
    ensures upper_bound { result ≤ at + 16400 }
{
    let a = put_start(page, at, renter);
    let b = put_slots(page, a, book, renter);
    text::put(page, b, b"</g>\n")
}
