// What the desk writes: its replies are put on a page, each on a line.
#![tactic(auto)]

ghost use Rattle.std.specs.Prelude.{[], ◌∷◌, ◌+◌, ◌*◌, ◌≤◌, length, IfSome};
ghost use Rattle.text.specs.Pages.{Put, integer};
ghost use Rattle.output.specs.Written.{bits_text, field_text, parted_text, fields_text, lent_line, reply_line};

use replies::{Field, Reply};

// Up to here the page is filled before it is written out.
pub const MARK: usize = 65536;

// The page: behind the mark there is room for one reply, of 16 fields, 40,960 numbers and a newline.
pub type Page = [u8; 557536];

// Writes out the first `used` bytes of the page, and says whether that could be done.
pub fn write_out(rt: &HostRuntime, page: &[u8], used: usize) -> bool
    requires { used ≤ length page.now }
{
    streams::write(rt, &page[0..used])
}

// Puts the eight hexadecimal digits of an f32's bits.
fn put_bits(page: &mut [u8], at: usize, bits: u32) -> usize
    requires { at + 8 ≤ length page.old }
    ensures put { Put page.old page.new at result (bits_text bits) }
    ensures upper_bound { result ≤ at + 8 }
{
    let mut digits = [0u8; 16];
    let count = io::hex(bits as u64, 8, &mut digits);
    text::put(page, at, &digits[..count])
}

// Puts a field.
fn put_field(page: &mut [u8], at: usize, field: Field) -> usize
    requires { at + 21 ≤ length page.old }
    ensures put { Put page.old page.new at result (field_text field) }
    ensures upper_bound { result ≤ at + 21 }
{
    match field {
        Field::Plain(size) => text::put_natural(page, at, size),
        Field::Minus(size) => {
            page[at] = b'-';
            text::put_natural(page, at + 1, size)
        }
        Field::Bits(bits) => put_bits(page, at, bits),
    }
}

// Puts field i of a reply, with a space before it unless it is the first.
fn put_parted(page: &mut [u8], at: usize, i: usize, field: Field) -> usize
    requires { at + 22 ≤ length page.old }
    ensures put { Put page.old page.new at result (parted_text i field) }
    ensures upper_bound { result ≤ at + 22 }
{
    if i == 0 {
        return put_field(page, at, field);
    }
    page[at] = b' ';
    put_field(page, at + 1, field)
}

// Puts the fields of a reply, parted by spaces.
fn put_fields(page: &mut [u8], at: usize, fields: &[Field]) -> usize
    requires fields_bound { length fields.now ≤ 16 }
    requires at_in_bounds { at + 352 ≤ length page.old }
    ensures put { Put page.old page.new at result (fields_text (length fields.now) fields.now) }
    ensures upper_bound { result ≤ at + 352 }
{
    let mut end = at;
    for (i, field) in fields.iter().enumerate() {
        end = put_parted(page, end, i, *field);
    }
    end
}

// Puts a space and a number.
fn put_integer(page: &mut [u8], at: usize, z: i32) -> usize
    requires { at + 22 ≤ length page.old }
    ensures put { Put page.old page.new at result (32 ∷ integer z) }
    ensures upper_bound { result ≤ at + 12 }
{
    page[at] = b' ';
    text::put_integer(page, at + 1, z as i64)
}

// Puts numbers, a space before each, and a newline.
fn put_integers(page: &mut [u8], at: usize, numbers: &[i32]) -> usize
    requires { at + 12 * length numbers.now + 23 ≤ length page.old }
    ensures { Put page.old page.new at result (lent_line numbers.now) }
{
    let mut end = at;
    for number in numbers {
        end = put_integer(page, end, *number);
    }
    page[end] = b'\n';
    end + 1
}

// Puts a reply: its fields, and behind them as much of the lent output as it says. Where a line is no call, a question mark is put.
pub fn put_reply(page: &mut [u8], at: usize, reply: Option<Reply>, lent: &[i32]) -> usize
    requires count_bound { IfSome reply (λ r. r.count ≤ 16) }
    requires lent_in_bounds { at + 12 * length lent.now + 375 ≤ length page.old }
    ensures { Put page.old page.new at result (reply_line reply lent.now) }
{
    let Some(reply) = reply else {
        return text::put(page, at, b"?\n");
    };
    let room = reply.room;
    let end = put_fields(page, at, &reply.fields[..reply.count]);
    if lent.len() < room {
        return put_integers(page, end, lent);
    }
    put_integers(page, end, &lent[0..room])
}
