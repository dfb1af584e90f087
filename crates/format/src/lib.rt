// The drawing file as bytes: its numbers, its head and its records.
#![tactic(auto)]

ghost use Rattle.std.specs.Prelude.{◌≡◌, ◌+◌, ◌≤◌, length};
ghost use Rattle.format.specs.Format.{number_at, float_at, head_size, head_fault, window_at, record_at};

use intake::WindowMm;

pub mod reader;

// A step of the pen.
#[derive(Clone, Copy)]
pub enum Step {
    Move(f32, f32),
    Line(f32, f32),
    Close,
}

// What stands at a place of the bytes. An enum of three: that no byte is left is no fault, and a fault is no end.
#[derive(Clone, Copy)]
pub enum Found {
    // A step, and the place after its record.
    Record(Step, usize),
    // A cut record, or an unknown first byte.
    Bad,
    // No byte.
    End,
}

// The most bytes of a file.
const MOST_BYTES: usize = 65536;

const VERSION: u8 = 1;

// The place of the first record: before it are the count, the version and the window.
pub const HEAD_SIZE: usize = 21;

// The first byte of a record.
const MOVE: u8 = 0x4D;

const LINE: u8 = 0x4C;

const CLOSE: u8 = 0x5A;

// The number in the four bytes from a place on, big-endian.
fn number_at(s: &[u8], at: usize) -> u32
    requires { at + 4 ≤ length s.now }
    ensures { result ≡ number_at s.now at }
{
    u32::from_be_bytes([s[at], s[at + 1], s[at + 2], s[at + 3]])
}

// The f32 in the four bytes from a place on.
fn float_at(s: &[u8], at: usize) -> f32
    requires { at + 4 ≤ length s.now }
    ensures { result ≡ float_at s.now at }
{
    let bits = number_at(s, at);
    // Without their sign, the bits of a NaN are a larger number than those of the infinity.
    if 0x7f80_0000 < bits % 0x8000_0000 {
        return 0.0 / 0.0;
    }
    f32::from_bits(bits)
}

// The place of the first fault before the numbers of the window, or of the first record.
pub fn head_fault(s: &[u8]) -> usize
    ensures { result ≡ head_fault s.now }
{
    let n = s.len();
    if n < 4 {
        return 0;
    }
    if (number_at(s, 0) as usize) + 4 != n {
        return 0;
    }
    if MOST_BYTES < n {
        return 0;
    }
    if n < 5 {
        return 4;
    }
    if s[4] != VERSION {
        return 4;
    }
    if n < HEAD_SIZE {
        return 5;
    }
    HEAD_SIZE
}

// The window of the head, in millimetres.
pub fn window_at(s: &[u8]) -> WindowMm
    requires { head_size ≤ length s.now }
    ensures { result ≡ window_at s.now }
{
    WindowMm {
        left: float_at(s, 5),
        bottom: float_at(s, 9),
        right: float_at(s, 13),
        top: float_at(s, 17),
    }
}

// The record at a place.
pub fn record_at(s: &[u8], at: usize) -> Found
    ensures { result ≡ record_at s.now at }
{
    if s.len() <= at {
        return Found::End;
    }
    let first = s[at];
    if first == CLOSE {
        return Found::Record(Step::Close, at + 1);
    }
    if s.len() - at < 9 {
        return Found::Bad;
    }
    let x = float_at(s, at + 1);
    let y = float_at(s, at + 5);
    if first == MOVE {
        return Found::Record(Step::Move(x, y), at + 9);
    }
    if first == LINE {
        return Found::Record(Step::Line(x, y), at + 9);
    }
    Found::Bad
}
