// Standard input, output and error, and files that are open. Every program reads and writes through here: what is not ready yet is waited for, and
// what fails is told in a line on standard error.
#![tactic(auto)]

ghost use Rattle.std.specs.Prelude.{◌≤◌, length, IfOk, IfSome};
ghost use Rattle.io.specs.Counts.{IsPrefixLen};

use std::io::{Error, ErrorKind, Read, Write};
use std::thread;

// How many turns a wait may take: a proved loop has to end, so it has a number of turns that no run reaches.
const MOST_TURNS: u64 = 0x4000_0000_0000_0000;

// Whether the call that just failed is worth another try: a signal came before it moved a byte, or the other side is not ready. Other programs run
// meanwhile.
fn try_again(error: &Error) -> bool {
    match error.kind() {
        ErrorKind::Interrupted => true,
        ErrorKind::WouldBlock => {
            thread::yield_now();
            true
        }
        _ => false,
    }
}

// Where the words of an error's text end: std puts the error's number behind them, in parentheses after a space.
fn words_end(text: &[u8]) -> usize
    ensures { result ≤ length text.now }
{
    match text.iter().position(|byte| *byte == b'(') {
        Some(place) => place.saturating_sub(1),
        None => text.len(),
    }
}

// Tells what failed, as the caller names it, and why. The words of an error of the system or of std are fewer than the page holds.
pub fn fail(rt: &HostRuntime, what: &[u8], error: &Error) {
    let mut page = [0u8; 320];
    let mut room: &mut [u8] = &mut page;
    let _ = write!(room, "{error}");
    let left = room.len();
    let end = page.len().saturating_sub(left);
    let words = words_end(&page[..end]);
    tell(rt, what);
    tell(rt, b": ");
    tell(rt, &page[..words]);
    tell(rt, b"\n");
}

// Reads what is there, and waits where nothing is there yet; no bytes are the end.
fn read_from<R: Read>(from: &mut R, buf: &mut [u8]) -> Result<usize, Error>
    ensures { IfOk result (λ count. IsPrefixLen count buf.new) }
{
    for _ in 0..MOST_TURNS {
        match from.read(buf) {
            Ok(count) => return Ok(count),
            Err(error) => {
                if !try_again(&error) {
                    return Err(error);
                }
            }
        }
    }
    Err(Error::from(ErrorKind::TimedOut))
}

// Reads what is there: how many bytes, or none where the read failed, of which standard error then says why.
fn told<R: Read>(rt: &HostRuntime, from: &mut R, buf: &mut [u8]) -> Option<usize>
    ensures { IfSome result (λ count. IsPrefixLen count buf.new) }
{
    match read_from(from, buf) {
        Ok(count) => Some(count),
        Err(error) => {
            fail(rt, b"could not read", &error);
            None
        }
    }
}

// The same of standard input.
pub fn read_some(rt: &HostRuntime, buf: &mut [u8]) -> Option<usize>
    ensures { IfSome result (λ count. IsPrefixLen count buf.new) }
{
    told(rt, &mut rt.stdin(), buf)
}

// Reads a file until it ends or buf is full: how many bytes, or none where a read failed, of which standard error then says why.
pub fn read_file<R: Read>(rt: &HostRuntime, from: &mut R, buf: &mut [u8]) -> Option<usize>
    ensures { IfSome result (λ count. IsPrefixLen count buf.new) }
{
    let mut count = 0;
    // A while: a turn goes on by as many bytes as were there, so that no range has it.
    while count < buf.len() {
        let taken = told(rt, from, &mut buf[count..])?;
        if taken == 0 {
            break;
        }
        count += taken;
    }
    Some(count)
}

// The same of standard input.
pub fn read_all(rt: &HostRuntime, buf: &mut [u8]) -> Option<usize>
    ensures { IfSome result (λ count. IsPrefixLen count buf.new) }
{
    read_file(rt, &mut rt.stdin(), buf)
}

// Writes as much of the bytes as is taken at once, and waits where nothing is; an error where the write failed.
fn write_some<W: Write>(to: &mut W, bytes: &[u8]) -> Result<usize, Error>
    ensures { IfOk result (λ n. n ≤ length bytes.now) }
{
    for _ in 0..MOST_TURNS {
        match to.write(bytes) {
            Ok(count) => return Ok(count),
            Err(error) => {
                if !try_again(&error) {
                    return Err(error);
                }
            }
        }
    }
    Err(Error::from(ErrorKind::TimedOut))
}

// Writes all of the bytes; an error where that could not be done.
pub fn write_to<W: Write>(to: &mut W, bytes: &[u8]) -> Result<(), Error> {
    let mut left = bytes;
    while !left.is_empty() {
        let taken = write_some(to, left)?;
        if taken == 0 {
            return Err(Error::from(ErrorKind::WriteZero));
        }
        left = &left[taken..];
    }
    Ok(())
}

// Writes a page to standard output. Where that fails, standard error says why, and the program is to end.
pub fn write(rt: &HostRuntime, page: &[u8]) -> bool {
    match write_to(&mut rt.stdout(), page) {
        Ok(()) => true,
        Err(error) => {
            fail(rt, b"could not write", &error);
            false
        }
    }
}

// Writes a line to standard error. Where that fails there is nobody left to tell.
pub fn tell(rt: &HostRuntime, line: &[u8]) {
    let _ = write_to(&mut rt.stderr(), line);
}
