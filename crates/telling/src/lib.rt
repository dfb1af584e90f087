// What standard error says: why a line is refused or no call, for the first ten such lines; and the lines there are, for who asks.
#![tactic(auto)]

use reasons::{Kind, Reason};
use replies::{Field, Reply};

// So many lines are told.
const MOST: u64 = 10;

// The lines there are. A new command gets its line here, and in docs/DESK.md.
fn list_lines(rt: &HostRuntime) {
    streams::tell(rt, b"mm2 H H\n");
    streams::tell(rt, b"mm4 H H H H\n");
    streams::tell(rt, b"back g\n");
    streams::tell(rt, b"lb l b r t x1 y1 x2 y2\n");
    streams::tell(rt, b"cs l b r t x1 y1 x2 y2\n");
    streams::tell(rt, b"xp l b r t x1 y1 x2 y2\n");
    streams::tell(rt, b"cb M c1 .. cM x1 y1 x2 y2\n");
    streams::tell(rt, b"batch ROOM l b r t M s1 .. sM\n");
    streams::tell(rt, b"touches ROOM l b r t M s1 .. sM\n");
    streams::tell(rt, b"outline ORDER ROOM l b r t M c1 .. cM\n");
    streams::tell(rt, b"draw ROOM HEX\n");
    streams::tell(rt, b"enter M t1 .. tM R l b r t\n");
    streams::tell(rt, b"release M t1 .. tM R SLOT\n");
    streams::tell(rt, b"strips ROOM M t1 .. tM R\n");
    streams::tell(
        rt,
        b"H: an f32 as the eight hexadecimal digits of its bits; HEX: a file's bytes as pairs of digits, - for none; ROOM: numbers lent as output\n",
    );
}

// Tells words, a number and a byte behind it.
fn tell_number(rt: &HostRuntime, words: &[u8], n: u64, last: u8) {
    let mut page = [0u8; 21];
    let end = text::put_count(&mut page, 0, n, last);
    streams::tell(rt, words);
    streams::tell(rt, &page[0..end]);
}

// Tells what an argument should have been.
fn tell_kind(rt: &HostRuntime, kind: Kind) {
    match kind {
        Kind::Whole => streams::tell(rt, b"a whole number of 32 bits\n"),
        Kind::UpTo(most) => tell_number(rt, b"a number from 0 to ", most as u64, b'\n'),
        Kind::Float => streams::tell(rt, b"eight hexadecimal digits\n"),
        Kind::Bytes => streams::tell(
            rt,
            b"at most 70,000 pairs of hexadecimal digits, or a minus\n",
        ),
    }
}

// Tells why a line is no call.
fn tell_reason(rt: &HostRuntime, reason: Reason) {
    match reason {
        Reason::Long => streams::tell(rt, b"longer than 400,000 bytes\n"),
        Reason::Unseen => streams::tell(
            rt,
            b"a tab or a carriage return; words are parted by one space\n",
        ),
        Reason::Word => streams::tell(rt, b"unknown word; help lists the lines there are\n"),
        Reason::Few => streams::tell(rt, b"too few numbers\n"),
        Reason::Many => streams::tell(rt, b"too many numbers\n"),
        Reason::Blank(place) => {
            tell_number(rt, b"argument ", place as u64, b' ');
            streams::tell(rt, b"is empty: one space stands before each\n");
        }
        Reason::Wrong(place, kind) => {
            tell_number(rt, b"argument ", place as u64, b' ');
            streams::tell(rt, b"is not ");
            tell_kind(rt, kind);
        }
    }
}

// Tells a refusal; its number is below 256.
fn tell_refusal(rt: &HostRuntime, refusal: (u64, u64)) {
    let (number, place) = refusal;
    let mut page = [0u8; 160];
    let end = refusals::put_line(&mut page, 0, (number % 256) as u8, place as usize);
    streams::tell(rt, &page[0..end]);
}

// The number and the place of the refusal that a reply says, if it says one.
fn refusal_of(reply: Reply) -> Option<(u64, u64)> {
    match (reply.fields[0], reply.fields[1]) {
        (Field::Plain(number), Field::Plain(place)) if number != 0 => Some((number, place)),
        _ => None,
    }
}

// Whether a line asks for the lines there are.
fn is_help(line: &[u8]) -> bool {
    line == b"help".as_slice()
}

// Whether something is to be told of a line, when `told` lines are told already.
pub fn due(line: &[u8], reply: Option<Reply>, told: u64) -> bool {
    if let Some(reply) = reply {
        if refusal_of(reply).is_none() {
            return false;
        }
    }
    told <= MOST || is_help(line)
}

// Tells it, and says how many lines are told then; one more than the most stands for the notice that the others are not.
pub fn tell(rt: &HostRuntime, line: &[u8], number: u64, reply: Option<Reply>, told: u64) -> u64 {
    if is_help(line) {
        list_lines(rt);
        return told;
    }
    if MOST <= told {
        streams::tell(
            rt,
            b"more lines are refused or no call; the first ten are told\n",
        );
        return MOST + 1;
    }
    tell_number(rt, b"line ", number, b':');
    streams::tell(rt, b" ");
    match reply {
        None => tell_reason(rt, reasons::why(line)),
        Some(reply) => {
            if let Some(refusal) = refusal_of(reply) {
                tell_refusal(rt, refusal);
            }
        }
    }
    told + 1
}
