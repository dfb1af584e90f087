// Why a line is no call. It is asked of such lines only, which are few, so it reads them anew.
#![tactic(auto)]

use arguments::{Command, LONGEST};

// What an argument has to be: a number that an i32 holds, a number up to a limit, an f32 as eight hexadecimal digits, or the bytes of a file.
#[derive(Clone, Copy)]
pub enum Kind {
    Whole,
    UpTo(u32),
    Float,
    Bytes,
}

// An argument is named by its place, the first after the word by 1.
#[derive(Clone, Copy)]
pub enum Reason {
    Long,
    // A tab or a carriage return stands in it.
    Unseen,
    Word,
    Blank(usize),
    Few,
    Many,
    Wrong(usize, Kind),
}

// What a command takes: so many arguments, and where one of them is the count of a list, the list behind them.
#[derive(Clone, Copy)]
struct Wants {
    least: usize,
    list: Option<List>,
}

// A list, whose count stands at a place, and is at most `most`.
#[derive(Clone, Copy)]
struct List {
    place: usize,
    most: u32,
}

fn taking(least: usize) -> Wants {
    Wants { least, list: None }
}

fn with_list(least: usize, place: usize, most: u32) -> Wants {
    Wants {
        least,
        list: Some(List { place, most }),
    }
}

fn wanted(command: Command) -> Wants {
    match command {
        Command::Back => taking(1),
        Command::Mm2 | Command::Draw => taking(2),
        Command::Mm4 => taking(4),
        Command::Lb | Command::Cs | Command::Xp => taking(8),
        Command::Cb => with_list(5, 1, 64),
        Command::Batch | Command::Touches => with_list(6, 6, 20000),
        Command::Outline => with_list(7, 7, 256),
        Command::Enter => with_list(6, 1, 20000),
        Command::Release => with_list(3, 1, 20000),
        Command::Strips => with_list(3, 2, 20000),
    }
}

// What the argument at a place has to be.
fn kind_at(command: Command, place: usize) -> Kind {
    match command {
        Command::Mm2 | Command::Mm4 => Kind::Float,
        Command::Outline => match place {
            1 => Kind::UpTo(0xffff_ffff),
            2 => Kind::UpTo(40960),
            _ => Kind::Whole,
        },
        Command::Batch | Command::Touches | Command::Strips => match place {
            1 => Kind::UpTo(40960),
            _ => Kind::Whole,
        },
        Command::Draw => match place {
            1 => Kind::UpTo(40960),
            _ => Kind::Bytes,
        },
        _ => Kind::Whole,
    }
}

// Whether an argument is what it has to be. Of bytes it is not asked: they come last, so that they are wrong where nothing else is.
fn is(argument: &[u8], kind: Kind) -> bool {
    match kind {
        Kind::Whole => words::read_integer(argument).is_some(),
        Kind::UpTo(most) => words::read_unsigned(argument, most as u64).is_some(),
        Kind::Float => words::read_single(argument).is_some(),
        Kind::Bytes => false,
    }
}

// How many arguments there are, each with a space before it; or that one is empty.
fn count(rest: &[u8]) -> Result<usize, Reason> {
    let mut left = rest;
    let mut place: usize = 0;
    while let Some((argument, behind)) = arguments::split_first(left) {
        place += 1;
        if argument.is_empty() {
            return Err(Reason::Blank(place));
        }
        left = behind;
    }
    Ok(place)
}

// The number that the argument at a place is, if it is at most most.
fn number_at(rest: &[u8], place: usize, most: u32) -> Option<u64> {
    let mut left = rest;
    for _before in 1..place {
        let (_argument, behind) = arguments::split_first(left)?;
        left = behind;
    }
    let (argument, _behind) = arguments::split_first(left)?;
    words::read_unsigned(argument, most as u64)
}

// The first argument that is not what it has to be. A line that is no call has one, so that the loop does not come to its end.
fn first_wrong(rest: &[u8], command: Command) -> Reason {
    let mut left = rest;
    let mut place: usize = 0;
    while let Some((argument, behind)) = arguments::split_first(left) {
        place += 1;
        let kind = kind_at(command, place);
        if !is(argument, kind) {
            return Reason::Wrong(place, kind);
        }
        left = behind;
    }
    Reason::Word
}

// By how many arguments come behind those that a command always takes, and how many should; where that is right, by the arguments.
fn by_list(rest: &[u8], command: Command, come: usize, should: u64) -> Reason {
    let come = come as u64;
    if come < should {
        return Reason::Few;
    }
    if should < come {
        return Reason::Many;
    }
    first_wrong(rest, command)
}

fn by_arguments(rest: &[u8], command: Command) -> Reason {
    let wants = wanted(command);
    let count = match count(rest) {
        Ok(count) => count,
        Err(reason) => return reason,
    };
    if count < wants.least {
        return Reason::Few;
    }
    let come = count - wants.least;
    let Some(list) = wants.list else {
        return by_list(rest, command, come, 0);
    };
    match number_at(rest, list.place, list.most) {
        Some(n) => by_list(rest, command, come, n),
        None => Reason::Wrong(list.place, Kind::UpTo(list.most)),
    }
}

// Why a line is no call.
pub fn why(line: &[u8]) -> Reason {
    if LONGEST < line.len() {
        return Reason::Long;
    }
    if line.contains(&b'\t') || line.contains(&b'\r') {
        return Reason::Unseen;
    }
    let end = text::find(line, 0, b' ');
    match arguments::command_of(&line[0..end]) {
        Some(command) => by_arguments(&line[end..], command),
        None => Reason::Word,
    }
}
