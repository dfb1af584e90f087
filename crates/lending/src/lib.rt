// The output that a line lends: how many numbers it has, what they hold before the call, and the list behind a window that goes with it.
#![tactic(auto)]

ghost use Rattle.std.specs.Prelude.{◌≡◌, ◌≤◌, length, IfSome};
ghost use Rattle.words.specs.Words.{numeral, unsigned};
ghost use Rattle.lending.specs.Lent.{most_room, Prepared, ReadList};

// The most numbers of a lent output.
pub const MOST_ROOM: usize = 40960;

// How many numbers are lent, by a word.
pub fn read_room(word: &[u8]) -> Option<usize>
    ensures room_bound { IfSome result (λ n. n ≤ 40960) }
    ensures value { result ≡ unsigned most_room (numeral word.now) }
{
    Some(words::read_unsigned(word, MOST_ROOM as u64)? as usize)
}

// Number i of a lent output is 7,000,000 + i before the call.
pub fn prepare(lent: &mut [i32])
    requires { length lent.old ≤ 40960 }
    ensures { Prepared lent.new }
{
    for (i, number) in lent.iter_mut().enumerate() {
        *number = 7000000 + (i as i32);
    }
}

// How many numbers are lent, and where a list ends that stands behind a window and its count.
#[derive(Clone, Copy)]
pub struct Listed {
    pub room: usize,
    pub end: usize,
}

// Reads ROOM l b r t M and M numbers, no more than numbers has places for; all but the room are put at its front.
pub fn read_list(rest: &[u8], numbers: &mut [i32]) -> Option<Listed>
    requires { length numbers.old ≤ 20005 }
    ensures room_bound { IfSome result (λ l. l.room ≤ 40960) }
    ensures list_long { IfSome result (λ l. 5 ≤ l.end) }
    ensures end_in_bounds { IfSome result (λ l. l.end ≤ length numbers.old) }
    ensures read_list { ReadList rest.now numbers.new result }
{
    let (first, behind) = arguments::split_first(rest)?;
    let room = read_room(first)?;
    let end = arguments::read_numbers(behind, numbers)?;
    if end < 5 || numbers[4] != (end - 5) as i32 {
        return None;
    }
    Some(Listed { room, end })
}
