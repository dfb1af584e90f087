// Keeps a strip book in the file that the program's argument names: reads the bookkeeper's lines from standard input, and answers them.
#![tactic(auto)]

ghost use Rattle.std.specs.Prelude.{◌≤◌, length, IfSome};

use sittings::Room;
use std::rt::Env;
use storing::Names;

// Puts the program's argument at the front of a page, and says how long it is. There is none where it is empty, or longer than the page.
fn name_in(rt: &HostRuntime, word: &mut [u8]) -> Option<usize>
    ensures { IfSome result (λ long. long ≤ length word.new) }
{
    match rt.arg(1, word) {
        Ok(0) => None,
        Ok(long) => Some(long),
        Err(_) => None,
    }
}

// Takes the file's name, makes the names of the two files beside it, and keeps the book. A longer name would leave no room for their ends.
fn run(rt: &HostRuntime, room: Room) {
    let mut word = [0u8; 4090];
    let Some(long) = name_in(rt, &mut word) else {
        streams::tell(
            rt,
            b"book takes the name of the file that holds the book, of at most 4,090 bytes\n",
        );
        return;
    };
    let mut busy = [0u8; 4095];
    let in_hand = text::put(&mut busy, 0, &word[..long]);
    let busy_end = text::put(&mut busy, in_hand, b".busy");
    let mut new = [0u8; 4094];
    let middle = text::put(&mut new, 0, &word[..long]);
    let new_end = text::put(&mut new, middle, b".new");
    let names = Names {
        new: &new[..new_end],
        long,
    };
    sittings::keep_book(rt, &busy[..busy_end], names, room);
}

fn main(rt: HostRuntime) {
    let mut chunk = [0u8; 65536];
    let mut line = [0u8; 400001];
    let mut page = [0u8; 40000];
    let room = Room {
        chunk: &mut chunk,
        line: &mut line,
        page: &mut page,
    };
    run(&rt, room);
}
