// The desk: each line of standard input is one call, and each gets one line back, in order.
#![tactic(auto)]

use input::{Chunk, Line};
use output::Page;

// Answers every line. A proved loop has to end, so it has a last line, which no run reaches.
fn run(
    rt: &HostRuntime,
    chunk: &mut Chunk,
    line: &mut Line,
    lent: &mut [i32; 40960],
    page: &mut Page,
) {
    let mut talk = exchange::start();
    for number in 1..0x4000_0000_0000_0000u64 {
        talk = exchange::next_line(rt, chunk, line, page, talk);
        let Some(have) = talk.source.whole() else {
            break;
        };
        let reply = commands::reply(&line[..have], lent);
        talk = exchange::answer(rt, page, &line[..have], lent, talk, number, reply);
    }
}

fn main(rt: HostRuntime) {
    let mut chunk = [0u8; 65536];
    let mut line = [0u8; 400001];
    let mut lent = [0i32; 40960];
    let mut page = [0u8; 557536];
    run(&rt, &mut chunk, &mut line, &mut lent, &mut page);
}
