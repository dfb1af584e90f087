// The exchange of lines and replies: whatever is whole is answered before the desk waits for more, and a read or write that fails ends it.
#![tactic(auto)]

ghost use Rattle.std.specs.Prelude.{◌≤◌, IfSome};
ghost use Rattle.exchange.specs.Talks.{InBounds};

use input::{Chunk, Line, Source};
use output::{MARK, Page};
use replies::Reply;

// How far the exchange has come: the reading, how much of the page holds replies that are not written out yet, and how many lines standard error
// was told of.
#[derive(Clone, Copy)]
pub struct Talk {
    pub source: Source,
    pub used: usize,
    pub told: u64,
}

pub fn start() -> Talk
    ensures { InBounds result }
{
    let source = input::start();
    Talk {
        source,
        used: 0,
        told: 0,
    }
}

// Nothing is read or written any more.
fn over() -> Talk
    ensures { InBounds result }
{
    let source = input::closed();
    Talk {
        source,
        used: 0,
        told: 0,
    }
}

// Goes on to the next whole line; there is none any more where the input has ended, or a read or write failed. What the page holds is written out
// before a read. A proved loop has to end, so it has a last turn, which no run reaches.
pub fn next_line(
    rt: &HostRuntime,
    chunk: &mut Chunk,
    line: &mut Line,
    page: &Page,
    talk: Talk,
) -> Talk
    requires { InBounds talk }
    ensures { InBounds result }
{
    let mut source = talk.source;
    let told = talk.told;
    let mut used = talk.used;
    for _turn in 0..0x4000_0000_0000_0000u64 {
        source = input::take_line(chunk, line, source);
        if source.whole().is_some() {
            return Talk { source, used, told };
        }
        if !output::write_out(rt, page, used) {
            return over();
        }
        used = 0;
        source = input::read_on(rt, chunk, source);
        if source.whole().is_some() || !source.open {
            return Talk { source, used, told };
        }
    }
    over()
}

// Puts the reply to a line on the page. The page is written out where it is past its mark, and before something is told of the line, so that at a
// terminal the answer stands before its reason.
pub fn answer(
    rt: &HostRuntime,
    page: &mut Page,
    line: &[u8],
    lent: &[i32; 40960],
    talk: Talk,
    number: u64,
    reply: Option<Reply>,
) -> Talk
    requires in_bounds { InBounds talk }
    requires count_bound { IfSome reply (λ r. r.count ≤ 16) }
    ensures { InBounds result }
{
    let source = talk.source;
    let told = talk.told;
    let used = output::put_reply(page, talk.used, reply, lent);
    let due = telling::due(line, reply, told);
    if !due && used <= MARK {
        return Talk { source, used, told };
    }
    if !output::write_out(rt, page, used) {
        return over();
    }
    let told = if due {
        telling::tell(rt, line, number, reply, told)
    } else {
        told
    };
    Talk {
        source,
        used: 0,
        told,
    }
}
