// The input's lines, one after another; the last may lack its newline.
#![tactic(auto)]

ghost use Rattle.std.specs.Prelude.{◌≡◌, ◌≤◌, length, MatchOption};
ghost use Rattle.input.specs.Sources.{long, IsWhole, InReach};

// What is read at a time.
pub type Chunk = [u8; 65536];

// A line without its newline: a byte more than the longest that is taken, so that a longer one is known.
pub type Line = [u8; 400001];

// So many bytes of a line have come: a part of it, or all.
#[derive(Clone, Copy)]
pub enum Come {
    Part(usize),
    Whole(usize),
}

// How far the reading has come: the chunk's bytes that are not taken yet go from `from` to `to`, and of the line so many bytes have come. Whether the
// input may go on is a flag of its own: the last line is whole when it has ended.
#[derive(Clone, Copy)]
pub struct Source {
    pub from: usize,
    pub to: usize,
    pub come: Come,
    pub open: bool,
}

pub fn start() -> Source
    ensures { InReach result }
{
    Source {
        from: 0,
        to: 0,
        come: Come::Part(0),
        open: true,
    }
}

// Nothing is read any more, and a part of a line is dropped.
pub fn closed() -> Source
    ensures { InReach result }
{
    Source {
        from: 0,
        to: 0,
        come: Come::Part(0),
        open: false,
    }
}

impl Source {
    // How long the line is, if it is whole.
    pub fn whole(&self) -> Option<usize>
        ensures { MatchOption result (IsWhole self.now.come → ⊥) (λ n. IsWhole self.now.come × (n ≡ long self.now.come)) }
    {
        match self.come {
            Come::Part(_) => None,
            Come::Whole(have) => Some(have),
        }
    }
}

// Puts a part of the chunk behind the line so far. A line that is too long fills its place, and the rest of it is dropped.
fn take(line: &mut [u8], have: usize, part: &[u8]) -> usize
    requires { have ≤ length line.old }
    ensures { result ≤ length line.old }
{
    let left = line.len() - have;
    if left < part.len() {
        return text::put(line, have, &part[..left]);
    }
    text::put(line, have, part)
}

// Takes what the chunk has of the next line, or of the line that is not whole yet.
pub fn take_line(chunk: &Chunk, line: &mut Line, source: Source) -> Source
    requires { InReach source }
    ensures { InReach result }
{
    let to = source.to;
    let have = match source.come {
        Come::Part(have) => have,
        Come::Whole(_) => 0,
    };
    let stop = text::find(&chunk[..to], source.from, b'\n');
    let have = take(line, have, &chunk[source.from..stop]);
    let (from, come) = if stop < to {
        (stop + 1, Come::Whole(have))
    } else {
        (to, Come::Part(have))
    };
    Source {
        from,
        to,
        come,
        open: source.open,
    }
}

// Reads the next chunk when all of the last is taken. Where the input ends, a line without a newline is whole, unless it is nothing; where a read
// fails, there is no line.
pub fn read_on(rt: &HostRuntime, chunk: &mut Chunk, source: Source) -> Source
    requires { InReach source }
    ensures { InReach result }
{
    if !source.open {
        return closed();
    }
    let Some(to) = streams::read_some(rt, chunk) else {
        return closed();
    };
    let have = match source.come {
        Come::Part(have) => have,
        Come::Whole(have) => have,
    };
    let come = if to == 0 && have != 0 {
        Come::Whole(have)
    } else {
        Come::Part(have)
    };
    Source {
        from: 0,
        to,
        come,
        open: to != 0,
    }
}

// Goes on to the next whole line; there is none any more where the input has ended or a read failed. A proved loop has to end, so it has a last turn,
// which no run reaches.
pub fn next_line(rt: &HostRuntime, chunk: &mut Chunk, line: &mut Line, source: Source) -> Source
    requires { InReach source }
    ensures { InReach result }
{
    let mut source = source;
    for _turn in 0..0x4000_0000_0000_0000u64 {
        source = take_line(chunk, line, source);
        if source.whole().is_some() {
            return source;
        }
        source = read_on(rt, chunk, source);
        if source.whole().is_some() || !source.open {
            return source;
        }
    }
    closed()
}
