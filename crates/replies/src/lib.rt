// A reply: what the desk says to one line, as a value. A command makes it; how it is put on a line stands in `output`.
#![tactic(auto)]

ghost use Rattle.std.specs.Prelude.{◌+◌, ◌≤◌, ◌<◌};
ghost use Rattle.replies.specs.Replies.{none, ◌and◌, number, float, plain, with_window, field_of, said, Says};

use grid::Window;

// A field, as it is written: a number, a number with a minus, or the eight hexadecimal digits of an f32's bits.
#[derive(Clone, Copy)]
pub enum Field {
    Plain(u64),
    Minus(u64),
    Bits(u32),
}

// Its first `count` fields; behind them come the first `room` numbers of the output that was lent.
#[derive(Clone, Copy)]
pub struct Reply {
    pub count: usize,
    pub fields: [Field; 16],
    pub room: usize,
}

// How every answer begins: with the refusal's number and place.
pub fn begin(number: u8, place: usize) -> Reply
    ensures { Says result 2 (none and plain number and plain place) 0 }
{
    empty().natural(number as u64).natural(place as u64)
}

fn empty() -> Reply
    ensures { Says result 0 none 0 }
{
    Reply {
        count: 0,
        fields: [Field::Plain(0); 16],
        room: 0,
    }
}

impl Reply {
    // One field more. A reply has places for sixteen, so a command that says more is refused.
    fn field(mut self, field: Field) -> Self
        requires { self.count < 16 }
        ensures { Says result (self.count + 1) (said self and field_of field) self.room }
    {
        self.fields[self.count] = field;
        self.count += 1;
        self
    }

    pub fn natural(self, n: u64) -> Self
        requires { self.count < 16 }
        ensures { Says result (self.count + 1) (said self and plain n) self.room }
    {
        self.field(Field::Plain(n))
    }

    pub fn wide(self, z: i64) -> Self
        requires { self.count < 16 }
        ensures { Says result (self.count + 1) (said self and number z) self.room }
    {
        let size = whole::size(z);
        self.field(if z < 0 {
            Field::Minus(size)
        } else {
            Field::Plain(size)
        })
    }

    pub fn integer(self, z: i32) -> Self
        requires { self.count < 16 }
        ensures { Says result (self.count + 1) (said self and number z) self.room }
    {
        self.wide(z as i64)
    }

    pub fn bits(self, bits: u32) -> Self
        requires { self.count < 16 }
        ensures { Says result (self.count + 1) (said self and float bits) self.room }
    {
        self.field(Field::Bits(bits))
    }

    pub fn window(self, w: Window) -> Self
        requires { self.count + 4 ≤ 16 }
        ensures { Says result (self.count + 4) (with_window (said self) w) self.room }
    {
        self.integer(w.left)
            .integer(w.bottom)
            .integer(w.right)
            .integer(w.top)
    }

    // The answer ends with the first `room` numbers of the output that was lent.
    pub fn lent(mut self, room: usize) -> Self
        ensures { Says result self.count (said self) room }
    {
        self.room = room;
        self
    }
}
