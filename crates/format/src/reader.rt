// The reader: it carries the drawing's bytes and its place in them.
ghost use Rattle.std.specs.Prelude.{◌≡◌};
ghost use Rattle.format.specs.Format.{record_at};

use crate::Found;

#[derive(Clone, Copy)]
pub struct Reader<'a> {
    pub src: &'a [u8],
    pub at: usize,
}

impl<'a> Reader<'a> {
    pub fn new(src: &'a [u8], at: usize) -> Reader<'a>
        ensures { (result.src ≡ src.entry) × (result.at ≡ at) }
    {
        Reader { src, at }
    }

    // The record at the reader's place.
    pub fn next(self) -> Found
        ensures { result ≡ record_at self.entry.src.now self.entry.at }
    {
        crate::record_at(self.src, self.at)
    }
}

// The record at a place of the bytes: a reader made for one look. Its callers have the bytes and the place apart.
pub fn record_from(bytes: &[u8], at: usize) -> Found
    ensures { result ≡ record_at bytes.now at }
{
    Reader::new(bytes, at).next()
}
