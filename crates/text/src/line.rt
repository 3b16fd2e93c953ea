// Lines that are written: made up in a small buffer of their own, then put into a lent one.
ghost use Rattle.std.specs.Prelude.{◌≡◌, [], ◌∷◌, decimal};
ghost use Rattle.text.specs.Lines.{line_text, Adds, PutAt};

use itoa::Buffer;

/// The largest number of bytes that a line buffer holds. No format has a longer line.
const LINE_BYTES: usize = 64;

/// A line that is being made up. It keeps the first 64 bytes of what is added to it.
// An array with a length beside it: no line is on a heap, and the type is `Copy` to its users, as no `ArrayVec` is.
#[derive(Clone, Copy)]
pub struct LineBuffer {
    bytes: [u8; LINE_BYTES],
    len: usize,
}

// Lines are printed by these and not by `write!`, which would give a result to judge where no line can fail.
impl LineBuffer {
    /// A line with nothing in it.
    pub fn new() -> LineBuffer
        ensures { line_text result ≡ [] }
    {
        LineBuffer {
            bytes: [0; LINE_BYTES],
            len: 0,
        }
    }

    /// The line with one byte more.
    pub fn byte(mut self, byte: u8) -> LineBuffer
        ensures { Adds (line_text self) (byte ∷ []) (line_text result) }
    {
        if self.len < LINE_BYTES {
            self.bytes[self.len] = byte;
            self.len += 1;
        }
        self
    }

    /// The line with a word more.
    pub fn word(self, word: &[u8]) -> LineBuffer
        ensures { Adds (line_text self) word.now (line_text result) }
    {
        let mut line = self;
        for b in word {
            line = line.byte(*b);
        }
        line
    }

    /// The line with the decimal digits of a number more.
    pub fn number(self, n: u64) -> LineBuffer
        ensures { Adds (line_text self) (decimal n) (line_text result) }
    {
        self.word(Buffer::new().format(n).as_bytes())
    }

    /// The bytes of the line.
    pub fn as_bytes(&self) -> &[u8]
        ensures { result.now ≡ line_text self.now }
    {
        let end = self.len.min(LINE_BYTES);
        &self.bytes[0..end]
    }
}

/// Puts `bytes` into `out` at `at`, and says where they end; none, and `out` stays as it was, where
/// there is no room for all of them.
pub fn put(out: &mut [u8], at: usize, bytes: &[u8]) -> Option<usize>
    ensures { PutAt out.old out.new at bytes.now result }
{
    let end = at.checked_add(bytes.len())?;
    if end > out.len() {
        return None;
    }
    out[at..end].copy_from_slice(bytes);
    Some(end)
}
