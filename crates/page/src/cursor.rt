// How far a text is put together in a lent buffer.
ghost use Rattle.std.specs.Prelude.{◌≡◌};
ghost use Rattle.page.specs.Cursors.{Starts, Appends};
ghost use Rattle.page.specs.Pages.{Appended};

use text::put;

/// Puts `bytes` into `out` at `at` where they have room, and says where they end, with room or
/// without; none, from then on, where that is past all numbers.
pub fn append(out: &mut [u8], at: Option<usize>, bytes: &[u8]) -> Option<usize>
    ensures { Appended out.old out.new at bytes.now result }
{
    let start = at?;
    put(out, start, bytes).or(start.checked_add(bytes.len()))
}

/// A lent buffer with a text at its front, and where the text ends: with room or without, and none
/// from then on where that is past all numbers.
#[derive(Drop)]
pub struct Cursor<'a> {
    out: &'a mut [u8],
    end: Option<usize>,
}

impl<'a> Cursor<'a> {
    /// The start of a buffer, with no text yet.
    pub fn new(out: &'a mut [u8]) -> Cursor<'a>
        ensures { Starts out.entry result }
    {
        Cursor { out, end: Some(0) }
    }

    /// Puts `bytes` after the text where they have room, and counts them with room or without.
    pub fn append(&mut self, bytes: &[u8])
        ensures { Appends self.old bytes.now self.new }
    {
        let Cursor { out, end } = self;
        *end = append(out, *end, bytes);
    }

    /// The size of the text; none where it is past all numbers.
    pub fn size(&self) -> Option<usize>
        ensures { result ≡ self.now.end }
    {
        self.end
    }
}
