// Texts that are measured and written by the same lines.
ghost use Rattle.std.specs.Prelude.{ℕ, List};
ghost use Rattle.page.specs.Cursors.{Lays};
ghost use Rattle.page.specs.Pages.{Within};
ghost use Rattle.page.specs.Texts.{Sole, Measured, Written};

use crate::cursor::Cursor;
use crate::faults::RoomFault;

/// A text that is laid piece by piece.
pub trait Text {
    // What its bytes are.
    ghost says: { Self → List ℕ → Type 0 };

    /// Appends the whole text, as far as it has room.
    fn lay(&self, cursor: &mut Cursor)
        ensures { Lays cursor.old (says self.now) cursor.new };

    // It says one thing.
    ghost sole: { (text : Self) → Sole (says text) };
}

/// The size of a text, if it has at most `room` bytes.
pub fn within(size: Option<usize>, room: usize) -> Option<usize>
    ensures { Within size room result }
{
    size.filter(|n| *n <= room)
}

// The size of a text, if it has at most `room` bytes: it is laid without a buffer.
fn measure<T: Text>(text: &T, room: usize) -> Option<usize>
    ensures { Measured (T.says text.now) room result }
{
    let mut cursor = Cursor::new(&mut []);
    text.lay(&mut cursor);
    within(cursor.size(), room)
}

/// Writes a text to the front of `out`, and says how long it is. Where there is no room for all of
/// it, `out` is as it was; past the text it is, too.
pub fn write<T: Text>(text: &T, out: &mut [u8]) -> Result<usize, RoomFault>
    ensures { Written (T.says text.now) out.old out.new result }
{
    let size = measure(text, out.len()).ok_or(RoomFault::NoRoom)?;
    let mut cursor = Cursor::new(out);
    text.lay(&mut cursor);
    Ok(size)
}
