// The lines of a text, one after another.
ghost use Rattle.std.specs.Prelude.{◌+◌, ◌≤◌, length};
ghost use Rattle.std.specs.Iterator.{at_most};
ghost use Rattle.text.specs.Faults.{max_bytes};

use crate::MAX_BYTES;
use crate::faults::LineFault;
use crate::fields::cut;

/// The lines of a text that are still to come, each with its number from 1 and without its end. A last
/// line that has no end is malformed.
#[derive(Drop)]
pub struct TextLines<'a> {
    left: &'a [u8],
    number: usize,
    ghost few: { number + length left.now ≤ max_bytes + 1 },
}

impl<'a> TextLines<'a> {
    ghost use Rattle.text.specs.Texts.{LinesOf};

    /// The lines of a text, or none where it is longer than a text may be.
    pub fn new(text: &'a [u8]) -> Option<TextLines<'a>>
        ensures { LinesOf text.now result }
    {
        if text.len() > MAX_BYTES {
            return None;
        }
        Some(TextLines {
            left: text,
            number: 1,
        })
    }
}

impl<'a> Iterator for TextLines<'a> {
    ghost use Rattle.text.specs.Texts.{LineComes};

    type Item = (usize, Result<&'a [u8], LineFault>);

    ghost next_gives = { LineComes };

    ghost remaining = { λ s. at_most (length s.left.now) };

    fn next(&mut self) -> Option<(usize, Result<&'a [u8], LineFault>)> {
        if self.left.is_empty() {
            return None;
        }
        let number = self.number;
        match cut(self.left, b'\n') {
            Some((line, rest)) => {
                self.left = rest;
                self.number += 1;
                Some((number, Ok(line)))
            }
            None => {
                self.left = &[];
                Some((number, Err(LineFault::Malformed)))
            }
        }
    }
}
