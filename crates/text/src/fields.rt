// Cuts of a text into lines, and of a line into fields.
ghost use Rattle.text.specs.Fields.{Cut, NumberField};

use crate::numbers::number;

/// The bytes before the first `separator` and those past it, or none where there is no such byte.
pub fn cut(bytes: &[u8], separator: u8) -> Option<(&[u8], &[u8])>
    ensures { Cut separator bytes.now result }
{
    // By slice patterns, a rule of the project: they give a line's first field and the rest from its bytes.
    let mut left = bytes;
    let mut count = 0;
    while let [first, rest @ ..] = left {
        if *first == separator {
            return Some((&bytes[0..count], rest));
        }
        left = rest;
        count += 1;
    }
    None
}

/// The number that the first field writes, and what follows its TAB.
pub fn number_field(bytes: &[u8]) -> Option<(u128, &[u8])>
    ensures { NumberField bytes.now result }
{
    let (field, rest) = cut(bytes, b'\t')?;
    let n = number(field)?;
    Some((n, rest))
}
