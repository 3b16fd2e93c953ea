// The line of an entry in a stock text: `stock`, kind and count.
ghost use Rattle.stock.specs.Lines.{FieldsRead, Ranged, LineRead};

use node::MAX_KIND;
use text::{LineFault, number, number_field};

/// How many macros of a kind there are.
#[derive(Clone, Copy)]
pub struct Entry {
    pub kind: u8,
    pub count: u16,
}

// The numbers of a line, before their ranges are judged.
#[derive(Clone, Copy)]
struct Fields {
    kind: u128,
    count: u128,
}

// The numbers that a line writes.
fn fields_of(line: &[u8]) -> Option<Fields>
    ensures { FieldsRead line.now result }
{
    let rest = line.strip_prefix(b"stock\t")?;
    let (kind, rest) = number_field(rest)?;
    let count = number(rest)?;
    Some(Fields { kind, count })
}

// The entry with these numbers, if each is within its range. A number that its type cannot hold is out
// of range too.
fn within(fields: Fields) -> Option<Entry>
    ensures { Ranged fields result }
{
    let entry = Entry {
        kind: u8::try_from(fields.kind).ok()?,
        count: u16::try_from(fields.count).ok()?,
    };
    (1..=MAX_KIND).contains(&entry.kind).then_some(entry)
}

/// The entry that a line writes, its end left out. The whole line is judged for its form before any
/// number of it is judged for its range.
pub fn parse(line: &[u8]) -> Result<Entry, LineFault>
    ensures { LineRead line.now result }
{
    let fields = fields_of(line).ok_or(LineFault::Malformed)?;
    within(fields).ok_or(LineFault::OutOfRange)
}
