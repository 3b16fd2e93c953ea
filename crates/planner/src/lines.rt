// The lines of a listing, each with its end.
ghost use Rattle.std.specs.Prelude.{◌≡◌, [], ◌∷◌, ◌++◌};
ghost use Rattle.text.specs.Lines.{line_text};
ghost use Rattle.planner.specs.Listings.{kind_row, short_row, top_line, verdict_line};

use node::Top;
use node_line::letter_byte;
use text::LineBuffer;

// The first line of a plan with this top.
pub(crate) fn top_line(top: Top) -> LineBuffer
    ensures { line_text result ≡ top_line top ++ (10 ∷ []) }
{
    let shape = top.shape;
    LineBuffer::new()
        .word(b"top\t")
        .byte(letter_byte(shape.letter))
        .byte(b'\t')
        .number(shape.reads as u64)
        .byte(b'\t')
        .number(shape.writes as u64)
        .byte(b'\t')
        .number(shape.depth as u64)
        .byte(b'\t')
        .number(top.macros as u64)
        .byte(b'\n')
}

// The line of a kind: how many are needed, and how many are in stock.
pub(crate) fn kind_row(kind: u8, wanted: usize, there: u16) -> LineBuffer
    ensures { line_text result ≡ kind_row kind wanted there ++ (10 ∷ []) }
{
    LineBuffer::new()
        .word(b"kind\t")
        .number(kind as u64)
        .byte(b'\t')
        .number(wanted as u64)
        .byte(b'\t')
        .number(there as u64)
        .byte(b'\n')
}

// The last line where something is short: the kind, and how many are missing.
fn short_row(kind: u8, missing: usize) -> LineBuffer
    ensures { line_text result ≡ short_row kind missing ++ (10 ∷ []) }
{
    LineBuffer::new()
        .word(b"short\t")
        .number(kind as u64)
        .byte(b'\t')
        .number(missing as u64)
        .byte(b'\n')
}

// The last line.
pub(crate) fn verdict_line(short: Option<(u8, usize)>) -> LineBuffer
    ensures { line_text result ≡ verdict_line short ++ (10 ∷ []) }
{
    match short {
        Some((kind, missing)) => short_row(kind, missing),
        None => LineBuffer::new().word(b"enough\n"),
    }
}
