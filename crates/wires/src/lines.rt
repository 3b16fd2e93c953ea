// The lines of a netlist.
ghost use Rattle.std.specs.Prelude.{◌≡◌, [], ◌∷◌, ◌++◌};
ghost use Rattle.text.specs.Lines.{line_text, Adds};
ghost use Rattle.wires.specs.Lines.{mark_byte, shape_end, macro_line, layer_line, wire_line, top_line};

use crate::wire::{Joint, Mark, Wire};
use node::{Macro, Shape};
use node_line::{layer_name, letter_byte};
use text::LineBuffer;

// The byte of a mark.
impl From<Mark> for u8 {
    ghost from_gives = { λ mark byte. byte ≡ mark_byte mark };

    fn from(mark: Mark) -> u8 {
        match mark {
            Mark::Read => b'r',
            Mark::Write => b'w',
            Mark::Recovery => b'v',
        }
    }
}

// The line with a memory's ports and depth more, and its end.
fn shape_end(line: LineBuffer, shape: Shape) -> LineBuffer
    ensures { Adds (line_text line) (shape_end shape) (line_text result) }
{
    line.byte(b'\t')
        .number(shape.reads as u64)
        .byte(b'\t')
        .number(shape.writes as u64)
        .byte(b'\t')
        .number(shape.depth as u64)
        .byte(b'\n')
}

/// The line of a macro at a node, with its end.
pub fn macro_line(node: u8, m: Macro) -> LineBuffer
    ensures { line_text result ≡ macro_line node m ++ (10 ∷ []) }
{
    let line = LineBuffer::new()
        .word(b"macro")
        .byte(b'\t')
        .number(node as u64)
        .byte(b'\t')
        .number(m.kind as u64)
        .byte(b'\t')
        .byte(letter_byte(m.letter));
    shape_end(line, m.shape())
}

/// The line of a layer, with its end.
pub fn layer_line(joint: Joint) -> LineBuffer
    ensures { let j = joint in
        line_text result ≡ layer_line j.layer j.own.root j.a.root j.b.root j.own.shape ++ (10 ∷ []) }
{
    let line = LineBuffer::new()
        .word(layer_name(joint.layer))
        .byte(b'\t')
        .number(joint.own.root as u64)
        .byte(b'\t')
        .number(joint.a.root as u64)
        .byte(b'\t')
        .number(joint.b.root as u64);
    shape_end(line, joint.own.shape)
}

/// The line of a wire, with its end.
pub fn wire_line(wire: Wire) -> LineBuffer
    ensures { line_text result ≡ wire_line wire ++ (10 ∷ []) }
{
    LineBuffer::new()
        .byte(wire.mark.into())
        .byte(b'\t')
        .number(wire.node as u64)
        .byte(b'\t')
        .number(wire.port as u64)
        .byte(b'\t')
        .number(wire.half as u64)
        .byte(b'\t')
        .number(wire.inner as u64)
        .byte(b'\n')
}

/// The last line, of the last node and the number of macros, with its end.
pub fn top_line(last: u8, macros: usize) -> LineBuffer
    ensures { line_text result ≡ top_line last macros ++ (10 ∷ []) }
{
    LineBuffer::new()
        .word(b"top")
        .byte(b'\t')
        .number(last as u64)
        .byte(b'\t')
        .number(macros as u64)
        .byte(b'\n')
}
