// The line that a program prints of a fault: `fault`, the part that it lies in, its number and its place.
#![tactic(auto)]

ghost use Rattle.std.specs.Prelude.{◌≡◌, [], ◌∷◌, ◌++◌};
ghost use Rattle.text.specs.Lines.{line_text};
ghost use Rattle.fault_line.specs.Lines.{fault_text, part_name};

use text::{LineBuffer, Report};

/// What a fault lies in.
#[derive(Clone, Copy)]
pub enum Part {
    /// The plan: its text, or its nodes.
    Plan,
    /// The stock's text, or the listing.
    Stock,
    /// The netlist.
    Netlist,
}

impl Part {
    /// The word that is printed.
    // Bytes for a line, so no `Display`, which would print text.
    pub fn name(self) -> &'static [u8]
        ensures { result.now ≡ part_name self }
    {
        match self {
            Part::Plan => b"plan",
            Part::Stock => b"stock",
            Part::Netlist => b"netlist",
        }
    }
}

/// The line of a fault, with its end.
pub fn render(part: Part, report: Report) -> LineBuffer
    ensures { line_text result ≡ fault_text part report ++ (10 ∷ []) }
{
    LineBuffer::new()
        .word(b"fault\t")
        .word(part.name())
        .byte(b'\t')
        .number(report.number as u64)
        .byte(b'\t')
        .number(report.place as u64)
        .byte(b'\n')
}
