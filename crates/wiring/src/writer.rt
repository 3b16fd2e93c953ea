// The lines of a node, appended at a cursor.
ghost use Rattle.std.specs.Prelude.{◌≡◌, ℕ, List, [], ◌∷◌, ◌++◌, map};
ghost use Rattle.std.specs.List.{flat_map};
ghost use Rattle.text.specs.Lines.{line_text};
ghost use Rattle.wires.specs.declared.wire.PortWires.{PortWires as port_wires};
ghost use Rattle.wires.specs.declared.wire.Wire.{Wire as a_wire};
ghost use Rattle.wires.specs.Lines.{macro_line, wire_line};
ghost use Rattle.wires.specs.Ports.{listed};
ghost use Rattle.wires.specs.Wires.{upto};
ghost use Rattle.wiring.specs.Parts.{Continues, joint_lines};

use node::Macro;
use page::Cursor;
use text::LineBuffer;
use wires::{Joint, PortWires, layer_line, macro_line, wire_line};

// Appends a line with its end.
pub(crate) fn append_line(cursor: &mut Cursor, line: LineBuffer)
    ensures { (bytes : List ℕ)
        → line_text line ≡ bytes ++ (10 ∷ [])
        → Continues cursor.old (bytes ∷ []) cursor.new }
{
    cursor.append(line.as_bytes());
}

// Appends the line of a macro.
pub(crate) fn append_macro(cursor: &mut Cursor, node: u8, m: Macro)
    ensures { Continues cursor.old (macro_line node m ∷ []) cursor.new }
{
    append_line(cursor, macro_line(node, m));
}

// Appends the lines of the wires of one port.
fn append_wires(cursor: &mut Cursor, wires: PortWires)
    ensures { Continues cursor.old (map wire_line (listed wires)) cursor.new }
{
    match wires {
        PortWires::One(only) => append_line(cursor, wire_line(only)),
        PortWires::Two(first, second) => {
            append_line(cursor, wire_line(first));
            append_line(cursor, wire_line(second));
        }
    }
}

// Appends the lines of the wires of the ports below `count`.
fn append_ports<F: Fn(u8) -> PortWires>(cursor: &mut Cursor, count: u8, wires: F)
    requires { F.IsAlwaysCallable wires }
    ensures { (of : ℕ → List a_wire)
        → ((port : ℕ) (ws : port_wires) → F.post wires port ws → listed ws ≡ of port)
        → Continues cursor.old (map wire_line (flat_map of (upto count))) cursor.new }
{
    for port in 0..count {
        append_wires(cursor, wires(port));
    }
}

// Appends the lines of a layer: its own, then those of its wires.
pub(crate) fn append_layer(cursor: &mut Cursor, joint: Joint)
    ensures { Continues cursor.old (joint_lines joint) cursor.new }
{
    append_line(cursor, layer_line(joint));
    append_ports(cursor, joint.own.shape.reads, |port| joint.read_wires(port));
    append_ports(
        cursor,
        joint.own.shape.writes,
        |port| joint.write_wires(port),
    );
}
