// The wires of a layer, and the lines of a netlist.
//
// A port of a layer is wired to one port of a half, or to two. Nodes are numbered from 0; a plan has so few
// that a byte numbers them, and so do ports.
#![tactic(auto)]

mod lines;
mod wire;

pub use lines::{layer_line, macro_line, top_line, wire_line};
pub use wire::{Joint, Mark, Part, PortWires, Wire};
