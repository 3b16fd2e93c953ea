// Nodes of a plan.
ghost use Rattle.std.specs.Prelude.{◌≡◌, ◌↔◌, IsTrue};
ghost use Rattle.node.specs.Nodes.{InRange, shape_of, is_macro};

use crate::limits::{MAX_DEPTH, MAX_KIND, MAX_PORTS};
use crate::shape::Shape;
use word::Letter;

/// A macro of the chip. Kind 1 is the array macro and kind 2 the register file; the others are known
/// to the planner and the netlist alone.
#[derive(Clone, Copy, PartialEq, Eq)]
pub struct Macro {
    pub kind: u8,
    pub letter: Letter,
    pub reads: u8,
    pub writes: u8,
    pub depth: u32,
}

/// The name of a layer over two memories.
#[derive(Clone, Copy, PartialEq, Eq)]
pub enum Layer {
    Replicate,
    Lvt,
    Xor,
    Depth,
    Width,
}

/// A node of a plan.
#[derive(Clone, Copy, PartialEq, Eq)]
pub enum Node {
    Macro(Macro),
    Layer(Layer),
}

impl Macro {
    /// Whether every number is in its range.
    pub fn is_in_range(&self) -> bool
        ensures { IsTrue result ↔ InRange self.now }
    {
        matches!(
            (self.kind, self.reads, self.writes, self.depth),
            (1..=MAX_KIND, 1..=MAX_PORTS, 1..=MAX_PORTS, 1..=MAX_DEPTH)
        )
    }

    /// The macro's letter, ports and depth.
    pub fn shape(&self) -> Shape
        ensures { result ≡ shape_of self.now }
    {
        Shape {
            letter: self.letter,
            reads: self.reads,
            writes: self.writes,
            depth: self.depth,
        }
    }
}

impl Node {
    /// Whether the node is a macro.
    pub fn is_macro(&self) -> bool
        ensures { result ≡ is_macro self.now }
    {
        matches!(self, Node::Macro(_))
    }
}
