// Plans: the nodes of a pile of memories, and the check that judges them.
//
// A node is a macro of the chip or a layer over two memories. The nodes of a pile are those of its
// first half, those of its second, and its own layer.
#![tactic(auto)]

mod faults;
mod limits;
mod node;
mod shape;
mod stack;
mod verdict;

pub use faults::{CheckFault, NodeFault};
pub use limits::{MAX_DEPTH, MAX_KIND, MAX_MARKS, MAX_NODES, MAX_PORTS};
pub use node::{Layer, Macro, Node};
pub use shape::Shape;
pub use verdict::{Top, check, macros, shape_at};
