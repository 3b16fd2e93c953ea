// The array macro: one read and one write port over a buffer of cells that is handed in.
//
// Nothing is allocated: the held word waits in a cell of the buffer too.
#![tactic(auto)]

mod array;
mod array_memory;

pub use array::{Array, MAX_WORDS};
