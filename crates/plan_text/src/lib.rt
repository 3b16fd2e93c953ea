// Plan texts: one line for each node. A reader, a writer, and the two round trips between them.
#![tactic(auto)]

mod faults;
mod reader;
mod trips;
mod writer;

pub use faults::{ReadFault, TripFault, WriteFault};
pub use reader::read;
pub use trips::{reread, rewrite};
pub use writer::write;
