// What a memory is, for any word kind and any implementation.
//
// A memory has read ports, write ports and a depth, a word at each address, and a plan that says of which
// macros and layers it is made. Within a cycle each port serves one call; the edge ends the cycle. What
// each call answers and leaves stands in the contracts of the trait, and everything above a memory is
// proved from them alone.
#![tactic(auto)]

mod memory;
mod refusal;

pub use memory::Memory;
pub use refusal::Refusal;
