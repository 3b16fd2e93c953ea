// The register file: a macro of four read and two write ports over at most 64 words of 64 bits, which it
// holds itself.
#![tactic(auto)]

mod regfile;
mod regfile_memory;
mod slot;

pub use regfile::{MAX_WORDS, RegFile};
