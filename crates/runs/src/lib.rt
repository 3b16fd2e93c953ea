// Runs: lists of calls tried on a memory after its configure, and the laws that hold of them.
//
// The laws speak of calls and answers alone. An accepted read gives the word of the latest accepted write
// to its address before the last edge, or zero; a call is refused exactly when a rule refuses it, and for
// the first such rule. A run without its refused calls, and with the reads and writes of each cycle in
// any order, gets the same answers and ends the same, on any memory with as many ports and addresses.
#![tactic(auto)]

mod call;
mod runner;

pub use call::{Answer, Call, attempt};
pub use runner::{run, run_both};
