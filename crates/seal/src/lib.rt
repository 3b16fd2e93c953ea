// Drafts and sealed plans.
//
// A draft is any nodes. Sealing checks them and takes the draft over: a sealed plan passed the check,
// or is the empty plan. What asks for a sealed plan takes no draft.
#![tactic(auto)]

mod plan;
mod sealing;

pub use plan::{Draft, Sealed};
