// The laws of a pile, whole, on one call.
//
// `survey` runs two lists of calls on two memories, seals the first memory's plan, plans it against a stock
// and writes its netlist. Its contract says what holds of every run on every memory, and of every plan.
#![tactic(auto)]

mod faults;
mod surveying;

pub use faults::PlanningFault;
pub use surveying::{Findings, survey};
