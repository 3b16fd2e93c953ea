// What every layer shares: whether two halves fit, the numbers of the layer over them, and its plan.
//
// A layer owns two memories, A and B. With the numbers that it takes from them, its `Joint`, they are its
// `Halves`. The rows of the five layers are the check's own: a pile is made exactly where its plan passes.
#![tactic(auto)]

mod halves;
mod joining;
mod place;
mod sizes;
mod verdict;

pub use halves::Halves;
pub use joining::{fit, join, node};
pub use place::Place;
pub use sizes::{Joint, Size};
pub use verdict::Fit;
