// The four word kinds that a memory may hold: 32 bits, 64 bits, a stereo sample and an order.
// All have codes, and all but the orders are groups.
#![tactic(auto)]

mod bits32;
mod bits32_word;
mod bits64;
mod bits64_word;
mod order;
mod order_word;
mod stereo;
mod stereo_word;

pub use bits32::Bits32;
pub use bits64::Bits64;
pub use order::Order;
pub use stereo::Stereo;
