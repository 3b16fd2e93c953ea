// The planner: a sealed plan against a chip's stock, and the listing that tells what it needs.
#![tactic(auto)]

mod lines;
mod listing;

pub use listing::{Planned, plan};
pub use page::RoomFault as ListingFault;
