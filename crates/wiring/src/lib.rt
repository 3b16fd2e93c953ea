// The netlist of a sealed plan: which port of each node is wired to which port below.
#![tactic(auto)]

mod drawing;
mod nodes;
mod stack;
mod writer;

pub use drawing::netlist;
pub use page::RoomFault as NetlistFault;
