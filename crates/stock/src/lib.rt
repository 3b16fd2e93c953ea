// A chip's stock: how many macros of each kind it has. A reader of stock texts, and the comparison of
// a plan's needs with a stock.
#![tactic(auto)]

mod faults;
mod line;
mod needs;
mod reader;
mod stock;

pub use faults::StockFault;
pub use line::{Entry, parse};
pub use needs::{needed, shortage};
pub use reader::read;
pub use stock::Stock;
