// Line texts: what every format of the composer shares.
//
// A text is lines that end with byte 10, each of fields that are parted by one TAB. Here are the
// cuts into lines and fields, the numerals, the faults of a line, and the writing of lines.
#![tactic(auto)]

mod faults;
mod fields;
mod line;
mod numbers;
mod text_lines;

pub use faults::{Fault, LineFault, Report};
pub use fields::{cut, number_field};
pub use line::{LineBuffer, put};
pub use numbers::number;
pub use text_lines::TextLines;

/// The largest number of bytes that a text may have.
pub const MAX_BYTES: usize = 65_536;
