// Texts that are put together line by line in a lent buffer.
//
// The same lines measure a text and write it: in a buffer without room they are only counted. So a
// writer goes through its lines twice, and touches the buffer only where the whole text has room.
#![tactic(auto)]

mod cursor;
mod faults;
mod writing;

pub use cursor::{Cursor, append};
pub use faults::RoomFault;
pub use writing::{Text, within, write};
