// Why a text is not written.
ghost use Rattle.page.specs.Faults.{room_fault};

use text::{Fault, Report};

/// Why a text is not written.
#[derive(Clone, Copy)]
pub enum RoomFault {
    /// The buffer is too short for the text.
    NoRoom,
}

impl Fault for RoomFault {
    ghost told = { room_fault };

    fn report(&self) -> Report {
        match self {
            RoomFault::NoRoom => Report {
                number: 14,
                place: 0,
            },
        }
    }
}
