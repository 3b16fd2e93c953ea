// Faults: their numbers and places, and the two faults that a line of any format can have.
ghost use Rattle.std.specs.Prelude.{◌≡◌};
ghost use Rattle.text.specs.declared.faults.Report.{Report};
ghost use Rattle.text.specs.Faults.{line_fault};

/// What is printed of a fault: its number, and the line or node where it lies.
#[derive(Clone, Copy)]
pub struct Report {
    pub number: u8,
    pub place: usize,
}

/// A fault that can be printed.
pub trait Fault {
    // The number and the place of each case.
    ghost told: { Self → Report };

    fn report(&self) -> Report
        ensures { result ≡ told self.now };
}

/// Why a line is refused, whatever its format.
#[derive(Clone, Copy)]
pub enum LineFault {
    /// Not of the format.
    Malformed,
    /// Of the format, with a number beyond its range.
    OutOfRange,
}

impl LineFault {
    /// The fault's number.
    // By `match`: a number on each case would alter what `as u8` gives of it, its place from 0.
    pub fn number(self) -> u8
        ensures { result ≡ line_fault self }
    {
        match self {
            LineFault::Malformed => 5,
            LineFault::OutOfRange => 6,
        }
    }
}
