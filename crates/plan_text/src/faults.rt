// Why a plan text is not read or not written.
ghost use Rattle.plan_text.specs.Faults.{read_fault, trip_fault, write_fault};

use node::CheckFault;
use text::{Fault, LineFault, Report};

/// Why a plan text is not read.
#[derive(Clone, Copy)]
pub enum ReadFault {
    /// The text is longer than a text may be.
    TooLong,
    /// This line, from 1, is refused by itself.
    Line { line: usize, fault: LineFault },
    /// This line would be the 65th node.
    TooManyNodes { line: usize },
    /// The node buffer has no place for the node of this line.
    NoPlace { line: usize },
}

/// Why the text of nodes is not written.
#[derive(Clone, Copy)]
pub enum WriteFault {
    /// The nodes do not pass the check.
    Check(CheckFault),
    /// The buffer is too short for the text.
    NoRoom,
}

/// Why a trip from text to nodes and back, or from nodes to text and back, ends on the way.
// Not `Either` of the two faults, whose cases would not say which is which.
#[derive(Clone, Copy)]
pub enum TripFault {
    /// The text is not read.
    Read(ReadFault),
    /// The nodes are not written.
    Write(WriteFault),
}

impl Fault for ReadFault {
    ghost told = { read_fault };

    fn report(&self) -> Report {
        match self {
            ReadFault::TooLong => Report {
                number: 16,
                place: 0,
            },
            ReadFault::Line { line, fault } => Report {
                number: fault.number(),
                place: *line,
            },
            ReadFault::TooManyNodes { line } => Report {
                number: 8,
                place: *line,
            },
            ReadFault::NoPlace { line } => Report {
                number: 14,
                place: *line,
            },
        }
    }
}

impl Fault for WriteFault {
    ghost told = { write_fault };

    fn report(&self) -> Report {
        match self {
            WriteFault::Check(fault) => fault.report(),
            WriteFault::NoRoom => Report {
                number: 14,
                place: 0,
            },
        }
    }
}

impl Fault for TripFault {
    ghost told = { trip_fault };

    fn report(&self) -> Report {
        match self {
            TripFault::Read(fault) => fault.report(),
            TripFault::Write(fault) => fault.report(),
        }
    }
}
