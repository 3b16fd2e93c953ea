// Why a plan does not pass the check.
ghost use Rattle.std.specs.Prelude.{◌≡◌};
ghost use Rattle.node.specs.Faults.{node_fault, check_fault};

use crate::limits::MAX_NODES;
use text::{Fault, Report};

/// Why a node is refused.
#[derive(Clone, Copy)]
pub enum NodeFault {
    /// A macro with a number out of its range.
    OutOfRange,
    /// A layer with fewer than two memories before it.
    TooFewMemories,
    /// A layer over halves that do not fit.
    Unfit,
}

/// Why a plan does not pass.
#[derive(Clone, Copy)]
pub enum CheckFault {
    /// There are no nodes.
    NoNodes,
    /// There is a 65th node.
    TooManyNodes,
    /// The node at this place, from 1, is refused.
    Node { place: usize, fault: NodeFault },
    /// Two memories or more are left; the place is one past the last node.
    ManyMemories { place: usize },
}

impl NodeFault {
    /// The fault's number.
    // By `match`: a number on each case would alter what `as u8` gives of it, its place from 0.
    pub fn number(self) -> u8
        ensures { result ≡ node_fault self }
    {
        match self {
            NodeFault::OutOfRange => 6,
            NodeFault::TooFewMemories => 9,
            NodeFault::Unfit => 10,
        }
    }
}

impl Fault for CheckFault {
    ghost told = { check_fault };

    fn report(&self) -> Report {
        match self {
            CheckFault::NoNodes => Report {
                number: 7,
                place: 1,
            },
            CheckFault::TooManyNodes => Report {
                number: 8,
                place: MAX_NODES + 1,
            },
            CheckFault::Node { place, fault } => Report {
                number: fault.number(),
                place: *place,
            },
            CheckFault::ManyMemories { place } => Report {
                number: 11,
                place: *place,
            },
        }
    }
}
