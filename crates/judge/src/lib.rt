// A plan text judged: read first, and then checked. Every program judges its plan so.
#![tactic(auto)]

ghost use Rattle.judge.specs.Judging.{Judged, plan_fault};

use node::{CheckFault, Node, check};
use plan_text::{ReadFault, read};
use text::{Fault, Report};

/// Why a plan text is refused.
// Not `Either` of the two faults, whose cases would not say which is which.
#[derive(Clone, Copy)]
pub enum PlanFault {
    /// The text is not read.
    Read(ReadFault),
    /// The nodes do not pass the check.
    Check(CheckFault),
}

impl Fault for PlanFault {
    ghost told = { plan_fault };

    fn report(&self) -> Report {
        match self {
            PlanFault::Read(fault) => fault.report(),
            PlanFault::Check(fault) => fault.report(),
        }
    }
}

/// Reads the nodes of a text into the front of `nodes`, checks them, and says how many there are. On a fault of
/// the text the places that are filled remain; past the nodes the buffer is as it was.
pub fn judge(text: &[u8], nodes: &mut [Node]) -> Result<usize, PlanFault>
    ensures { Judged text.now nodes.old nodes.new result }
{
    let count = read(text, nodes).map_err(PlanFault::Read)?;
    check(&nodes[..count]).map_err(PlanFault::Check)?;
    Ok(count)
}
