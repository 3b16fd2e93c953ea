// Why a memory's plan gets no listing.
ghost use Rattle.pile.specs.Faults.{planning_fault};

use planner::ListingFault;
use stock::StockFault;
use text::{Fault, Report};

/// Why a memory's plan gets no listing.
// Not `Either` of the two faults, whose cases would not say which is which.
#[derive(Clone, Copy)]
pub enum PlanningFault {
    /// The stock text is not read.
    Stock(StockFault),
    /// The listing is not written.
    Listing(ListingFault),
}

impl Fault for PlanningFault {
    ghost told = { planning_fault };

    fn report(&self) -> Report {
        match self {
            PlanningFault::Stock(fault) => fault.report(),
            PlanningFault::Listing(fault) => fault.report(),
        }
    }
}
