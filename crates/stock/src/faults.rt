// Why a stock text is not read.
ghost use Rattle.stock.specs.Faults.{stock_fault};

use text::{Fault, LineFault, Report};

/// Why a stock text is not read.
#[derive(Clone, Copy)]
pub enum StockFault {
    /// The text is longer than a text may be.
    TooLong,
    /// This line, from 1, is refused by itself.
    Line { line: usize, fault: LineFault },
    /// The kind of this line is listed on a line before it.
    Twice { line: usize },
    /// The text has no lines.
    Empty,
}

impl Fault for StockFault {
    ghost told = { stock_fault };

    fn report(&self) -> Report {
        match self {
            StockFault::TooLong => Report {
                number: 16,
                place: 0,
            },
            StockFault::Line { line, fault } => Report {
                number: fault.number(),
                place: *line,
            },
            StockFault::Twice { line } => Report {
                number: 13,
                place: *line,
            },
            StockFault::Empty => Report {
                number: 12,
                place: 1,
            },
        }
    }
}
