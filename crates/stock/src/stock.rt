// A chip's stock, as a table by kind.
ghost use Rattle.std.specs.Prelude.{◌≡◌, ◌≤◌};
ghost use Rattle.node.specs.Limits.{max_kind};
ghost use Rattle.stock.specs.Stocks.{Added, blank, in_stock};

use crate::faults::StockFault;
use crate::line::Entry;
use node::MAX_KIND;

// One place for each kind, and one for 0, which is no kind.
const PLACES: usize = MAX_KIND as usize + 1;

/// How many macros of each kind a chip has. Reading a text is the only way to one.
#[derive(Clone, Copy)]
pub struct Stock {
    counts: [Option<u16>; PLACES],
}

impl Stock {
    // A table in which no kind is listed, to begin with.
    pub(crate) fn new() -> Stock
        ensures { result.counts ≡ blank }
    {
        Stock {
            counts: [None; PLACES],
        }
    }

    // The table with one entry more, that of this line, unless it lists the kind already.
    pub(crate) fn add(mut self, entry: Entry, line: usize) -> Result<Stock, StockFault>
        requires { entry.kind ≤ max_kind }
        ensures { Added self entry line result }
    {
        let place = entry.kind as usize;
        if self.counts[place].is_some() {
            return Err(StockFault::Twice { line });
        }
        self.counts[place] = Some(entry.count);
        Ok(self)
    }

    /// The number of macros of a kind: 0 where the kind is not listed, or is beyond the largest.
    pub fn count(&self, kind: u8) -> u16
        ensures { result ≡ in_stock self.now kind }
    {
        self.counts
            .get(kind as usize)
            .copied()
            .flatten()
            .unwrap_or(0)
    }
}
