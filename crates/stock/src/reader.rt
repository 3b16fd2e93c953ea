// The reader of a stock text.
ghost use Rattle.text.specs.Texts.{LineTold};
ghost use Rattle.stock.specs.declared.faults.StockFault.TheVariants.{Line};
ghost use Rattle.stock.specs.Lines.{LineRead};
ghost use Rattle.stock.specs.Texts.{ReadSole, StockRead};

use crate::faults::StockFault;
use crate::line::{Entry, parse};
use crate::stock::Stock;
use text::{LineFault, TextLines};

// The entry of a line, or why the line is refused by itself.
// By hand for each format: one public function for all would ask something of the parser that it is given.
fn entry_of(line: usize, bytes: Result<&[u8], LineFault>) -> Result<Entry, StockFault>
    ensures { LineTold LineRead Line line bytes.entry result }
{
    bytes
        .and_then(parse)
        .map_err(|fault| StockFault::Line { line, fault })
}

// Reads line by line, up to the first fault. A text that lists nothing is a fault.
fn read_lines(text: &[u8]) -> Result<Stock, StockFault>
    ensures { StockRead text.now result }
{
    let lines = TextLines::new(text).ok_or(StockFault::TooLong)?;
    let mut stock = Stock::new();
    for (line, bytes) in lines {
        let entry = entry_of(line, bytes)?;
        stock = stock.add(entry, line)?;
    }
    if text.is_empty() {
        return Err(StockFault::Empty);
    }
    Ok(stock)
}

/// Reads the stock that a text lists. A text without lines is a fault, and never means plenty.
pub fn read(text: &[u8]) -> Result<Stock, StockFault>
    ensures says { StockRead text.now result }
    ensures sole { ReadSole text.now result }
{
    read_lines(text)
}
