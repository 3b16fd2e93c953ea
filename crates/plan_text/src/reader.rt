// The reader of a plan text.
ghost use Rattle.text.specs.Texts.{LineTold};
ghost use Rattle.node_line.specs.Reading.{LineRead};
ghost use Rattle.plan_text.specs.declared.faults.ReadFault.TheVariants.{Line};
ghost use Rattle.plan_text.specs.Texts.{ReadSole, TextRead};

use crate::faults::ReadFault;
use node::{MAX_NODES, Node};
use node_line::parse;
use text::{LineFault, TextLines};

// The node of a line, or why the line is refused by itself.
// By hand for each format: one public function for all would ask something of the parser that it is given.
fn node_of(line: usize, bytes: Result<&[u8], LineFault>) -> Result<Node, ReadFault>
    ensures { LineTold LineRead Line line bytes.entry result }
{
    bytes
        .and_then(parse)
        .map_err(|fault| ReadFault::Line { line, fault })
}

// Reads line by line, up to the first fault.
fn read_lines(text: &[u8], nodes: &mut [Node]) -> Result<usize, ReadFault>
    ensures { TextRead text.now nodes.old nodes.new result }
{
    let lines = TextLines::new(text).ok_or(ReadFault::TooLong)?;
    let mut count = 0;
    for (line, bytes) in lines {
        let node = node_of(line, bytes)?;
        if count == MAX_NODES {
            return Err(ReadFault::TooManyNodes { line });
        }
        if count == nodes.len() {
            return Err(ReadFault::NoPlace { line });
        }
        nodes[count] = node;
        count += 1;
    }
    Ok(count)
}

/// Reads the nodes of a text into the front of `nodes`, and says how many there are. On a fault the
/// places that are filled remain; past them the buffer is as it was.
pub fn read(text: &[u8], nodes: &mut [Node]) -> Result<usize, ReadFault>
    ensures says { TextRead text.now nodes.old nodes.new result }
    ensures sole { ReadSole text.now nodes.old nodes.new result }
{
    read_lines(text, nodes)
}
