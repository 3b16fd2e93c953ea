// The two round trips: from a text to nodes and back, and from nodes to a text and back.
ghost use Rattle.plan_text.specs.Trips.{Reread, Rewritten};

use crate::faults::TripFault;
use crate::reader::read;
use crate::writer::write;
use node::Node;

/// Reads a text into `nodes` and writes it back to `out`: the same text, byte for byte.
pub fn rewrite(text: &[u8], nodes: &mut [Node], out: &mut [u8]) -> Result<usize, TripFault>
    ensures { Rewritten text.now nodes.old nodes.new out.old out.new result }
{
    let count = read(text, nodes).map_err(TripFault::Read)?;
    write(&nodes[..count], out).map_err(TripFault::Write)
}

/// Writes nodes to `out` and reads them back into `back`: the same nodes, for every plan that passes.
pub fn reread(nodes: &[Node], out: &mut [u8], back: &mut [Node]) -> Result<usize, TripFault>
    ensures { Reread nodes.now out.old out.new back.old back.new result }
{
    let size = write(nodes, out).map_err(TripFault::Write)?;
    read(&out[..size], back).map_err(TripFault::Read)
}
