// The netlist of a sealed plan.
ghost use Rattle.std.specs.Prelude.{Some};
ghost use Rattle.seal.specs.Sound.{Sound};
ghost use Rattle.wiring.specs.Counting.{MacrosCounted};
ghost use Rattle.wiring.specs.Netlists.{NetlistWritten, NetlistSole};

use crate::NetlistFault;
use crate::nodes::append_nodes;
use crate::writer::append_line;
use node::{Node, Top};
use page::{Cursor, Text, write};
use seal::Sealed;
use wires::top_line;

// The netlist of a sealed plan that is not empty.
#[derive(Clone, Copy)]
struct Drawing<'a> {
    nodes: &'a [Node],
    top: Top,
    ghost sound: { ∥ Sound nodes.now (Some top) ∥₁ },
}

impl Text for Drawing<'_> {
    ghost use Rattle.wiring.specs.Netlists.{NetlistText};
    ghost use Rattle.wiring.specs.Walking.{text_sole};

    ghost says = { λ n bytes. NetlistText n.nodes.now n.top bytes };

    ghost sole = { λ n bytes others. text_sole n.nodes.now n.top bytes others };

    // No node of a sealed plan is refused.
    fn lay(&self, cursor: &mut Cursor) {
        let _ = append_nodes(self.nodes, cursor);
        let last = self.nodes.len() - 1;
        append_line(cursor, top_line(last as u8, self.top.macros));
    }
}

// Writes the netlist, where it has room.
fn written(plan: &Sealed, out: &mut [u8]) -> Result<usize, NetlistFault>
    ensures { NetlistWritten plan.now.nodes.now plan.now.top out.old out.new result }
{
    match plan.top() {
        Some(top) => {
            let nodes = plan.nodes();
            write(&Drawing { nodes, top }, out)
        }
        None => Ok(0),
    }
}

/// Writes the netlist of a plan, which it takes over, to the front of `out`, and says how long it is.
/// Where there is no room for all of it, `out` is as it was; past the text it is, too. The empty plan
/// has an empty netlist.
pub fn netlist(plan: Sealed, out: &mut [u8]) -> Result<usize, NetlistFault>
    ensures says { NetlistWritten plan.entry.nodes.now plan.entry.top out.old out.new result }
    ensures macros { MacrosCounted plan.entry.top out.new result }
    ensures sole { NetlistSole plan.entry.nodes.now plan.entry.top out.old out.new result }
{
    written(&plan, out)
}
