// The writer of a plan text.
ghost use Rattle.plan_text.specs.Writing.{TextWritten};

use crate::faults::WriteFault;
use node::{Node, check};
use node_line::render;
use page::{Cursor, Text};

// The text of nodes.
#[derive(Clone, Copy)]
struct PlanText<'a> {
    nodes: &'a [Node],
}

impl Text for PlanText<'_> {
    ghost use Rattle.std.proofs.Common.{◌≡◌, sym, ◌∙◌};
    ghost use Rattle.plan_text.specs.Texts.{text_of};

    ghost says = { λ t bytes. bytes ≡ text_of t.nodes.now };

    ghost sole = { λ t bytes others is same. is ∙ sym same };

    fn lay(&self, cursor: &mut Cursor) {
        for node in self.nodes {
            cursor.append(render(node).as_bytes());
        }
    }
}

/// Writes the text of nodes that pass the check to the front of `out`, and says how long it is. On
/// a fault `out` is as it was; past the text it is, too.
pub fn write(nodes: &[Node], out: &mut [u8]) -> Result<usize, WriteFault>
    ensures { TextWritten nodes.now out.old out.new result }
{
    check(nodes).map_err(WriteFault::Check)?;
    page::write(&PlanText { nodes }, out).map_err(|_| WriteFault::NoRoom)
}
