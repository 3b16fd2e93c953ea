// The way through the nodes of a plan.
ghost use Rattle.std.specs.Prelude.{◌<◌, ◌≤◌, length};
ghost use Rattle.arrayvec.specs.ArrayVec.{array_vec_len};
ghost use Rattle.node.specs.Limits.{max_nodes};
ghost use Rattle.wiring.specs.Parts.{Added, Lined};

use crate::stack::{Stack, join};
use crate::writer::{append_layer, append_macro};
use node::{Node, NodeFault};
use page::Cursor;
use wires::Part;

// Appends the lines of one node, and puts the memory that it makes on the stack.
fn add(stack: &mut Stack, i: u8, node: Node, cursor: &mut Cursor) -> Result<(), NodeFault>
    requires { array_vec_len stack.old < max_nodes }
    ensures { Added stack.old i node stack.new cursor.old cursor.new result }
{
    match node {
        Node::Macro(m) if m.is_in_range() => {
            append_macro(cursor, i, m);
            let shape = m.shape();
            stack.push(Part { root: i, shape });
            Ok(())
        }
        Node::Macro(_) => Err(NodeFault::OutOfRange),
        Node::Layer(layer) => {
            let joint = join(stack, layer, i)?;
            append_layer(cursor, joint);
            Ok(())
        }
    }
}

// Appends the lines of all nodes, unless one is refused.
pub(crate) fn append_nodes(nodes: &[Node], cursor: &mut Cursor) -> Result<(), NodeFault>
    requires { length nodes.now ≤ max_nodes }
    ensures { Lined nodes.now cursor.old cursor.new result }
{
    let mut stack = Stack::new();
    for (i, node) in nodes.iter().enumerate() {
        add(&mut stack, i as u8, *node, cursor)?;
    }
    Ok(())
}
