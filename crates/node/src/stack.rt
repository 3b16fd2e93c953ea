// The stack of the check: the memories that the nodes so far have made.
ghost use Rattle.std.specs.Prelude.{◌<◌, ◌≤◌};
ghost use Rattle.arrayvec.specs.ArrayVec.{array_vec_len};
ghost use Rattle.node.specs.declared.node.Node.TheVariants.{Layer as layer_node};
ghost use Rattle.node.specs.Limits.{max_nodes};
ghost use Rattle.node.specs.Stacks.{Added};

use crate::faults::NodeFault;
use crate::limits::MAX_NODES;
use crate::node::{Layer, Node};
use crate::shape::Shape;
use arrayvec::ArrayVec;

// The memories that the nodes so far have made, the last one on top.
pub(crate) type Stack = ArrayVec<Shape, MAX_NODES>;

// A layer in the place of the two memories on top.
fn join(stack: &mut Stack, layer: Layer) -> Result<(), NodeFault>
    requires { array_vec_len stack.old ≤ max_nodes }
    ensures { Added stack.old (layer_node layer) stack.new result }
{
    // One refusal for both: two `ok_or` would name it twice.
    let (Some(b), Some(a)) = (stack.pop(), stack.pop()) else {
        return Err(NodeFault::TooFewMemories);
    };
    let shape = layer.over(a, b).ok_or(NodeFault::Unfit)?;
    stack.push(shape);
    Ok(())
}

// The stack after one node more: a macro is one memory more, and a layer takes the two on top.
pub(crate) fn add(stack: &mut Stack, node: Node) -> Result<(), NodeFault>
    requires { array_vec_len stack.old < max_nodes }
    ensures { Added stack.old node stack.new result }
{
    match node {
        Node::Macro(m) if m.is_in_range() => {
            stack.push(m.shape());
            Ok(())
        }
        Node::Macro(_) => Err(NodeFault::OutOfRange),
        Node::Layer(layer) => join(stack, layer),
    }
}
