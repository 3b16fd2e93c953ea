// The memories that the nodes so far have made.
ghost use Rattle.std.specs.Prelude.{◌≤◌};
ghost use Rattle.arrayvec.specs.ArrayVec.{array_vec_len};
ghost use Rattle.node.specs.Limits.{max_nodes};
ghost use Rattle.wiring.specs.Parts.{Joined};

use arrayvec::ArrayVec;
use node::{Layer, MAX_NODES, NodeFault};
use wires::{Joint, Part};

// The memories that the nodes so far have made, the last one on top.
pub(crate) type Stack = ArrayVec<Part, MAX_NODES>;

// The layer at a node over the two memories on top; what it makes takes their place. The check's own `join` keeps no
// node: one function for both would be given what to keep, as a closure, and the halves back.
pub(crate) fn join(stack: &mut Stack, layer: Layer, node: u8) -> Result<Joint, NodeFault>
    requires { array_vec_len stack.old ≤ max_nodes }
    ensures { Joined stack.old layer node stack.new result }
{
    // One refusal for both: two `ok_or` would name it twice.
    let (Some(b), Some(a)) = (stack.pop(), stack.pop()) else {
        return Err(NodeFault::TooFewMemories);
    };
    let shape = layer.over(a.shape, b.shape).ok_or(NodeFault::Unfit)?;
    let own = Part { root: node, shape };
    stack.push(own);
    Ok(Joint { layer, own, a, b })
}
