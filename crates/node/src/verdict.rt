// The check of a plan: through the nodes in order, with their places.
ghost use Rattle.std.specs.Prelude.{◌≡◌, ◌+◌, ◌<◌, ◌≤◌, length};
ghost use Rattle.node.specs.Limits.{max_nodes};
ghost use Rattle.node.specs.Plans.{Checked, ShapeAt, Sole, macro_count};
ghost use Rattle.node.specs.Stacks.{Stacked};
ghost use Rattle.node.specs.declared.faults.CheckFault.TheVariants.{Node as refused_at};

use crate::faults::{CheckFault, NodeFault};
use crate::limits::MAX_NODES;
use crate::node::Node;
use crate::shape::Shape;
use crate::stack::{Stack, add};

/// What passes the check: the shape of the whole, and the number of macros.
#[derive(Clone, Copy)]
pub struct Top {
    pub shape: Shape,
    pub macros: usize,
}

/// The number of macros among the nodes.
pub fn macros(nodes: &[Node]) -> usize
    ensures { result ≡ macro_count nodes.now }
{
    nodes.iter().filter(|node| node.is_macro()).count()
}

// The fault of a plan whose node `i`, counted from 0, is refused.
fn refused(i: usize, fault: NodeFault) -> CheckFault
    requires { i < max_nodes }
    ensures { result ≡ refused_at (i + 1) fault }
{
    CheckFault::Node {
        place: i + 1,
        fault,
    }
}

// The memories that the nodes leave, or the first node that is refused.
fn stacked(nodes: &[Node]) -> Result<Stack, CheckFault>
    requires { length nodes.now ≤ max_nodes }
    ensures { Stacked nodes.now result }
{
    let mut stack = Stack::new();
    for (i, node) in nodes.iter().enumerate() {
        add(&mut stack, *node).map_err(|fault| refused(i, fault))?;
    }
    Ok(stack)
}

// Goes through the nodes, and sees what they leave.
fn judge(nodes: &[Node]) -> Result<Top, CheckFault>
    ensures { Checked nodes.now result }
{
    if nodes.is_empty() {
        return Err(CheckFault::NoNodes);
    }
    if nodes.len() > MAX_NODES {
        return Err(CheckFault::TooManyNodes);
    }
    let stack = stacked(nodes)?;
    match stack.as_slice() {
        [shape] => Ok(Top {
            shape: *shape,
            macros: macros(nodes),
        }),
        _ => Err(CheckFault::ManyMemories {
            place: nodes.len() + 1,
        }),
    }
}

/// Whether the nodes are the plan of one memory: its shape and its number of macros, or the first fault.
pub fn check(nodes: &[Node]) -> Result<Top, CheckFault>
    ensures says { Checked nodes.now result }
    ensures sole { Sole nodes.now result }
{
    judge(nodes)
}

/// The shape of the memory that ends with the node `last`, counted from 0; none where there is no
/// such node, or where it is past the 64th, or where it or one before it is refused.
pub fn shape_at(nodes: &[Node], last: usize) -> Option<Shape>
    ensures { ShapeAt nodes.now last result }
{
    if last >= nodes.len() || last >= MAX_NODES {
        return None;
    }
    stacked(&nodes[..=last]).ok()?.last().copied()
}
