// How two halves are joined.
ghost use Rattle.std.specs.Prelude.{◌≡◌, ◌<◌};
ghost use Rattle.joint.specs.Fits.{Counts, FitTold, HalfOf, Joined, Live};
ghost use Rattle.std.specs.List.{slice_get};
ghost use Rattle.joint.specs.Piles.{Agreed, Measured, MeasuredIf, piled};

use crate::sizes::{Joint, Size};
use crate::verdict::Fit;
use memory::Memory;
use node::{Layer, MAX_NODES, Node, Shape};
use word::Word;

// The shape and the number of nodes of a memory that is not void.
#[derive(Clone, Copy)]
struct Half {
    shape: Shape,
    nodes: usize,
}

// A half's numbers, with none of them narrow.
impl From<Half> for Size {
    ghost from_gives = { Counts };

    fn from(half: Half) -> Size {
        Size {
            reads: half.shape.reads as usize,
            writes: half.shape.writes as usize,
            depth: half.shape.depth as usize,
            nodes: half.nodes,
        }
    }
}

impl Half {
    // The half that a layer makes of two; none where they do not fit.
    fn over(layer: Layer, first: Half, second: Half) -> Option<Half>
        requires { 0 < first.shape.depth }
        ensures live { Live result }
        ensures says { Joined layer first second result }
    {
        let nodes = first.nodes.saturating_add(second.nodes);
        if nodes >= MAX_NODES {
            return None;
        }
        let shape = layer.over(first.shape, second.shape)?;
        Some(Half {
            shape,
            nodes: nodes + 1,
        })
    }
}

// A memory as a half; none where it is void. A number that its type cannot hold does not occur in a memory
// in order, and is taken as the largest that it holds.
fn measured<M: Memory>(memory: &M) -> Option<Half>
    ensures live { Live result }
    ensures says { M.Memory.ordered memory.now →
        HalfOf M.Word.Word.kind (M.Memory.meaning memory.now) result }
{
    let depth = memory.depth();
    if depth == 0 {
        return None;
    }
    Some(Half {
        shape: Shape {
            letter: M::Word::letter(),
            reads: u8::try_from(memory.reads()).unwrap_or(u8::MAX),
            writes: u8::try_from(memory.writes()).unwrap_or(u8::MAX),
            depth: u32::try_from(depth).unwrap_or(u32::MAX),
        },
        nodes: memory.nodes(),
    })
}

// The numbers of a layer over two memories; none where they do not fit.
fn joined<A: Memory, B: Memory<Word = A::Word>>(layer: Layer, a: &A, b: &B) -> Option<Joint>
    ensures { A.Memory.ordered a.now → B.Memory.ordered b.now → MeasuredIf layer A.Word.Word.kind
        (A.Memory.meaning a.now) (B.Memory.meaning b.now) result }
{
    let first = measured(a)?;
    let second = measured(b)?;
    let own = Half::over(layer, first, second)?;
    Some(Joint {
        first: first.into(),
        second: second.into(),
        own: own.into(),
    })
}

/// Whether two memories fit under a layer: neither is void, their plans and the layer's node are at most 64
/// nodes, and their shapes are such as the check lets the layer stand over.
pub fn fit<A: Memory, B: Memory<Word = A::Word>>(layer: Layer, a: &A, b: &B) -> Fit
    ensures { A.Memory.ordered a.now → B.Memory.ordered b.now → FitTold layer A.Word.Word.kind
        (A.Memory.meaning a.now) (B.Memory.meaning b.now) result }
{
    match joined(layer, a, b) {
        Some(_) => Fit::Fits,
        None => Fit::Unfit,
    }
}

/// The numbers of a layer over two memories; a void layer's where they do not fit.
pub fn join<A: Memory, B: Memory<Word = A::Word>>(layer: Layer, a: &A, b: &B) -> Joint
    ensures { A.Memory.ordered a.now → B.Memory.ordered b.now → Measured layer A.Word.Word.kind
        (A.Memory.meaning a.now) (B.Memory.meaning b.now) result }
{
    joined(layer, a, b).unwrap_or(Joint::void())
}

/// Node `i` of the plan of a layer over two memories: A's nodes, B's, the layer's own.
pub fn node<A: Memory, B: Memory<Word = A::Word>>(
    layer: Layer,
    joint: &Joint,
    a: &A,
    b: &B,
    i: usize,
) -> Option<Node>
    ensures { (0 < joint.now.own.depth → A.Memory.ordered a.now × B.Memory.ordered b.now
        × Agreed layer A.Word.Word.kind joint.now (A.Memory.meaning a.now) (B.Memory.meaning b.now))
        → result ≡ slice_get
        (piled layer joint.now (A.Memory.meaning a.now).plan (B.Memory.meaning b.now).plan) i }
{
    if i >= joint.own.nodes {
        None
    } else if i < joint.first.nodes {
        a.node(i)
    } else if i + 1 < joint.own.nodes {
        b.node(i - joint.first.nodes)
    } else {
        Some(Node::Layer(layer))
    }
}
