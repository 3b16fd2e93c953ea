// The shape of a memory, and the shape of a layer over two memories that fit.
ghost use Rattle.node.specs.declared.node.Layer.TheVariants.{Replicate, Lvt, Xor, Depth, Width};
ghost use Rattle.node.specs.Nodes.{Fitted};

use crate::limits::{MAX_DEPTH, MAX_MARKS, MAX_PORTS};
use crate::node::Layer;
use word::Letter;

/// A memory's letter, its numbers of read and write ports, and its depth. The default fills the places
/// of a fixed buffer that hold no memory.
#[derive(Clone, Copy, Default)]
pub struct Shape {
    pub letter: Letter,
    pub reads: u8,
    pub writes: u8,
    pub depth: u32,
}

impl Layer {
    /// The shape of the layer over halves `a` and `b`, or none where they do not fit.
    pub fn over(self, a: Shape, b: Shape) -> Option<Shape>
        ensures { Fitted self a b result }
    {
        match self {
            Layer::Replicate => replicate(a, b),
            Layer::Lvt => lvt(a, b),
            Layer::Xor => xor(a, b),
            Layer::Depth => depth(a, b),
            Layer::Width => width(a, b),
        }
    }
}

// The read ports of both halves; a write goes to both.
fn replicate(a: Shape, b: Shape) -> Option<Shape>
    ensures { Fitted Replicate a b result }
{
    let reads = a.reads as u32 + b.reads as u32;
    let fits = a.letter == b.letter
        && a.depth == b.depth
        && a.writes == b.writes
        && reads <= MAX_PORTS as u32;
    fits.then(|| Shape {
        reads: reads as u8,
        ..a
    })
}

// The write ports of both halves; a mark for each address names the half that was written last.
fn lvt(a: Shape, b: Shape) -> Option<Shape>
    ensures { Fitted Lvt a b result }
{
    let writes = a.writes as u32 + b.writes as u32;
    let fits = a.letter == b.letter
        && a.depth == b.depth
        && a.depth <= MAX_MARKS
        && a.reads == b.reads
        && writes <= MAX_PORTS as u32;
    fits.then(|| Shape {
        writes: writes as u8,
        ..a
    })
}

// The write ports of both halves; each takes a recovery read of the other half.
fn xor(a: Shape, b: Shape) -> Option<Shape>
    ensures { Fitted Xor a b result }
{
    let writes = a.writes as u32 + b.writes as u32;
    let fits = a.letter == b.letter
        && a.letter.is_summed()
        && a.depth == b.depth
        && a.reads > b.writes
        && b.reads > a.writes
        && writes <= MAX_PORTS as u32;
    fits.then(|| Shape {
        reads: (a.reads - b.writes).min(b.reads - a.writes),
        writes: writes as u8,
        ..a
    })
}

// The addresses of the first half, then those of the second.
fn depth(a: Shape, b: Shape) -> Option<Shape>
    ensures { Fitted Depth a b result }
{
    let depth = a.depth as u64 + b.depth as u64;
    let fits = a.letter == b.letter
        && a.reads == b.reads
        && a.writes == b.writes
        && depth <= MAX_DEPTH as u64;
    fits.then(|| Shape {
        depth: depth as u32,
        ..a
    })
}

// A word of 64 bits from two of 32.
fn width(a: Shape, b: Shape) -> Option<Shape>
    ensures { Fitted Width a b result }
{
    let fits = a.letter == Letter::H
        && b.letter == Letter::H
        && a.depth == b.depth
        && a.reads == b.reads
        && a.writes == b.writes;
    fits.then(|| Shape {
        letter: Letter::B,
        ..a
    })
}
