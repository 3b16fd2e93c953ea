// The two halves of a layer, with the layer's numbers.
ghost use Rattle.std.specs.Prelude.{◌≡◌, ◌<◌};
ghost use Rattle.std.specs.List.{slice_get};
ghost use Rattle.joint.specs.Piles.{piled};
ghost use Rattle.joint.specs.Halves.{BothEdged, Fresh, Ready, Reshaped, Unmoved};

use crate::joining::{join, node};
use crate::sizes::Joint;
use memory::Memory;
use node::{Layer, Node};

/// Two memories under a layer, and the numbers that the layer takes from them.
#[derive(Drop)]
pub struct Halves<A, B> {
    pub a: A,
    pub b: B,
    pub joint: Joint,
}

impl<A: Memory, B: Memory<Word = A::Word>> Halves<A, B> {
    /// Two configured halves under a layer; void where they do not fit.
    pub fn new(layer: Layer, a: A, b: B) -> Self
        ensures fresh { Fresh layer A.Word.Word.kind A.Memory.ordered B.Memory.ordered
            A.Memory.meaning B.Memory.meaning A.Word.Word.nought result }
        ensures shapes { Reshaped A.Memory.ordered B.Memory.ordered
            A.Memory.meaning B.Memory.meaning a b result }
    {
        let mut halves = Halves {
            a,
            b,
            joint: Joint::void(),
        };
        halves.make(layer);
        halves
    }

    /// Configures both halves, and takes the numbers from them anew; void halves stay as they are.
    pub fn configure(&mut self, layer: Layer)
        ensures fresh { 0 < self.old.joint.own.depth →
            Fresh layer A.Word.Word.kind A.Memory.ordered B.Memory.ordered
            A.Memory.meaning B.Memory.meaning A.Word.Word.nought self.new }
        ensures shapes { 0 < self.old.joint.own.depth →
            Reshaped A.Memory.ordered B.Memory.ordered
            A.Memory.meaning B.Memory.meaning self.old.a self.old.b self.new }
        ensures void { Unmoved self.old self.new }
    {
        if self.joint.own.depth > 0 {
            self.make(layer);
        }
    }

    // Configures both halves, and takes the numbers from them.
    fn make(&mut self, layer: Layer)
        ensures fresh { Fresh layer A.Word.Word.kind A.Memory.ordered B.Memory.ordered
            A.Memory.meaning B.Memory.meaning A.Word.Word.nought self.new }
        ensures shapes { Reshaped A.Memory.ordered B.Memory.ordered
            A.Memory.meaning B.Memory.meaning self.old.a self.old.b self.new }
    {
        self.a.configure();
        self.b.configure();
        self.joint = join(layer, &self.a, &self.b);
    }

    /// Node `i` of the plan of a layer over the halves: A's nodes, B's, the layer's own.
    pub fn node(&self, layer: Layer, i: usize) -> Option<Node>
        ensures { (0 < self.now.joint.own.depth →
            Ready layer A.Word.Word.kind A.Memory.ordered B.Memory.ordered
            A.Memory.meaning B.Memory.meaning self.now) →
            result ≡ slice_get (piled layer self.now.joint
            (A.Memory.meaning self.now.a).plan (B.Memory.meaning self.now.b).plan) i }
    {
        node(layer, &self.joint, &self.a, &self.b, i)
    }

    /// Ends the cycle in both halves; void halves stay as they are.
    pub fn edge(&mut self)
        ensures { BothEdged A.Memory.ordered B.Memory.ordered
            A.Memory.meaning B.Memory.meaning self.old self.new }
    {
        if self.joint.own.depth > 0 {
            self.a.edge();
            self.b.edge();
        }
    }
}
