// The replicate layer: two memories of the same words, with the read ports of both.
//
// Every write goes to both halves, so that each read port has a copy of its own to read.
#![tactic(auto)]

ghost use Rattle.std.specs.Prelude.{refl};
ghost use Rattle.node.specs.declared.node.Layer.TheVariants.{Replicate as own};
ghost use Rattle.replicate.specs.Replicate.{Paired, replicated};
ghost use Rattle.replicate.specs.Tidy.{edged_layer, tidy_layer};

use joint::{Halves, Place};
use layered::{Layered, Rule};
use memory::{Memory, Refusal};
use node::Layer;

/// Two memories of the same words, with the read ports of both.
pub type Replicate<A, B> = Layered<ReplicateRule, A, B>;

/// The rule of the layer: each write goes to both halves.
#[derive(Drop)]
pub struct ReplicateRule;

impl<A: Memory, B: Memory<Word = A::Word>> Rule<A, B> for ReplicateRule {
    type Word = A::Word;

    ghost own = { own };

    ghost pairs = { λ r j. Paired };

    ghost means = { λ r. replicated };

    ghost framed = { λ r j a b. refl };

    ghost letter = { λ a b. refl };

    ghost tidy = { λ r j a b h.
        tidy_layer A.Word.Word.kind j a b (λ live. let k = h live in (k.0, k.2)) };

    ghost edged = { λ r r' j a b a' b' g s t h _. edged_layer A.Word.Word.kind j a b a' b' g h };

    fn layer() -> Layer {
        Layer::Replicate
    }

    fn start() -> Self {
        ReplicateRule
    }

    fn is_used(&self, halves: &Halves<A, B>, port: usize) -> bool {
        match Place::of(halves.joint.first.reads, port) {
            Place::First(port) => halves.a.is_used(port),
            Place::Second(port) => halves.b.is_used(port),
        }
    }

    fn held(&self, halves: &Halves<A, B>, port: usize) -> Option<usize> {
        halves.a.held(port)
    }

    fn read(
        &self,
        halves: &mut Halves<A, B>,
        port: usize,
        address: usize,
    ) -> Result<A::Word, Refusal> {
        match Place::of(halves.joint.first.reads, port) {
            Place::First(port) => halves.a.read(port, address),
            Place::Second(port) => halves.b.read(port, address),
        }
    }

    fn write(
        &self,
        halves: &mut Halves<A, B>,
        port: usize,
        address: usize,
        word: A::Word,
    ) -> Result<(), Refusal> {
        halves.a.write(port, address, word)?;
        halves.b.write(port, address, word)
    }

    fn advance(&mut self, _halves: &Halves<A, B>) {}
}
