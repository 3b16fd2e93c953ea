// The depth layer: two memories with the same ports, end to end.
//
// The addresses below A's depth are A's, and those from there on are B's. Each port serves one call in a
// cycle, in the half that has the address.
#![tactic(auto)]

ghost use Rattle.std.specs.Prelude.{refl};
ghost use Rattle.node.specs.declared.node.Layer.TheVariants.{Depth as own};
ghost use Rattle.joint.specs.Places.{PlacedAt};
ghost use Rattle.depth.specs.Depth.{HeldOver, Paired, deepened};
ghost use Rattle.depth.specs.Tidy.{tidy_layer};
ghost use Rattle.depth.specs.Edges.{edge_both};

use joint::{Halves, Place};
use layered::{Layered, Rule};
use memory::{Memory, Refusal};
use node::Layer;

/// Two memories end to end, with the ports that each has.
pub type Depth<A, B> = Layered<DepthRule, A, B>;

/// The rule of the layer: a call goes to the half that has the address.
#[derive(Drop)]
pub struct DepthRule;

// The address that a port of the layer holds, by A's depth and by those that the halves' ports hold. A sum
// that its type cannot hold does not occur in a layer in order, and is taken as the largest that it holds.
fn held_over(first: usize, a: Option<usize>, b: Option<usize>) -> Option<usize>
    ensures { HeldOver first a b result }
{
    a.or(b.map(|address| first.saturating_add(address)))
}

// The half that has an address, and the address there.
fn place<A, B>(halves: &Halves<A, B>, address: usize) -> Place
    ensures { PlacedAt halves.now.joint.first.depth address result }
{
    Place::of(halves.joint.first.depth, address)
}

impl<A: Memory, B: Memory<Word = A::Word>> Rule<A, B> for DepthRule {
    type Word = A::Word;

    ghost own = { own };

    ghost pairs = { λ r j. Paired };

    ghost means = { λ r. deepened };

    ghost framed = { λ r j a b. refl };

    ghost letter = { λ a b. refl };

    ghost tidy = { λ r j a b h.
        tidy_layer A.Word.Word.kind j a b (λ live. let k = h live in (k.0, k.1, k.2)) };

    ghost edged = { λ r r' j a b a' b' g s t h _. edge_both A.Word.Word.kind j a b g h a' b' s };

    fn layer() -> Layer {
        Layer::Depth
    }

    fn start() -> Self {
        DepthRule
    }

    fn is_used(&self, halves: &Halves<A, B>, port: usize) -> bool {
        halves.a.is_used(port) || halves.b.is_used(port)
    }

    fn held(&self, halves: &Halves<A, B>, port: usize) -> Option<usize> {
        held_over(
            halves.joint.first.depth,
            halves.a.held(port),
            halves.b.held(port),
        )
    }

    fn read(
        &self,
        halves: &mut Halves<A, B>,
        port: usize,
        address: usize,
    ) -> Result<A::Word, Refusal> {
        match place(halves, address) {
            Place::First(address) => halves.a.read(port, address),
            Place::Second(address) => halves.b.read(port, address),
        }
    }

    fn write(
        &self,
        halves: &mut Halves<A, B>,
        port: usize,
        address: usize,
        word: A::Word,
    ) -> Result<(), Refusal> {
        match place(halves, address) {
            Place::First(address) => halves.a.write(port, address, word),
            Place::Second(address) => halves.b.write(port, address, word),
        }
    }

    fn advance(&mut self, _halves: &Halves<A, B>) {}
}
