// The exclusive-or layer: two memories whose words sum to the layer's, with the write ports of both.
//
// A write goes to one half, which holds the difference to the word of the other. To recover that word, each half
// keeps a read port for every write port of the other; a read is served by both halves, through the ports left.
#![tactic(auto)]

ghost use Rattle.std.specs.Prelude.{◌≡◌, refl};
ghost use Rattle.node.specs.declared.node.Layer.TheVariants.{Xor as own};
ghost use Rattle.xor.specs.Xor.{Paired, xor};
ghost use Rattle.xor.specs.Tidy.{tidy_layer};
ghost use Rattle.xor.specs.Edges.{edge_both};

use calls::{put, read_both, recovery_port};
use joint::{Halves, Place};
use layered::{Layered, Rule};
use memory::{Memory, Refusal};
use node::Layer;
use word::{Group, Word};

mod calls;

/// Two memories whose words sum to the layer's, with the write ports of both.
pub type Xor<A, B> = Layered<XorRule, A, B>;

/// The rule of the layer: each word is the sum of the halves' words.
#[derive(Drop)]
pub struct XorRule;

// The layer's first words are sums of zeros, and a sum promises that zero adds nothing.
fn sum_zeros<W: Group>()
    ensures { W.Group.plus W.Word.nought W.Word.nought ≡ W.Word.nought }
{
    let zero = W::zero();
    let _sum = zero.sum(zero);
}

impl<A: Memory, B: Memory<Word = A::Word>> Rule<A, B> for XorRule
where
    A::Word: Group,
{
    type Word = A::Word;

    ghost own = { own };

    ghost pairs = { λ r. Paired };

    ghost means = { λ r. xor A.Word.Group.plus };

    ghost framed = { λ r j a b. refl };

    ghost letter = { λ a b. refl };

    ghost tidy = { λ r. tidy_layer A.Word.Group.plus A.Word.Word.kind };

    ghost edged = { λ r r' j a b a' b' g s t h _.
        edge_both A.Word.Group.plus A.Word.Word.kind j a b a' b' g h s t };

    fn layer() -> Layer {
        Layer::Xor
    }

    fn start() -> Self {
        sum_zeros::<A::Word>();
        XorRule
    }

    fn is_used(&self, halves: &Halves<A, B>, port: usize) -> bool {
        halves.a.is_used(port)
    }

    fn held(&self, halves: &Halves<A, B>, port: usize) -> Option<usize> {
        match Place::of(halves.joint.first.writes, port) {
            Place::First(port) => halves.a.held(port),
            Place::Second(port) => halves.b.held(port),
        }
    }

    fn read(
        &self,
        halves: &mut Halves<A, B>,
        port: usize,
        address: usize,
    ) -> Result<A::Word, Refusal> {
        read_both(&mut halves.a, &mut halves.b, port, address)
    }

    fn write(
        &self,
        halves: &mut Halves<A, B>,
        port: usize,
        address: usize,
        word: A::Word,
    ) -> Result<(), Refusal> {
        let Halves { a, b, joint } = halves;
        match Place::of(joint.first.writes, port) {
            Place::First(port) => {
                let recovery = recovery_port(joint.first, joint.second, port);
                put(a, b, port, recovery, address, word)
            }
            Place::Second(port) => {
                let recovery = recovery_port(joint.second, joint.first, port);
                put(b, a, port, recovery, address, word)
            }
        }
    }

    fn advance(&mut self, _halves: &Halves<A, B>) {}
}
