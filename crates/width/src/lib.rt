// The width layer: two memories of 32-bit words side by side make one of 64-bit words.
//
// The low half of each word is in A, the high half in B, and every call goes to both.
#![tactic(auto)]

ghost use Rattle.std.specs.Prelude.{refl};
ghost use Rattle.node.specs.declared.node.Layer.TheVariants.{Width as own};
ghost use Rattle.width.specs.Width.{Paired, widened};
ghost use Rattle.width.specs.Tidy.{tidy_layer};
ghost use Rattle.width.specs.Edges.{edge_both};

use joint::Halves;
use kinds::{Bits32, Bits64};
use layered::{Layered, Rule};
use memory::{Memory, Refusal};
use node::Layer;
use words::{joined, split};

mod words;

/// Two memories of 32-bit words as one of 64-bit words.
pub type Width<A, B> = Layered<WidthRule, A, B>;

/// The rule of the layer: the low half of each word is in A, the high half in B.
#[derive(Drop)]
pub struct WidthRule;

impl<A: Memory<Word = Bits32>, B: Memory<Word = Bits32>> Rule<A, B> for WidthRule {
    type Word = Bits64;

    ghost own = { own };

    ghost pairs = { λ r j. Paired };

    ghost means = { λ r. widened };

    ghost framed = { λ r j a b. refl };

    ghost letter = { λ a b. refl };

    ghost tidy = { λ r j a b h. tidy_layer j a b (λ live. let k = h live in (k.0, k.2, k.3)) };

    ghost edged = { λ r r' j a b a' b' g s t h _. edge_both j a b a' b' g h };

    fn layer() -> Layer {
        Layer::Width
    }

    fn start() -> Self {
        WidthRule
    }

    fn is_used(&self, halves: &Halves<A, B>, port: usize) -> bool {
        halves.a.is_used(port)
    }

    fn held(&self, halves: &Halves<A, B>, port: usize) -> Option<usize> {
        halves.a.held(port)
    }

    fn read(
        &self,
        halves: &mut Halves<A, B>,
        port: usize,
        address: usize,
    ) -> Result<Bits64, Refusal> {
        let low = halves.a.read(port, address)?;
        let high = halves.b.read(port, address)?;
        Ok(joined(low, high))
    }

    fn write(
        &self,
        halves: &mut Halves<A, B>,
        port: usize,
        address: usize,
        word: Bits64,
    ) -> Result<(), Refusal> {
        let (low, high) = split(word);
        halves.a.write(port, address, low)?;
        halves.b.write(port, address, high)
    }

    fn advance(&mut self, _halves: &Halves<A, B>) {}
}
