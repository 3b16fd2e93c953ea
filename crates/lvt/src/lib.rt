// The live-value table layer: two memories side by side, with the write ports of both.
//
// A word waits in the half whose port it is written through. A mark for each address names the half that was
// written last there, and a read takes the word of that half.
#![tactic(auto)]

ghost use Rattle.std.specs.Prelude.{◌≡◌, ◌≤◌, length, refl};
ghost use Rattle.node.specs.declared.node.Layer.TheVariants.{Lvt as own};
ghost use Rattle.lvt.specs.Lvt.{AllFirst, Marks, Moved, Overlaid, Paired, marked, pick, tabled};
ghost use Rattle.lvt.specs.Tidy.{tidy_layer};
ghost use Rattle.lvt.specs.Edges.{edge_both};

use joint::{Halves, Place};
use layered::{Layered, Rule};
use memory::{Memory, Refusal};
use node::{Layer, MAX_MARKS};
use word::Word;

// The number of marks.
const MARKS: usize = MAX_MARKS as usize;

/// The half that was written last at an address.
#[derive(Clone, Copy)]
pub enum Half {
    First,
    Second,
}

impl Half {
    // The one of two words that belongs to this half.
    fn pick<W: Word>(self, first: W, second: W) -> W
        ensures { result ≡ pick self first second }
    {
        match self {
            Half::First => first,
            Half::Second => second,
        }
    }
}

/// Two memories side by side, with the write ports of both and a mark for each address.
pub type Lvt<A, B> = Layered<LvtRule, A, B>;

/// The rule of the layer: each word is that of the half that its mark names.
#[derive(Drop)]
pub struct LvtRule {
    marks: [Half; MARKS],
}

// The half that the mark of an address names; past the marks the first.
fn marked(marks: &[Half], address: usize) -> Half
    ensures { result ≡ marked marks.now address }
{
    marks.get(address).copied().unwrap_or(Half::First)
}

// Sets the marks of the addresses that the ports of a memory hold.
fn mark<M: Memory>(memory: &M, half: Half, marks: &mut [Half])
    ensures { M.Memory.ordered memory.now →
        (M.Memory.meaning memory.now).depth ≤ length marks.old →
        Marks (M.Memory.meaning memory.now) half marks.old marks.new }
{
    for port in 0..memory.writes() {
        if let Some(address) = memory.held(port) {
            // By index, since a slice's `get_mut` says nothing of what the slice ends as.
            if address < marks.len() {
                marks[address] = half;
            }
        }
    }
}

// Sets the marks of the addresses that the halves hold, each to the half that holds it; to the second where both do.
fn mark_held<A: Memory, B: Memory<Word = A::Word>>(a: &A, b: &B, marks: &mut [Half])
    ensures { A.Memory.ordered a.now → B.Memory.ordered b.now →
        (A.Memory.meaning a.now).depth ≤ length marks.old →
        (B.Memory.meaning b.now).depth ≤ length marks.old →
        Overlaid (A.Memory.meaning a.now) (B.Memory.meaning b.now) marks.old marks.new }
{
    mark(a, Half::First, marks);
    mark(b, Half::Second, marks);
}

impl<A: Memory, B: Memory<Word = A::Word>> Rule<A, B> for LvtRule {
    type Word = A::Word;

    ghost own = { own };

    ghost begun = { λ r. AllFirst r.marks };

    ghost pairs = { λ r j. Paired };

    ghost means = { λ r j. tabled j r.marks };

    ghost moved = { λ a b r r'. Moved a b r.marks r'.marks };

    ghost framed = { λ r j a b. refl };

    ghost letter = { λ a b. refl };

    ghost tidy = { λ r j. tidy_layer A.Word.Word.kind j r.marks };

    ghost edged = { λ r r' j a b a' b' g s t h m.
        edge_both A.Word.Word.kind j r.marks r'.marks a b a' b' g h m };

    fn layer() -> Layer {
        Layer::Lvt
    }

    fn start() -> Self {
        LvtRule {
            marks: [Half::First; MARKS],
        }
    }

    fn is_used(&self, halves: &Halves<A, B>, port: usize) -> bool {
        halves.a.is_used(port)
    }

    fn held(&self, halves: &Halves<A, B>, port: usize) -> Option<usize> {
        match Place::of(halves.joint.first.writes, port) {
            Place::First(port) => halves.a.held(port),
            Place::Second(port) => halves.b.held(port),
        }
    }

    fn read(
        &self,
        halves: &mut Halves<A, B>,
        port: usize,
        address: usize,
    ) -> Result<A::Word, Refusal> {
        let first = halves.a.read(port, address)?;
        let second = halves.b.read(port, address)?;
        Ok(marked(&self.marks, address).pick(first, second))
    }

    fn write(
        &self,
        halves: &mut Halves<A, B>,
        port: usize,
        address: usize,
        word: A::Word,
    ) -> Result<(), Refusal> {
        match Place::of(halves.joint.first.writes, port) {
            Place::First(port) => halves.a.write(port, address, word),
            Place::Second(port) => halves.b.write(port, address, word),
        }
    }

    fn advance(&mut self, halves: &Halves<A, B>) {
        mark_held(&halves.a, &halves.b, &mut self.marks);
    }
}
