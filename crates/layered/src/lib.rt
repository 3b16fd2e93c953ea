// One memory for every layer: two halves, and the rule by which the layer reads them as one.
#![tactic(auto)]

ghost use Rattle.std.specs.Prelude.{◌≡◌, ◌<◌, Ok};
ghost use Rattle.node.specs.declared.node.Layer.{Layer};
ghost use Rattle.node.specs.Nodes.{over};
ghost use Rattle.memory.specs.Meaning.{Meaning, Cleared, SameShape, Tidy, shaped};
ghost use Rattle.memory.specs.Calls.{HeldAt, MayRead, MayWrite, Read, UsedAt, Write, Edged};
ghost use Rattle.joint.specs.declared.sizes.Joint.{Joint};
ghost use Rattle.joint.specs.Halves.{Unmoved};
ghost use Rattle.layered.specs.Layered.{InOrder, meant};
ghost use Rattle.layered.specs.Plans.{planned_halves};
ghost use Rattle.joint.specs.Piles.{Agreed, Configured, Made, layer};

use joint::Halves;
use memory::{Memory, Refusal};
use node::{Layer, Node};
use word::Word;

/// How a layer reads two halves as one memory.
pub trait Rule<A: Memory, B: Memory<Word = A::Word>>: Drop {
    type Word: Word;

    // The layer's node.
    ghost own: { Layer };

    // The rules that a layer starts with.
    ghost begun: { Self → Type 0 } = { λ r. Unit {0} };

    // What the halves share while the layer is in order.
    ghost pairs: { Self → Joint → Meaning A.Word → Meaning A.Word → Type 0 };

    // What the layer means by its numbers and its halves.
    ghost means: { Self → Joint → Meaning A.Word → Meaning A.Word → Meaning Self.Word };

    // How the edge alters the rule, by the halves before it.
    ghost moved: { Meaning A.Word → Meaning A.Word → Self → Self → Type 0 } = { λ a b r r'. Unit {0} };

    /// The layer's node.
    fn layer() -> Layer
        ensures { result ≡ own };

    /// The rule that a layer starts with: over configured halves it makes a configured layer.
    fn start() -> Self
        ensures begun { begun result }
        ensures clear { (j : Joint) (a b : Meaning A.Word) → Agreed own A.Word.Word.kind j a b →
            Cleared A.Word.Word.nought a → Cleared A.Word.Word.nought b →
            Cleared Self.Word.Word.nought (means result j a b) × pairs result j a b };

    /// Whether a read port below the number of read ports is used.
    fn is_used(&self, halves: &Halves<A, B>, port: usize) -> bool
        ensures { InOrder own A.Word.Word.kind A.Memory.ordered B.Memory.ordered
            A.Memory.meaning B.Memory.meaning (pairs self.now) halves.now →
            port < halves.now.joint.own.reads →
            UsedAt (meant A.Memory.meaning B.Memory.meaning (means self.now) halves.now)
            port result };

    /// The address that a write port below the number of write ports holds.
    fn held(&self, halves: &Halves<A, B>, port: usize) -> Option<usize>
        ensures { InOrder own A.Word.Word.kind A.Memory.ordered B.Memory.ordered
            A.Memory.meaning B.Memory.meaning (pairs self.now) halves.now →
            port < halves.now.joint.own.writes →
            HeldAt (meant A.Memory.meaning B.Memory.meaning (means self.now) halves.now)
            port result };

    /// A read that the layer does not refuse.
    fn read(
        &self,
        halves: &mut Halves<A, B>,
        port: usize,
        address: usize,
    ) -> Result<Self::Word, Refusal>
        ensures order { InOrder own A.Word.Word.kind A.Memory.ordered B.Memory.ordered
            A.Memory.meaning B.Memory.meaning (pairs self.now) halves.old →
            MayRead (meant A.Memory.meaning B.Memory.meaning (means self.now) halves.old)
            port address (Ok tt) →
            InOrder own A.Word.Word.kind A.Memory.ordered B.Memory.ordered
            A.Memory.meaning B.Memory.meaning (pairs self.now) halves.new }
        ensures does { InOrder own A.Word.Word.kind A.Memory.ordered B.Memory.ordered
            A.Memory.meaning B.Memory.meaning (pairs self.now) halves.old →
            MayRead (meant A.Memory.meaning B.Memory.meaning (means self.now) halves.old)
            port address (Ok tt) →
            Read (meant A.Memory.meaning B.Memory.meaning (means self.now) halves.old)
            port address result
            (meant A.Memory.meaning B.Memory.meaning (means self.now) halves.new) };

    /// A write that the layer does not refuse.
    fn write(
        &self,
        halves: &mut Halves<A, B>,
        port: usize,
        address: usize,
        word: Self::Word,
    ) -> Result<(), Refusal>
        ensures order { InOrder own A.Word.Word.kind A.Memory.ordered B.Memory.ordered
            A.Memory.meaning B.Memory.meaning (pairs self.now) halves.old →
            MayWrite (meant A.Memory.meaning B.Memory.meaning (means self.now) halves.old)
            port address (Ok tt) →
            InOrder own A.Word.Word.kind A.Memory.ordered B.Memory.ordered
            A.Memory.meaning B.Memory.meaning (pairs self.now) halves.new }
        ensures does { InOrder own A.Word.Word.kind A.Memory.ordered B.Memory.ordered
            A.Memory.meaning B.Memory.meaning (pairs self.now) halves.old →
            MayWrite (meant A.Memory.meaning B.Memory.meaning (means self.now) halves.old)
            port address (Ok tt) →
            Write (meant A.Memory.meaning B.Memory.meaning (means self.now) halves.old)
            port address word result
            (meant A.Memory.meaning B.Memory.meaning (means self.now) halves.new) };

    /// What the rule takes from the halves before an edge.
    fn advance(&mut self, halves: &Halves<A, B>)
        ensures { InOrder own A.Word.Word.kind A.Memory.ordered B.Memory.ordered
            A.Memory.meaning B.Memory.meaning (pairs self.old) halves.now →
            0 < halves.now.joint.own.depth →
            moved (A.Memory.meaning halves.now.a) (B.Memory.meaning halves.now.b) self.old self.new };

    // The numbers and the plan are the layer's.
    ghost framed: { (r : Self) (j : Joint) (a b : Meaning A.Word) →
        let m = means r j a b in layer own j a b m.word m.used m.port ≡ m };

    // The letter of the layer's words is that of its shape.
    ghost letter: { (a b : Meaning A.Word) →
        (over own (shaped A.Word.Word.kind a) (shaped A.Word.Word.kind b)).letter ≡ Self.Word.Word.kind };

    // The ports are tidy where those of the halves are.
    ghost tidy: { (r : Self) (j : Joint) (a b : Meaning A.Word) →
        (0 < j.own.depth → Tidy a × Tidy b × Agreed own A.Word.Word.kind j a b × pairs r j a b) →
        Tidy (means r j a b) };

    // The edge of both halves is the layer's.
    ghost edged: { (r r' : Self) (j : Joint) (a b a' b' : Meaning A.Word) →
        Agreed own A.Word.Word.kind j a b → Tidy a → Tidy b → pairs r j a b → moved a b r r' →
        Edged a a' → Edged b b' →
        Edged (means r j a b) (means r' j a' b') × pairs r' j a' b' };
}

/// A layer over two halves.
#[derive(Drop)]
pub struct Layered<R, A, B> {
    halves: Halves<A, B>,
    rule: R,
}

impl<R: Rule<A, B>, A: Memory, B: Memory<Word = A::Word>> Layered<R, A, B> {
    /// A configured layer over two halves; void where they do not fit.
    pub fn new(a: A, b: B) -> Self
        ensures begun { R.begun result.rule }
        ensures order { ⟦<Self as Memory>⟧.ordered result }
        ensures clear { Cleared R.Word.Word.nought (⟦<Self as Memory>⟧.meaning result) }
        ensures made { A.Memory.ordered a → B.Memory.ordered b →
            Made R.own A.Word.Word.kind (A.Memory.meaning a) (B.Memory.meaning b)
            (⟦<Self as Memory>⟧.meaning result) }
        ensures halves { Configured A.Memory.ordered A.Memory.meaning A.Word.Word.nought
            result.halves.a
            × Configured B.Memory.ordered B.Memory.meaning A.Word.Word.nought result.halves.b }
    {
        let halves = Halves::new(R::layer(), a, b);
        Layered {
            halves,
            rule: R::start(),
        }
    }
}

impl<R: Rule<A, B>, A: Memory, B: Memory<Word = A::Word>> Memory for Layered<R, A, B> {
    type Word = R::Word;

    ghost ordered = { λ s. InOrder R.own A.Word.Word.kind A.Memory.ordered B.Memory.ordered
        A.Memory.meaning B.Memory.meaning (R.pairs s.rule) s.halves };

    ghost meaning = { λ s. meant A.Memory.meaning B.Memory.meaning (R.means s.rule) s.halves };

    ghost tidy = { λ s o.
        let h = s.halves in
        R.tidy s.rule h.joint (A.Memory.meaning h.a) (B.Memory.meaning h.b)
        (λ live. let k = o live in (
          A.Memory.tidy h.a k.ready.first,
          B.Memory.tidy h.b k.ready.second,
          k.ready.agreed,
          k.paired,
        )) };

    ghost planned = { λ s o.
        let h = s.halves in
        let a = A.Memory.meaning h.a in
        let b = B.Memory.meaning h.b in
        planned_halves R.own A.Word.Word.kind R.Word.Word.kind (R.pairs s.rule) (R.means s.rule) h
        (R.framed s.rule h.joint a b) (R.letter a b) A.Memory.planned B.Memory.planned o };

    fn configure(&mut self)
        ensures order { ⟦<Self as Memory>⟧.ordered self.new }
        ensures clear { Cleared R.Word.Word.nought (⟦<Self as Memory>⟧.meaning self.new) }
        ensures shape { ⟦<Self as Memory>⟧.ordered self.old →
            SameShape (⟦<Self as Memory>⟧.meaning self.old) (⟦<Self as Memory>⟧.meaning self.new) }
        ensures void { Unmoved self.old.halves self.new.halves }
        ensures begun { R.begun self.new.rule }
    {
        self.rule = R::start();
        self.halves.configure(R::layer());
    }

    fn reads(&self) -> usize {
        self.halves.joint.own.reads
    }

    fn writes(&self) -> usize {
        self.halves.joint.own.writes
    }

    fn depth(&self) -> usize {
        self.halves.joint.own.depth
    }

    fn nodes(&self) -> usize {
        self.halves.joint.own.nodes
    }

    fn node(&self, i: usize) -> Option<Node> {
        self.halves.node(R::layer(), i)
    }

    fn is_used(&self, port: usize) -> bool {
        port < self.halves.joint.own.reads && self.rule.is_used(&self.halves, port)
    }

    fn held(&self, port: usize) -> Option<usize> {
        if port < self.halves.joint.own.writes {
            self.rule.held(&self.halves, port)
        } else {
            None
        }
    }

    fn read(&mut self, port: usize, address: usize) -> Result<R::Word, Refusal>
        ensures order { ⟦<Self as Memory>⟧.ordered self.old → ⟦<Self as Memory>⟧.ordered self.new }
        ensures does { ⟦<Self as Memory>⟧.ordered self.old →
            Read (⟦<Self as Memory>⟧.meaning self.old) port address result
            (⟦<Self as Memory>⟧.meaning self.new) }
        ensures void { Unmoved self.old.halves self.new.halves }
        ensures rule { self.new.rule ≡ self.old.rule }
    {
        self.may_read(port, address)?;
        self.rule.read(&mut self.halves, port, address)
    }

    fn write(&mut self, port: usize, address: usize, word: R::Word) -> Result<(), Refusal>
        ensures order { ⟦<Self as Memory>⟧.ordered self.old → ⟦<Self as Memory>⟧.ordered self.new }
        ensures does { ⟦<Self as Memory>⟧.ordered self.old →
            Write (⟦<Self as Memory>⟧.meaning self.old) port address word result
            (⟦<Self as Memory>⟧.meaning self.new) }
        ensures void { Unmoved self.old.halves self.new.halves }
        ensures rule { self.new.rule ≡ self.old.rule }
    {
        self.may_write(port, address)?;
        self.rule.write(&mut self.halves, port, address, word)
    }

    fn edge(&mut self)
        ensures order { ⟦<Self as Memory>⟧.ordered self.old → ⟦<Self as Memory>⟧.ordered self.new }
        ensures does { ⟦<Self as Memory>⟧.ordered self.old →
            Edged (⟦<Self as Memory>⟧.meaning self.old) (⟦<Self as Memory>⟧.meaning self.new) }
        ensures void { Unmoved self.old.halves self.new.halves }
        ensures rule { (⟦<Self as Memory>⟧.ordered self.old → 0 < self.old.halves.joint.own.depth →
            R.moved (A.Memory.meaning self.old.halves.a) (B.Memory.meaning self.old.halves.b)
            self.old.rule self.new.rule)
            × (self.old.halves.joint.own.depth ≡ 0 → self.new.rule ≡ self.old.rule) }
    {
        if self.halves.joint.own.depth > 0 {
            self.rule.advance(&self.halves);
            self.halves.edge();
        }
    }
}
