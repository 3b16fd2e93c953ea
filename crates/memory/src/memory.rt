// The trait of memories.
//
// No call asks anything of its caller. An implementation says when it is in order; `configure` puts it in
// order from any state, and every other promise is given on a memory that is in order, and keeps it so.
ghost use Rattle.std.specs.Prelude.{◌≡◌, length};
ghost use Rattle.std.specs.List.{slice_get};
ghost use Rattle.node.specs.Plans.{macro_count};
ghost use Rattle.memory.specs.Meaning.{Meaning, Tidy, Planned, Cleared, SameShape};
ghost use Rattle.memory.specs.Calls.{UsedAt, HeldAt, Waits, MayRead, MayWrite, Read, Write, Edged};

use crate::refusal::Refusal;
use node::Node;
use word::Word;

/// A memory with read ports, write ports and a depth.
pub trait Memory {
    type Word: Word;

    // The states in which the memory does what it promises.
    ghost ordered: { Self → Type 0 };

    // The words, the ports and the plan.
    ghost meaning: { Self → Meaning Self.Word };

    /// Makes every word zero and every port free, and puts the memory in order, whatever it was.
    fn configure(&mut self)
        ensures order { ordered self.new }
        ensures clear { Cleared Self.Word.Word.nought (meaning self.new) }
        ensures shape { ordered self.old → SameShape (meaning self.old) (meaning self.new) };

    /// The number of read ports.
    fn reads(&self) -> usize
        ensures { ordered self.now → result ≡ (meaning self.now).reads };

    /// The number of write ports.
    fn writes(&self) -> usize
        ensures { ordered self.now → result ≡ (meaning self.now).writes };

    /// The number of addresses.
    fn depth(&self) -> usize
        ensures { ordered self.now → result ≡ (meaning self.now).depth };

    /// The number of nodes of the plan.
    fn nodes(&self) -> usize
        ensures { ordered self.now → result ≡ length (meaning self.now).plan };

    /// Node `i` of the plan, counted from 0, or none.
    fn node(&self, i: usize) -> Option<Node>
        ensures { ordered self.now → result ≡ slice_get (meaning self.now).plan i };

    /// Whether a read port has served a read since the last edge; a port that does not exist has not.
    fn is_used(&self, port: usize) -> bool
        ensures { ordered self.now → UsedAt (meaning self.now) port result };

    /// The address that a write port holds; a port that does not exist holds none.
    fn held(&self, port: usize) -> Option<usize>
        ensures { ordered self.now → HeldAt (meaning self.now) port result };

    /// The word at an address, not one that waits for it. The port is used from then on.
    fn read(&mut self, port: usize, address: usize) -> Result<Self::Word, Refusal>
        ensures order { ordered self.old → ordered self.new }
        ensures does { ordered self.old → Read (meaning self.old) port address result (meaning self.new) };

    /// The port holds the word for the address from then on.
    fn write(&mut self, port: usize, address: usize, word: Self::Word) -> Result<(), Refusal>
        ensures order { ordered self.old → ordered self.new }
        ensures does { ordered self.old → Write (meaning self.old) port address word result (meaning self.new) };

    /// Puts each held word at its address, and makes every port free.
    fn edge(&mut self)
        ensures order { ordered self.old → ordered self.new }
        ensures does { ordered self.old → Edged (meaning self.old) (meaning self.new) };

    /// Whether some write port holds an address.
    fn waits(&self, address: usize) -> bool
        ensures { ordered self.now → Waits (meaning self.now) address result }
    {
        (0..self.writes()).any(|port| self.held(port) == Some(address))
    }

    /// The number of macros of the plan.
    fn macros(&self) -> usize
        ensures { ordered self.now → result ≡ macro_count (meaning self.now).plan }
    {
        (0..self.nodes())
            .filter_map(|i| self.node(i))
            .filter(|node| node.is_macro())
            .count()
    }

    /// What `read` would answer.
    fn may_read(&self, port: usize, address: usize) -> Result<(), Refusal>
        ensures { ordered self.now → MayRead (meaning self.now) port address result }
    {
        if port >= self.reads() {
            Err(Refusal::NoPort)
        } else if address >= self.depth() {
            Err(Refusal::NoAddress)
        } else if self.is_used(port) {
            Err(Refusal::Busy)
        } else {
            Ok(())
        }
    }

    /// What `write` would answer.
    fn may_write(&self, port: usize, address: usize) -> Result<(), Refusal>
        ensures { ordered self.now → MayWrite (meaning self.now) port address result }
    {
        if port >= self.writes() {
            Err(Refusal::NoPort)
        } else if address >= self.depth() {
            Err(Refusal::NoAddress)
        } else if self.held(port).is_some() {
            Err(Refusal::Busy)
        } else if self.waits(address) {
            Err(Refusal::Held)
        } else {
            Ok(())
        }
    }

    // Held addresses are below the depth, and no two ports hold one address.
    ghost tidy: { (s : Self) → ordered s → Tidy (meaning s) };

    // The plan passes the check and gives the ports, the depth and the letter; or the memory is void.
    ghost planned: { (s : Self) → ordered s → Planned Self.Word.Word.kind (meaning s) };
}
