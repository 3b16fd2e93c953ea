// A register file as a memory. What a latch holds is open while its port is free.
ghost use Rattle.std.specs.Prelude.{◌≡◌};
ghost use Rattle.kinds.specs.Bits.{bits64_zero};
ghost use Rattle.memory.specs.Meaning.{Cleared, SameShape};
ghost use Rattle.memory.specs.Calls.{Read, Write, Edged};
ghost use Rattle.regfile.specs.Limits.{depth_for};
ghost use Rattle.regfile.specs.RegFiles.{Always, meant};
ghost use Rattle.regfile.specs.Steps.{Freed, Landed, Wiped};
ghost use Rattle.regfile.specs.Ports.{file_tidy};
ghost use Rattle.regfile.specs.Plans.{file_planned};

use crate::regfile::{MAX_WORDS, READS, RegFile, WRITES};
use crate::slot::{Slot, land_all};
use kinds::Bits64;
use memory::{Memory, Refusal};
use node::{Macro, Node};
use word::{Letter, Word};

impl RegFile {
    /// A configured register file of this depth, or of 64 where this one is more; void where it is 0.
    pub fn new(depth: usize) -> Self
        ensures depth { result.depth ≡ depth_for depth }
        ensures clear { Cleared bits64_zero (meant result) }
    {
        let mut file = RegFile {
            depth: depth.min(MAX_WORDS),
            words: [Bits64::zero(); MAX_WORDS],
            used: [false; READS],
            slots: [Slot::vacant(); WRITES],
        };
        file.configure();
        file
    }

    // Makes every word zero.
    fn wipe(&mut self)
        ensures { Wiped self.old self.new }
    {
        self.words = [Bits64::zero(); MAX_WORDS];
    }

    // Puts both held words at their addresses.
    fn land(&mut self)
        ensures { Landed self.old self.new }
    {
        land_all(&self.slots, &mut self.words);
    }

    // Makes every port free.
    fn free(&mut self)
        ensures { Freed self.old self.new }
    {
        for slot in &mut self.slots {
            slot.free();
        }
        self.used = [false; READS];
    }
}

impl Memory for RegFile {
    type Word = Bits64;

    ghost ordered = { Always };

    ghost meaning = { meant };

    ghost tidy = { λ s o. file_tidy s.depth s.words s.used s.slots s.within s.apart };

    ghost planned = { λ s o. file_planned s.depth s.words s.used s.slots s.deep };

    fn configure(&mut self)
        ensures order { Always self.new }
        ensures clear { Cleared bits64_zero (meant self.new) }
        ensures shape { SameShape (meant self.old) (meant self.new) }
    {
        self.wipe();
        self.free();
    }

    fn reads(&self) -> usize {
        if self.depth > 0 { READS } else { 0 }
    }

    fn writes(&self) -> usize {
        if self.depth > 0 { WRITES } else { 0 }
    }

    fn depth(&self) -> usize {
        self.depth
    }

    fn nodes(&self) -> usize {
        usize::from(self.depth > 0)
    }

    fn node(&self, i: usize) -> Option<Node> {
        (i < self.nodes()).then(|| {
            Node::Macro(Macro {
                kind: 2,
                letter: Letter::B,
                reads: READS as u8,
                writes: WRITES as u8,
                depth: self.depth as u32,
            })
        })
    }

    fn is_used(&self, port: usize) -> bool {
        port < self.reads() && self.used[port]
    }

    fn held(&self, port: usize) -> Option<usize> {
        self.slots.get(port)?.port.address()
    }

    fn read(&mut self, port: usize, address: usize) -> Result<Bits64, Refusal>
        ensures order { Always self.new }
        ensures does { Read (meant self.old) port address result (meant self.new) }
    {
        self.may_read(port, address)?;
        self.used[port] = true;
        Ok(self.words[address])
    }

    fn write(&mut self, port: usize, address: usize, word: Bits64) -> Result<(), Refusal>
        ensures order { Always self.new }
        ensures does { Write (meant self.old) port address word result (meant self.new) }
    {
        self.may_write(port, address)?;
        self.slots[port] = self.slots[port].store(address, word);
        Ok(())
    }

    fn edge(&mut self)
        ensures order { Always self.new }
        ensures does { Edged (meant self.old) (meant self.new) }
    {
        self.land();
        self.free();
    }
}
