// An array as a memory. Cell `a` holds word `a`; the cell at the depth is the latch of the held word,
// and what it holds is open while the port is free; the cells above it are never touched.
ghost use Rattle.std.specs.Prelude.{◌≡◌, vec_len};
ghost use Rattle.memory.specs.Meaning.{Cleared, SameShape};
ghost use Rattle.memory.specs.Calls.{Read, Write, Edged};
ghost use Rattle.array.specs.Limits.{depth_over};
ghost use Rattle.array.specs.Arrays.{Always, Spared, meant};
ghost use Rattle.array.specs.Steps.{Freed, Landed};
ghost use Rattle.std.proofs.Common.{arith, rules};
ghost use Rattle.array.specs.Plans.{array_planned};

use crate::array::{Array, MAX_WORDS};
use memory::{Memory, Refusal};
use node::{Macro, Node};
use port::{Event, WritePort};
use word::Word;

impl<W: Word> Array<W> {
    /// A configured array over the cells; void where there are fewer than two.
    pub fn new(cells: Vec<W>) -> Self
        ensures depth { result.depth ≡ depth_over (vec_len cells) }
        ensures clear { Cleared W.Word.nought (meant W.Word.kind W.Word.nought result) }
        ensures spared { Spared W.Word.nought cells.items result.cells.items result.depth }
    {
        let depth = cells.len().saturating_sub(1).min(MAX_WORDS);
        let mut array = Array {
            cells,
            depth,
            used: false,
            port: WritePort::Free,
        };
        array.configure();
        array
    }

    // Puts the held word at its address.
    fn land(&mut self)
        ensures { Landed W.Word.nought self.old self.new }
    {
        if let WritePort::Holding(address) = self.port {
            self.cells[address] = self.cells[self.depth];
        }
    }

    // Makes both ports free.
    fn free(&mut self)
        ensures { Freed self.old self.new }
    {
        self.port.step(Event::Edge);
        self.used = false;
    }
}

impl<W: Word> Memory for Array<W> {
    type Word = W;

    ghost ordered = { Always };

    ghost meaning = { meant W.Word.kind W.Word.nought };

    ghost tidy = { Prim.search rules };

    ghost planned = { λ s o. array_planned W.Word.kind W.Word.nought s.cells.items s.depth s.used s.port (let deep = s.deep in omega arith) };

    fn configure(&mut self)
        ensures order { Always self.new }
        ensures clear { Cleared W.Word.nought (meant W.Word.kind W.Word.nought self.new) }
        ensures shape { SameShape (meant W.Word.kind W.Word.nought self.old) (meant W.Word.kind W.Word.nought self.new) }
        ensures spared { Spared W.Word.nought self.old.cells.items self.new.cells.items self.new.depth }
    {
        self.used = false;
        self.port = WritePort::Free;
        // By index: after a write through a part of a `Vec` nothing is known of its elements.
        for address in 0..self.depth {
            self.cells[address] = W::zero();
        }
    }

    fn reads(&self) -> usize {
        usize::from(self.depth > 0)
    }

    fn writes(&self) -> usize {
        usize::from(self.depth > 0)
    }

    fn depth(&self) -> usize {
        self.depth
    }

    fn nodes(&self) -> usize {
        usize::from(self.depth > 0)
    }

    fn node(&self, i: usize) -> Option<Node> {
        (i < self.nodes()).then(|| {
            Node::Macro(Macro {
                kind: 1,
                letter: W::letter(),
                reads: 1,
                writes: 1,
                depth: self.depth as u32,
            })
        })
    }

    fn is_used(&self, port: usize) -> bool {
        port < self.reads() && self.used
    }

    fn held(&self, port: usize) -> Option<usize> {
        self.port.address().filter(|_| port < self.writes())
    }

    fn read(&mut self, port: usize, address: usize) -> Result<W, Refusal>
        ensures order { Always self.new }
        ensures does { Read (meant W.Word.kind W.Word.nought self.old) port address result (meant W.Word.kind W.Word.nought self.new) }
        ensures spared { self.new.cells ≡ self.old.cells }
    {
        self.may_read(port, address)?;
        self.used = true;
        Ok(self.cells[address])
    }

    fn write(&mut self, port: usize, address: usize, word: W) -> Result<(), Refusal>
        ensures order { Always self.new }
        ensures does { Write (meant W.Word.kind W.Word.nought self.old) port address word result (meant W.Word.kind W.Word.nought self.new) }
        ensures spared { Spared W.Word.nought self.old.cells.items self.new.cells.items self.new.depth }
    {
        self.may_write(port, address)?;
        let latch = self.depth;
        self.cells[latch] = word;
        self.port.step(Event::Store(address));
        Ok(())
    }

    fn edge(&mut self)
        ensures order { Always self.new }
        ensures does { Edged (meant W.Word.kind W.Word.nought self.old) (meant W.Word.kind W.Word.nought self.new) }
        ensures spared { Spared W.Word.nought self.old.cells.items self.new.cells.items self.new.depth }
    {
        self.land();
        self.free();
    }
}
