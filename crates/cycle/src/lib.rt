// Cycles over any memory.
//
// A client opens a cycle and gets a ticket. It shows the ticket to read and to write, and the edge takes the
// ticket back. A ticket that is let go otherwise is refused when the program is built: no open cycle is lost.
#![tactic(auto)]

ghost use Rattle.std.specs.Prelude.{◌≡◌};
ghost use Rattle.memory.specs.Calls.{Read, Write, Edged};
ghost use Rattle.cycle.specs.Tickets.{opened};

use memory::{Memory, Refusal};

/// An open cycle.
pub struct Ticket {
    mark: (),
}

impl Ticket {
    /// Opens a cycle over a memory. Nothing is done to the memory.
    pub fn open<M: Memory>(_memory: &M) -> Ticket
        ensures { result ≡ opened }
    {
        Ticket { mark: () }
    }

    /// Reads in the cycle.
    pub fn read<M: Memory>(
        &self,
        memory: &mut M,
        port: usize,
        address: usize,
    ) -> Result<M::Word, Refusal>
        ensures order { M.Memory.ordered memory.old → M.Memory.ordered memory.new }
        ensures does { M.Memory.ordered memory.old → Read (M.Memory.meaning memory.old) port address result (M.Memory.meaning memory.new) }
    {
        memory.read(port, address)
    }

    /// Writes in the cycle.
    pub fn write<M: Memory>(
        &self,
        memory: &mut M,
        port: usize,
        address: usize,
        word: M::Word,
    ) -> Result<(), Refusal>
        ensures order { M.Memory.ordered memory.old → M.Memory.ordered memory.new }
        ensures does { M.Memory.ordered memory.old → Write (M.Memory.meaning memory.old) port address word result (M.Memory.meaning memory.new) }
    {
        memory.write(port, address, word)
    }

    /// Ends the cycle with an edge.
    pub fn edge<M: Memory>(self, memory: &mut M)
        ensures order { M.Memory.ordered memory.old → M.Memory.ordered memory.new }
        ensures does { M.Memory.ordered memory.old → Edged (M.Memory.meaning memory.old) (M.Memory.meaning memory.new) }
    {
        let Ticket { mark: () } = self;
        memory.edge();
    }
}
