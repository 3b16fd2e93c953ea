// Calls as values, the answers to them, and one call tried on a memory.
ghost use Rattle.runs.specs.Tries.{Tried};

use memory::{Memory, Refusal};

/// A call that can be tried on a memory.
#[derive(Clone, Copy)]
pub enum Call<W> {
    /// Read the word at an address through a read port.
    Read {
        port: usize,
        address: usize,
    },
    /// Write a word to an address through a write port.
    Write {
        port: usize,
        address: usize,
        word: W,
    },
    /// End the cycle.
    Edge,
}

/// What a memory answers to a call.
#[derive(Clone, Copy)]
pub enum Answer<W> {
    /// The word that was read.
    Word(W),
    /// The write was accepted.
    Accepted,
    /// The cycle has ended. An edge is never refused.
    Edged,
    /// The read or the write was refused.
    Refused(Refusal),
}

/// Tries one call on a memory, and says what it answered.
pub fn attempt<M: Memory>(m: &mut M, call: &Call<M::Word>) -> Answer<M::Word>
    ensures { M.Memory.ordered m.old → M.Memory.ordered m.new × Tried (M.Memory.meaning m.old) call.now result (M.Memory.meaning m.new) }
{
    // Each by `match`: tried as `map_or_else(Answer::Refused, Answer::Word)`, which no proof covers yet.
    match call {
        Call::Read { port, address } => match m.read(*port, *address) {
            Ok(word) => Answer::Word(word),
            Err(refusal) => Answer::Refused(refusal),
        },
        Call::Write {
            port,
            address,
            word,
        } => match m.write(*port, *address, *word) {
            Ok(()) => Answer::Accepted,
            Err(refusal) => Answer::Refused(refusal),
        },
        Call::Edge => {
            m.edge();
            Answer::Edged
        }
    }
}
