// The register file and its numbers.
ghost use Rattle.std.specs.Prelude.{◌≡◌, ℕ, ◌<◌, ◌≤◌};
ghost use Rattle.port.specs.declared.WritePort.TheVariants.{Holding};
ghost use Rattle.regfile.specs.Limits.{max_words};
ghost use Rattle.regfile.specs.Slots.{port_at};

use crate::slot::Slot;
use kinds::Bits64;

/// The largest depth of a register file.
pub const MAX_WORDS: usize = 64;

// The read ports of a register file that is not void.
pub(crate) const READS: usize = 4;

// The write ports of a register file that is not void.
pub(crate) const WRITES: usize = 2;

/// A memory of words of 64 bits, with a latch for each write port.
// An array with a depth beside it, since a register file holds its words itself, without a heap.
#[derive(Drop)]
pub struct RegFile {
    pub(crate) depth: usize,
    pub(crate) words: [Bits64; MAX_WORDS],
    pub(crate) used: [bool; READS],
    pub(crate) slots: [Slot; WRITES],
    ghost deep: { depth ≤ max_words },
    ghost within: { (q x : ℕ) → port_at slots q ≡ Holding x → x < depth },
    ghost apart: { (q q' x : ℕ) → port_at slots q ≡ Holding x
        → port_at slots q' ≡ Holding x → q ≡ q' },
}
