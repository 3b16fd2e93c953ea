// What the layer does with both halves at once.
ghost use Rattle.std.specs.Prelude.{◌≡◌};
ghost use Rattle.xor.specs.Xor.{Put, ReadBoth, recovery};

use joint::Size;
use memory::{Memory, Refusal};
use word::Group;

// Reads both halves through one port, and sums their words.
pub(crate) fn read_both<A: Memory, B: Memory<Word = A::Word>>(
    a: &mut A,
    b: &mut B,
    port: usize,
    address: usize,
) -> Result<A::Word, Refusal>
where
    A::Word: Group,
    ensures first { A.Memory.ordered a.old → A.Memory.ordered a.new }
    ensures second { B.Memory.ordered b.old → B.Memory.ordered b.new }
    ensures does { A.Memory.ordered a.old → B.Memory.ordered b.old → ReadBoth A.Word.Group.plus
        (A.Memory.meaning a.old) (B.Memory.meaning b.old) port address result
        (A.Memory.meaning a.new) (B.Memory.meaning b.new) }
{
    let first = a.read(port, address)?;
    let second = b.read(port, address)?;
    Ok(first.sum(second))
}

// The read port of the other half that is kept for a write port of a half: its read ports end with one for each write
// port of this half. In a layer in order neither difference is below 0.
pub(crate) fn recovery_port(half: Size, other: Size, port: usize) -> usize
    ensures { result ≡ recovery half other port }
{
    other.reads.saturating_sub(half.writes.saturating_sub(port))
}

// Recovers the word of the other half, and writes the difference to it into a half.
pub(crate) fn put<A: Memory, B: Memory<Word = A::Word>>(
    half: &mut A,
    other: &mut B,
    port: usize,
    recovery: usize,
    address: usize,
    word: A::Word,
) -> Result<(), Refusal>
where
    A::Word: Group,
    ensures half { A.Memory.ordered half.old → A.Memory.ordered half.new }
    ensures other { B.Memory.ordered other.old → B.Memory.ordered other.new }
    ensures does { A.Memory.ordered half.old → B.Memory.ordered other.old → Put A.Word.Group.minus
        (A.Memory.meaning half.old) (B.Memory.meaning other.old) port recovery address word result
        (A.Memory.meaning half.new) (B.Memory.meaning other.new) }
{
    let recovered = other.read(recovery, address)?;
    half.write(port, address, word.difference(recovered))
}
