// A word of 64 bits, put together of two of 32 and taken apart.
ghost use Rattle.std.specs.Prelude.{◌≡◌, ◌+◌, ◌*◌, ◌/◌, ◌%◌, ◌^◌};
ghost use Rattle.width.specs.Words.{wide, low_half, high_half};

use kinds::{Bits32, Bits64};

// The number of words of 32 bits.
const SPAN: u64 = 4_294_967_296;

/// The word of two halves.
pub fn joined(low: Bits32, high: Bits32) -> Bits64
    ensures { result ≡ wide low high }
{
    Bits64::new(joined_bits(low.bits(), high.bits()))
}

// The bits of two halves.
fn joined_bits(low: u32, high: u32) -> u64
    ensures { result ≡ high * 2 ^ 32 + low }
{
    high as u64 * SPAN + low as u64
}

// The low half of a word.
fn low(word: Bits64) -> Bits32
    ensures { result ≡ low_half word }
{
    Bits32::new(low_bits(word.bits()))
}

// The low 32 of 64 bits.
fn low_bits(bits: u64) -> u32
    ensures { result ≡ bits % 2 ^ 32 }
{
    (bits % SPAN) as u32
}

// The high half of a word.
fn high(word: Bits64) -> Bits32
    ensures { result ≡ high_half word }
{
    Bits32::new(high_bits(word.bits()))
}

// The high 32 of 64 bits.
fn high_bits(bits: u64) -> u32
    ensures { result ≡ bits / 2 ^ 32 }
{
    (bits / SPAN) as u32
}

/// The low and the high half of a word.
pub fn split(word: Bits64) -> (Bits32, Bits32)
    ensures { wide result.0 result.1 ≡ word }
{
    (low(word), high(word))
}
