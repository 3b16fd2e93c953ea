// The words of 64 bits: the type, its constructor and its reader.
ghost use Rattle.std.specs.Prelude.{◌≡◌, ◌<◌, ◌^◌};

/// A word of 64 bits.
// A type of its own beside that of 32 bits: one over the number types would ask of u32 and u64, by a trait, all that
// `Word` and `Group` ask, and so say it twice.
#[derive(Clone, Copy, PartialEq, Eq)]
pub struct Bits64 {
    pub(crate) bits: u64,
    ghost small: { bits < 2 ^ 64 },
}

impl Bits64 {
    /// The word with these bits.
    pub fn new(bits: u64) -> Bits64
        ensures { result.bits ≡ bits }
    {
        Bits64 { bits }
    }

    /// The bits of the word.
    pub fn bits(self) -> u64
        ensures { result ≡ self.bits }
    {
        self.bits
    }
}
