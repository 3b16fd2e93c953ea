// The words of 32 bits: the type, its constructor and its reader.
ghost use Rattle.std.specs.Prelude.{◌≡◌, ◌<◌, ◌^◌};

/// A word of 32 bits.
#[derive(Clone, Copy, PartialEq, Eq)]
pub struct Bits32 {
    pub(crate) bits: u32,
    ghost small: { bits < 2 ^ 32 },
}

impl Bits32 {
    /// The word with these bits.
    pub fn new(bits: u32) -> Bits32
        ensures { result.bits ≡ bits }
    {
        Bits32 { bits }
    }

    /// The bits of the word.
    pub fn bits(self) -> u32
        ensures { result ≡ self.bits }
    {
        self.bits
    }
}
