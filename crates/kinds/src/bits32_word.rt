// The words of 32 bits as a word kind, and as a group under exclusive or.
ghost use Rattle.std.specs.Prelude.{◌≡◌};
ghost use Rattle.word.specs.declared.Letter.TheVariants.{H as letter_h};
ghost use Rattle.kinds.specs.Bits.{bits32_zero, bits32_code, bits32_xor};
ghost use Rattle.kinds.specs.Apart.{bits32_same};
ghost use Rattle.std.proofs.Common.{rules};
ghost use Rattle.std.proofs.lemmas.Nat.{xor_comm};
ghost use Rattle.std.specs.Int.Bits.{xor_assoc};
ghost use Rattle.kinds.specs.Sums.{xor_restores};

use crate::bits32::Bits32;
use word::{Group, Letter, Word};

impl Bits32 {
    // The exclusive or of two words, which is their sum and their difference.
    fn xor(self, other: Bits32) -> Bits32
        ensures { result ≡ bits32_xor self other }
    {
        Bits32::new(self.bits ^ other.bits)
    }
}

impl Word for Bits32 {
    ghost kind = { letter_h };

    ghost nought = { bits32_zero };

    ghost coded = { bits32_code };

    ghost nought_code = { Prim.search rules };

    ghost in_row = { Prim.search rules };

    ghost apart = { bits32_same };

    fn letter() -> Letter {
        Letter::H
    }

    fn zero() -> Bits32 {
        Bits32::new(0)
    }

    fn code(self) -> u64 {
        self.bits as u64
    }

    fn from_code(code: u64) -> Option<Bits32> {
        u32::try_from(code).ok().map(Bits32::new)
    }
}

impl Group for Bits32 {
    ghost plus = { bits32_xor };

    ghost minus = { bits32_xor };

    ghost commutes = { λ u v. bits32_same _ _ (xor_comm u.bits v.bits) };

    ghost associates = { λ u v w. bits32_same _ _ (xor_assoc u.bits v.bits w.bits) };

    ghost restores = { λ u v. bits32_same _ _ (xor_restores u.bits v.bits) };

    fn sum(self, other: Bits32) -> Bits32 {
        self.xor(other)
    }

    fn difference(self, other: Bits32) -> Bits32 {
        self.xor(other)
    }
}
