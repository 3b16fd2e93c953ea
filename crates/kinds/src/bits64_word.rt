// The words of 64 bits as a word kind, and as a group under exclusive or.
ghost use Rattle.std.specs.Prelude.{◌≡◌};
ghost use Rattle.word.specs.declared.Letter.TheVariants.{B as letter_b};
ghost use Rattle.kinds.specs.Bits.{bits64_zero, bits64_code, bits64_xor};
ghost use Rattle.kinds.specs.Apart.{bits64_same};
ghost use Rattle.std.proofs.Common.{rules};
ghost use Rattle.std.proofs.lemmas.Nat.{xor_comm};
ghost use Rattle.std.specs.Int.Bits.{xor_assoc};
ghost use Rattle.kinds.specs.Sums.{xor_restores};

use crate::bits64::Bits64;
use word::{Group, Letter, Word};

impl Bits64 {
    // The exclusive or of two words, which is their sum and their difference.
    fn xor(self, other: Bits64) -> Bits64
        ensures { result ≡ bits64_xor self other }
    {
        Bits64::new(self.bits ^ other.bits)
    }
}

impl Word for Bits64 {
    ghost kind = { letter_b };

    ghost nought = { bits64_zero };

    ghost coded = { bits64_code };

    ghost nought_code = { Prim.search rules };

    ghost in_row = { Prim.search rules };

    ghost apart = { bits64_same };

    fn letter() -> Letter {
        Letter::B
    }

    fn zero() -> Bits64 {
        Bits64::new(0)
    }

    fn code(self) -> u64 {
        self.bits
    }

    fn from_code(code: u64) -> Option<Bits64> {
        Some(Bits64::new(code))
    }
}

impl Group for Bits64 {
    ghost plus = { bits64_xor };

    ghost minus = { bits64_xor };

    ghost commutes = { λ u v. bits64_same _ _ (xor_comm u.bits v.bits) };

    ghost associates = { λ u v w. bits64_same _ _ (xor_assoc u.bits v.bits w.bits) };

    ghost restores = { λ u v. bits64_same _ _ (xor_restores u.bits v.bits) };

    fn sum(self, other: Bits64) -> Bits64 {
        self.xor(other)
    }

    fn difference(self, other: Bits64) -> Bits64 {
        self.xor(other)
    }
}
