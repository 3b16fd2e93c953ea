// The stereo samples as a word kind, and as a group: each side is summed modulo 65,536.
ghost use Rattle.std.specs.Prelude.{◌≡◌};
ghost use Rattle.word.specs.declared.Letter.TheVariants.{S as letter_s};
ghost use Rattle.kinds.specs.Stereos.{stereo_zero, stereo_code, stereo_plus, stereo_minus};
ghost use Rattle.kinds.specs.Apart.{stereo_apart, stereo_same};
ghost use Rattle.std.proofs.Common.{rules};
ghost use Rattle.kinds.specs.Sums.{side_commutes, side_associates, side_restores};

use crate::stereo::Stereo;
use word::{Group, Letter, Word};

impl Stereo {
    // The sum of two words, side by side.
    fn plus(self, other: Stereo) -> Stereo
        ensures { result ≡ stereo_plus self other }
    {
        Stereo::new(
            self.left.wrapping_add(other.left),
            self.right.wrapping_add(other.right),
        )
    }

    // The difference of two words, side by side. One function for both, with the step as a closure, would owe its
    // word by what the closure gives.
    fn minus(self, other: Stereo) -> Stereo
        ensures { result ≡ stereo_minus self other }
    {
        Stereo::new(
            self.left.wrapping_sub(other.left),
            self.right.wrapping_sub(other.right),
        )
    }
}

impl Word for Stereo {
    ghost kind = { letter_s };

    ghost nought = { stereo_zero };

    ghost coded = { stereo_code };

    ghost nought_code = { Prim.search rules };

    ghost in_row = { Prim.search rules };

    ghost apart = { stereo_apart };

    fn letter() -> Letter {
        Letter::S
    }

    fn zero() -> Stereo {
        Stereo::new(0, 0)
    }

    fn code(self) -> u64 {
        self.left as u64 * 65_536 + self.right as u64
    }

    fn from_code(code: u64) -> Option<Stereo> {
        (code <= Letter::S.last_code()).then(|| Stereo::new(
            (code / 65_536) as u16,
            (code % 65_536) as u16,
        ))
    }
}

impl Group for Stereo {
    ghost plus = { stereo_plus };

    ghost minus = { stereo_minus };

    ghost commutes = { λ u v. stereo_same _ _ (side_commutes u.left v.left) (side_commutes u.right v.right) };

    ghost associates = { λ u v w. stereo_same _ _ (side_associates u.left v.left w.left) (side_associates u.right v.right w.right) };

    ghost restores = { λ u v.
        stereo_same _ _
        (side_restores u.left v.left u.small.0 v.small.0)
        (side_restores u.right v.right u.small.1 v.small.1) };

    fn sum(self, other: Stereo) -> Stereo {
        self.plus(other)
    }

    fn difference(self, other: Stereo) -> Stereo {
        self.minus(other)
    }
}
