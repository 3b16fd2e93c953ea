// Word kinds and groups: what a memory may hold, and what an exclusive-or bank may add up.
//
// A kind says its letter, its zero and a code for each word. Code that is generic over `Word` knows
// no more of a word than its code, so that anybody can add a kind.
#![tactic(auto)]

ghost use Rattle.std.specs.Prelude.{◌≡◌, ℕ, ◌≤◌, true, MatchOption, ◌≢◌};
ghost use Rattle.word.specs.declared.Letter.{Letter};
ghost use Rattle.word.specs.Letters.{last_code, summed};

/// The letter of a word kind, as plans write it. The default means nothing: it fills places that hold no plan yet.
#[derive(Clone, Copy, PartialEq, Eq, Debug, Default)]
pub enum Letter {
    /// 32 bits.
    #[default]
    H,
    /// 64 bits.
    B,
    /// A left and a right sample of 16 bits each.
    S,
    /// An opcode below 100 and an operand below 1,000.
    O,
}

impl Letter {
    /// The largest code of the letter's row; the smallest is 0.
    pub fn last_code(self) -> u64
        ensures { result ≡ last_code self }
    {
        match self {
            Letter::H | Letter::S => 4_294_967_295,
            Letter::B => u64::MAX,
            Letter::O => 99_999,
        }
    }

    /// Whether the letter's kinds are groups.
    pub fn is_summed(self) -> bool
        ensures { result ≡ summed self }
    {
        match self {
            Letter::H | Letter::B | Letter::S => true,
            Letter::O => false,
        }
    }
}

/// A kind of words.
pub trait Word: Copy {
    // The kind's letter.
    ghost kind: { Letter };

    // The word that every address holds at first.
    ghost nought: { Self };

    // The code of a word.
    ghost coded: { Self → ℕ };

    fn letter() -> Letter
        ensures { result ≡ kind };

    fn zero() -> Self
        ensures { result ≡ nought };

    fn code(self) -> u64
        ensures { result ≡ coded self };

    /// The word with this code, or none where no word has it.
    fn from_code(code: u64) -> Option<Self>
        ensures { MatchOption result ((w : Self) → coded w ≢ code) (λ w. coded w ≡ code) };

    // Zero has code 0.
    ghost nought_code: { coded nought ≡ 0 };

    // Each code lies in the letter's row.
    ghost in_row: { (w : Self) → coded w ≤ last_code kind };

    // The code alone tells words apart.
    ghost apart: { (u v : Self) → coded u ≡ coded v → u ≡ v };
}

/// A kind of words with a commutative sum and a difference.
pub trait Group: Word {
    ghost plus: { Self → Self → Self };

    ghost minus: { Self → Self → Self };

    /// The sum. What a group has to say of `Word`'s zero and letter stands here.
    fn sum(self, other: Self) -> Self
        ensures value { result ≡ plus self other }
        ensures unit { (u : Self) → plus u Self.Word.nought ≡ u }
        ensures letter { summed Self.Word.kind ≡ true };

    fn difference(self, other: Self) -> Self
        ensures { result ≡ minus self other };

    ghost commutes: { (u v : Self) → plus u v ≡ plus v u };

    ghost associates: { (u v w : Self) → plus (plus u v) w ≡ plus u (plus v w) };

    ghost restores: { (u v : Self) → plus (minus v u) u ≡ v };
}
