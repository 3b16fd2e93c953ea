// The answer to the question whether two halves fit.
ghost use Rattle.std.specs.Prelude.{◌≡◌};
ghost use Rattle.joint.specs.Fits.{fit_number};

/// Whether two halves fit under a layer.
// Not a `Result`, by a rule of the project: this answer is an enum, with a number for each case.
#[derive(Clone, Copy)]
pub enum Fit {
    Fits,
    Unfit,
}

impl Fit {
    /// The answer's number: 0, or the check's number for halves that do not fit.
    // By `match`: a number on each case would alter what `as u8` gives of it, its place from 0.
    pub fn number(self) -> u8
        ensures { result ≡ fit_number self }
    {
        match self {
            Fit::Fits => 0,
            Fit::Unfit => 10,
        }
    }
}
