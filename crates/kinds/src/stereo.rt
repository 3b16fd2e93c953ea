// The stereo samples: the type, its constructor and its readers.
ghost use Rattle.std.specs.Prelude.{◌≡◌, ◌<◌};

/// A left and a right sample of 16 bits each.
#[derive(Clone, Copy, PartialEq, Eq)]
pub struct Stereo {
    pub(crate) left: u16,
    pub(crate) right: u16,
    ghost small: { (left < 65536) × (right < 65536) },
}

impl Stereo {
    /// The word with these samples.
    pub fn new(left: u16, right: u16) -> Stereo
        ensures left { result.left ≡ left }
        ensures right { result.right ≡ right }
    {
        Stereo { left, right }
    }

    /// The left sample.
    pub fn left(self) -> u16
        ensures { result ≡ self.left }
    {
        self.left
    }

    /// The right sample.
    pub fn right(self) -> u16
        ensures { result ≡ self.right }
    {
        self.right
    }
}
