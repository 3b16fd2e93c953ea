// Where a port or an address of a layer is.
ghost use Rattle.joint.specs.Places.{PlacedAt};

/// The half that has a port or an address of a layer, and its number there.
#[derive(Clone, Copy)]
pub enum Place {
    First(usize),
    Second(usize),
}

impl Place {
    /// The place of a number of the layer, where the first half has the numbers below `first`.
    pub fn of(first: usize, number: usize) -> Place
        ensures { PlacedAt first number result }
    {
        if number < first {
            Place::First(number)
        } else {
            Place::Second(number - first)
        }
    }
}
