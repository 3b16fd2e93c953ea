// Why a memory refuses a call.
ghost use Rattle.std.specs.Prelude.{◌≡◌};
ghost use Rattle.memory.specs.Refusals.{refusal};

/// Why a call is refused, in the order of judging. A refused call leaves everything as it was.
#[derive(Clone, Copy)]
pub enum Refusal {
    /// There is no such port.
    NoPort,
    /// The address is not below the depth.
    NoAddress,
    /// The port has served a call since the last edge.
    Busy,
    /// Another write port holds the address.
    Held,
}

impl Refusal {
    /// The refusal's number.
    // By `match`: a number on each case would alter what `as u8` gives of it, its place from 0.
    pub fn number(self) -> u8
        ensures { result ≡ refusal self }
    {
        match self {
            Refusal::NoPort => 1,
            Refusal::NoAddress => 2,
            Refusal::Busy => 3,
            Refusal::Held => 4,
        }
    }
}
