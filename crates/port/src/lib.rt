// The write port of a macro, a state machine of two states and two events. The word of a port that
// holds an address waits in a latch of the macro.
#![tactic(auto)]

ghost use Rattle.std.specs.Prelude.{◌≡◌};
ghost use Rattle.port.specs.Ports.{stepped, held};

/// A write port whose word waits in a latch.
// Two states and no `Option`, by a rule of the project: a port is a state machine, moved by one `match`.
#[derive(Clone, Copy)]
pub enum WritePort {
    /// It has served no write since the last edge.
    Free,
    /// Its word waits for this address.
    Holding(usize),
}

/// What moves a write port.
#[derive(Clone, Copy)]
pub enum Event {
    /// A write to this address.
    Store(usize),
    /// The end of the cycle.
    Edge,
}

impl WritePort {
    /// A free port takes a store, a holding one keeps what it holds, and an edge frees either.
    pub fn step(&mut self, event: Event)
        ensures { self.new ≡ stepped self.old event }
    {
        *self = match (*self, event) {
            (WritePort::Free, Event::Store(address)) => WritePort::Holding(address),
            (WritePort::Holding(held), Event::Store(_)) => WritePort::Holding(held),
            (WritePort::Free, Event::Edge) => WritePort::Free,
            (WritePort::Holding(_), Event::Edge) => WritePort::Free,
        };
    }

    /// The address that the port holds.
    pub fn address(self) -> Option<usize>
        ensures { result ≡ held self }
    {
        match self {
            WritePort::Free => None,
            WritePort::Holding(address) => Some(address),
        }
    }
}
