// A write port of the register file, with the latch in which its word waits.
ghost use Rattle.std.specs.Prelude.{◌≡◌, ℕ, ◌<◌, length};
ghost use Rattle.port.specs.declared.WritePort.TheVariants.{Free, Holding};
ghost use Rattle.port.specs.declared.Event.TheVariants.{Store};
ghost use Rattle.port.specs.Ports.{landed, stepped};
ghost use Rattle.regfile.specs.Slots.{landed_all, port_at, vacant};

use kinds::Bits64;
use port::{Event, WritePort};
use word::Word;

#[derive(Clone, Copy)]
pub(crate) struct Slot {
    pub(crate) port: WritePort,
    pub(crate) latch: Bits64,
}

impl Slot {
    // A free port, with zero in its latch.
    pub(crate) fn vacant() -> Self
        ensures { result ≡ vacant }
    {
        Slot {
            port: WritePort::Free,
            latch: Bits64::zero(),
        }
    }

    // The slot after a store to its port, with the word in its latch.
    pub(crate) fn store(self, address: usize, word: Bits64) -> Self
        ensures { result ≡ record { port = stepped self.port (Store address); latch = word } }
    {
        let mut port = self.port;
        port.step(Event::Store(address));
        Slot { port, latch: word }
    }

    // Puts the word at the address that the port holds.
    pub(crate) fn land(&self, words: &mut [Bits64])
        requires { (x : ℕ) → self.now.port ≡ Holding x → x < length words.old }
        ensures { words.new ≡ landed self.now.port self.now.latch words.old }
    {
        if let WritePort::Holding(address) = self.port {
            words[address] = self.latch;
        }
    }

    // Makes the port free; the latch is as it was.
    pub(crate) fn free(&mut self)
        ensures port { self.new.port ≡ Free }
        ensures latch { self.new.latch ≡ self.old.latch }
    {
        self.port.step(Event::Edge);
    }
}

// Puts the word of each slot at the address that its port holds, the first slot's first.
pub(crate) fn land_all(slots: &[Slot], words: &mut [Bits64])
    requires { (q x : ℕ) → port_at slots.now q ≡ Holding x → x < length words.old }
    ensures { words.new ≡ landed_all slots.now words.old }
{
    for slot in slots {
        slot.land(words);
    }
}
