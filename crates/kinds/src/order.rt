// The orders: the type, its constructor and its readers.
ghost use Rattle.std.specs.Prelude.{◌≡◌, ◌<◌, ◌%◌};

/// An opcode below 100 and an operand below 1,000.
#[derive(Clone, Copy, PartialEq, Eq)]
pub struct Order {
    pub(crate) opcode: u8,
    pub(crate) operand: u16,
    ghost small: { (opcode < 100) × (operand < 1000) },
}

impl Order {
    /// The order with this opcode, modulo 100, and this operand, modulo 1,000.
    pub fn new(opcode: u8, operand: u16) -> Order
        ensures opcode { result.opcode ≡ opcode % 100 }
        ensures operand { result.operand ≡ operand % 1000 }
    {
        Order {
            opcode: opcode % 100,
            operand: operand % 1_000,
        }
    }

    /// The opcode.
    pub fn opcode(self) -> u8
        ensures { result ≡ self.opcode }
    {
        self.opcode
    }

    /// The operand.
    pub fn operand(self) -> u16
        ensures { result ≡ self.operand }
    {
        self.operand
    }
}
