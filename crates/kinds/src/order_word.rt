// The orders as a word kind. Orders have no sum.
ghost use Rattle.word.specs.declared.Letter.TheVariants.{O as letter_o};
ghost use Rattle.kinds.specs.Orders.{order_zero, order_code};
ghost use Rattle.kinds.specs.Apart.{order_apart};
ghost use Rattle.std.proofs.Common.{rules};

use crate::order::Order;
use word::{Letter, Word};

impl Word for Order {
    ghost kind = { letter_o };

    ghost nought = { order_zero };

    ghost coded = { order_code };

    ghost nought_code = { Prim.search rules };

    ghost in_row = { Prim.search rules };

    ghost apart = { order_apart };

    fn letter() -> Letter {
        Letter::O
    }

    fn zero() -> Order {
        Order::new(0, 0)
    }

    fn code(self) -> u64 {
        self.opcode as u64 * 1_000 + self.operand as u64
    }

    fn from_code(code: u64) -> Option<Order> {
        (code <= Letter::O.last_code()).then(|| Order::new(
            (code / 1_000) as u8,
            (code % 1_000) as u16,
        ))
    }
}
