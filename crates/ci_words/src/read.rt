//! The reading of the words.
ghost use Rattle.std.specs.Prelude.{◌<◌, length, IfOk};
ghost use Rattle.ci_words.specs.Bounds.{IsInBounds};
ghost use Rattle.ci_words.specs.Order.{Orders, OrdersAs};

use crate::command::{Command, command_named};
use crate::fault::{WordFault, first_fault};
use crate::order::{Order, order_of};
use ci_base::Bytes;

/// What the words after the program's name ask for, or the fault that is given of those that they have. Takes no memory.
pub fn read_words(words: &[Bytes]) -> Result<Order, WordFault>
    ensures answer { Orders words.now result }
    ensures within { IfOk result (IsInBounds words.now) }
{
    let Some(first) = words.first() else {
        return Err(WordFault {
            number: 1,
            index: 0,
        });
    };
    match command_named(first.bytes()) {
        Some(command) => read_later(command, words),
        None => Err(WordFault {
            number: 2,
            index: 0,
        }),
    }
}

/// What the words ask for, whose first one is this command.
fn read_later(command: Command, words: &[Bytes]) -> Result<Order, WordFault>
    requires { 0 < length words.now }
    ensures answer { OrdersAs command words.now result }
    ensures within { IfOk result (IsInBounds words.now) }
{
    match first_fault(command, words) {
        Some(found) => Err(WordFault {
            number: found.fault.number(),
            index: found.at as u32,
        }),
        None => Ok(order_of(command, words)),
    }
}
