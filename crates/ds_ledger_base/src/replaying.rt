ghost use Rattle.std.specs.Prelude.{◌≡◌, ◌⊎◌, Err, IfErr, Ok, OnOk};
ghost use Rattle.ds_ledger_base.specs.Replays.{replay};

use crate::fault::RefusedReplay;
use ds_broker::{Book, BrokerRefusal, Command};

/// Asks commands of a book in their order, and gives no answers: those of a ledger, when its broker begins again.
///
/// Refused for the first command that the book refuses, with its serial, or `NoMemory` where memory runs out at it.
pub fn replay(book: &mut Book, kept: Vec<Command>) -> Result<(), RefusedReplay>
    ensures whole { OnOk result (replay book.old kept.items ≡ Ok book.new) }
    ensures refused { IfErr result (λ it. (it.refusal ≡ BrokerRefusal.NoMemory)
        ⊎ (replay book.old kept.items ≡ Err (it.serial, it.refusal))) }
{
    'commands: for command in kept {
        let serial = u64::from(book.serial().get()) + 1;
        match book.accept(command) {
            Ok(_serial) => {}
            Err((_command, refusal)) => return Err(RefusedReplay { serial, refusal }),
        }
    }
    Ok(())
}
