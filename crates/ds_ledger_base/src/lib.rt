//! What keeps the commands that a broker's book accepted, from one run to the next.
#![tactic(auto)]

mod fault;
mod ledger;
mod replaying;

pub use fault::{BookFault, LedgerFault, RefusedReplay};
pub use ledger::{Ledger, Shelf, Unkept};
pub use replaying::replay;
