//! The book of a bandwidth broker (the idea of RFC 2638): it grants a contract only where a checked certificate carries
//! it beside all others, and gives a released contract's share away only when its hold has passed.
#![tactic(auto)]

pub mod book;
pub mod change;
pub mod command;
pub mod entry;
pub mod laws;
pub mod limits;
pub mod refusal;
pub mod shared;

pub use book::{Book, Next};
pub use change::{Change, Step};
pub use command::Command;
pub use entry::{Entry, Grant, Room, Serial};
pub use limits::Limits;
pub use refusal::BrokerRefusal;
pub use shared::SharedTable;
