//! A bandwidth broker for many callers (the idea of RFC 2638), with feeds: readers who see its newest table, and wait
//! for nobody.
#![tactic(auto)]

mod answer;
mod broker;
mod desk;
mod fault;
mod feed;
mod log;
mod page;
mod press;
mod trail;

pub use answer::{Done, Granted, Refused, Told};
pub use broker::Broker;
pub use desk::Desk;
pub use fault::LookFault;
pub use feed::{Feed, Seen};
pub use log::{Front, Naming, Opened};
