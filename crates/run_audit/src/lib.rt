//! Runs of the meters of a domain, over a table or a timeline: the premises that they are judged by, what follows of the
//! colours, how they are assembled from journals and trails, and the audit that judges them.
#![tactic(auto)]

pub mod assembling;
pub mod auditing;
pub mod basis;
pub mod fault;
mod grouping;
pub mod laws;
mod least;
mod links;
mod numbers;
mod orders;
mod packets;
pub mod run;
mod sending;
mod sites;
mod skews;
mod soundness;
mod sources;
pub mod times;
pub mod verdict;

pub use auditing::audit;
pub use basis::Ground;
pub use fault::AssembleFault;
pub use orders::by_contract;
pub use run::Run;
pub use sending::{Sending, sent_of};
pub use sources::filled;
pub use times::may_send;
pub use verdict::Verdict;
