//! Rounds of visits: visits of a round may be made in any order, by any workers, and no packet comes later to a meter
//! than the skew.
//!
//! - a round: no moment exceeds its first by more than the skew, no packet stands twice in it, and it has at most 2^20
//!   visits (`Rounds.IsRound`)
//! - each round is as long as that allows (`Rounds.AreRounds`) → `rounds`
//! - what follows for every order that keeps the rounds (`Orders.KeepsRounds`) → `laws`
#![tactic(auto)]

pub mod cutting;
pub mod laws;
pub mod visit;

pub use cutting::{MOST_VISITS, rounds};
pub use visit::Visit;
