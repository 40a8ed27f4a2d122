//! Worked rows of the libraries below: what meters, envelopes and books answer in their public calls. They stand
//! here, and not beside those calls, since a crate with tests is proved twice.
#![tactic(auto)]

#[cfg(test)]
mod rows;
