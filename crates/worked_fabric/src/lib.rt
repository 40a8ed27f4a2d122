//! Worked rows of fabrics: what threads that share meters leave behind. They stand here, and not beside the calls,
//! since a crate with tests is proved twice.
#![tactic(auto)]

#[cfg(test)]
mod rows;
