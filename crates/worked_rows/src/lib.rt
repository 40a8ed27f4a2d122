//! Worked rows of the libraries below: what texts of domains and of certificates give, and what the checker says of
//! them, in their public calls. They stand here, and not beside those calls, since a crate with tests is proved twice.
#![tactic(auto)]

#[cfg(test)]
mod rows;
