//! Worked rows of runs: what packets on their way, steps and journals give in the public calls of the libraries below.
//! They stand here, and not beside those calls, since a crate with tests is proved twice.
#![tactic(auto)]

#[cfg(test)]
mod many_rows;
#[cfg(test)]
mod run_rows;
#[cfg(test)]
mod step_rows;
#[cfg(test)]
mod tables;
#[cfg(test)]
mod traveller_rows;
