//! Worked rows of the libraries below, in their public calls: what lines of words ask for, and what files give;
//! faults, refusals and refused offers, as lines, as objects of JSON as examples/json has them, and as a person reads
//! them, with where keys stand in a text; domain texts that are written; and what other devices make of meters. They
//! stand here, and not beside those calls, since a crate with tests is proved twice.
#![tactic(auto)]

#[cfg(test)]
mod answer_rows;
#[cfg(test)]
mod device_rows;
#[cfg(test)]
mod export_rows;
#[cfg(test)]
mod fault_rows;
#[cfg(test)]
mod file_rows;
#[cfg(test)]
mod flaw_rows;
#[cfg(test)]
mod place_rows;
#[cfg(test)]
mod plan_rows;
#[cfg(test)]
mod refusal_rows;
#[cfg(test)]
mod writing_rows;
