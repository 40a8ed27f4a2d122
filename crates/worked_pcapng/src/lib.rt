//! Worked rows of `pcapng_capture`: what captures that were made by hand give in its public calls. They stand here, and
//! not beside those calls, since a crate with tests is proved twice.
#![tactic(auto)]

#[cfg(test)]
mod block_rows;
#[cfg(test)]
mod captures;
#[cfg(test)]
mod fault_rows;
#[cfg(test)]
mod mark_rows;
#[cfg(test)]
mod reads;
#[cfg(test)]
mod stamp_rows;
