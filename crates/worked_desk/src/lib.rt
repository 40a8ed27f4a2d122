//! Worked rows of a broker that many threads call: what it and its feeds answer. They stand here, and not beside those
//! calls, since a crate with tests is proved twice.
#![tactic(auto)]

#[cfg(test)]
mod broker_rows;
#[cfg(test)]
mod desks;
#[cfg(test)]
mod flow_rows;
#[cfg(test)]
mod full_rows;
#[cfg(test)]
mod limit_rows;
#[cfg(test)]
mod memory_rows;
#[cfg(test)]
mod room_rows;
#[cfg(test)]
mod thread_rows;
