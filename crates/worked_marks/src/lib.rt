//! Worked rows of marked captures: what frames, visits, captures and their verdicts give in the public calls of the
//! libraries below. They stand here, and not beside those calls, since a crate with tests is proved twice.
#![tactic(auto)]

#[cfg(test)]
mod block_rows;
#[cfg(test)]
mod captures;
#[cfg(test)]
mod fault_rows;
#[cfg(test)]
mod frame_rows;
#[cfg(test)]
mod gate_rows;
#[cfg(test)]
mod long_captures;
#[cfg(test)]
mod mark_rows;
#[cfg(test)]
mod marking;
#[cfg(test)]
mod seeing_rows;
#[cfg(test)]
mod stream_rows;
#[cfg(test)]
mod tables;
#[cfg(test)]
mod train_rows;
#[cfg(test)]
mod verdict_rows;
#[cfg(test)]
mod visit_rows;
#[cfg(test)]
mod worker_rows;
