//! Worked rows of a broker's book: what it answers to commands in its public calls; and of the whole life of a broker
//! that shares meters: contracts are granted, released and retired while their packets pass meters that threads share,
//! and what is left behind is judged over the timeline of what was granted. `life_rows::life` has that life, step by
//! step. They stand here, and not beside the calls, since a crate with tests is proved twice.
#![tactic(auto)]

#[cfg(test)]
mod book_rows;
#[cfg(test)]
mod books;
#[cfg(test)]
mod life_rows;
#[cfg(test)]
mod limit_rows;
#[cfg(test)]
mod timeline_rows;
