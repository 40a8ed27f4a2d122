//! Worked rows of the whole program: words, files and input in, and what it writes, what it tells and its status out. They
//! stand here, and not beside `start`, since a crate with tests is proved twice.
#![tactic(auto)]

#[cfg(test)]
mod advice_rows;
#[cfg(test)]
mod arrival_rows;
#[cfg(test)]
mod audit_rows;
#[cfg(test)]
mod book_rows;
#[cfg(test)]
mod conversation_rows;
#[cfg(test)]
mod draw_rows;
#[cfg(test)]
mod drive_rows;
#[cfg(test)]
mod excess_rows;
#[cfg(test)]
mod explained_rows;
#[cfg(test)]
mod mark_rows;
#[cfg(test)]
mod offer_rows;
#[cfg(test)]
mod quote_rows;
#[cfg(test)]
mod rows;
#[cfg(test)]
mod terminal_rows;
#[cfg(test)]
mod verdict_rows;
