//! Files by their names, read whole or refused, and what the program answers to their texts.
#![tactic(auto)]

mod accepting;
mod certifying;
mod fault;
mod folder;
mod heading;
pub mod line;
mod memory;
mod quoting;
mod refusing;
mod system;
mod texts;
mod whole;
mod wording;

pub use accepting::{FaultyLine, TableFault, accept, candidate_in};
pub use certifying::certify;
pub use fault::{FileFault, Reason, TextFault};
pub use folder::Folder;
pub use heading::{headroom, least_candidate, push_headroom};
pub use memory::MemoryFolder;
pub use quoting::{QuoteFault, Quoted, place_named, push_asked_without, quote};
pub use refusing::RefusalLine;
pub use system::SystemFolder;
pub use texts::read_texts;
pub use whole::{MOST_BYTES, read_whole};
pub use wording::{
    column_text, contract_text, kind_text, name_text, push_figure, push_name, push_wide_figure,
    text_or_dash,
};
