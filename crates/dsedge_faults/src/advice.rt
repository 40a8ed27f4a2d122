use dsedge_texts::{FaultyLine, Reason};

/// What there is to say behind the line of a fault, where it is read at a terminal.
#[derive(Clone, Copy, Debug, PartialEq, Eq)]
pub enum Advice {
    /// Which of the words is wrong.
    Words,
    /// Why a file cannot be read.
    File(Reason),
    /// The line of a certificate's text that is at fault.
    Certificate(FaultyLine),
    /// Which link type a capture has, and which are read.
    LinkType(u16),
    /// How many bytes a record is said to have, and how many are read.
    RecordTooLong(u32),
}
