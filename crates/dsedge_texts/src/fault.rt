use dsedge_lines::GivenName;
use thiserror::Error;

/// Why a file cannot be read.
#[derive(Clone, Copy, Debug, PartialEq, Eq, Error)]
pub enum Reason {
    /// There is no such file.
    #[error("there is no such file")]
    Absent,
    /// The system refuses it, by the error of this number.
    #[error("the system refuses it")]
    System(i32),
    /// It failed while it was read.
    #[error("it failed while it was read")]
    Failed,
    /// It has more than 16 MiB.
    #[error("it has more than 16 MiB")]
    TooLong,
}

/// Why a file gives no text.
#[derive(Clone, Copy, Debug, PartialEq, Eq, Error)]
pub enum FileFault {
    /// It cannot be read, for this reason.
    #[error("the file cannot be read")]
    Unreadable(Reason),
    /// Memory ran out.
    #[error("memory ran out")]
    NoMemory,
}

/// Why not all of some files gave their texts.
#[derive(Debug, Drop)]
pub enum TextFault<'a> {
    /// The first file that gives none, by its name, and the reason.
    File(GivenName<'a>, Reason),
    /// Memory ran out.
    NoMemory,
}
