use crate::heading::Heading;

/// How far a capture has been read.
#[derive(Clone, Copy, Debug, PartialEq, Eq)]
pub enum Stage {
    /// Its heading is not yet there whole.
    Opening,
    /// It has this heading, and records come.
    Records(Heading),
    /// A fault was answered.
    Broken,
}
