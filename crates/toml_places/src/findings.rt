/// Where a key and its value stand in a text, in bytes from its beginning.
#[derive(Clone, Copy, Debug, PartialEq, Eq)]
pub struct Spot {
    /// Where the key begins; for one that a header says, where the header does.
    pub key: usize,
    /// Where its value begins.
    pub value: usize,
    /// Where its value ends; where it begins, if a header says the key.
    pub end: usize,
}

/// What a search has found.
#[derive(Clone, Copy, Debug, PartialEq, Eq)]
pub struct Findings {
    /// Where the header of the entry begins, in bytes from the beginning of the text; none at the top, and for an entry
    /// that has no header of its own.
    pub entry: Option<usize>,
    /// The key, if the entry says it.
    pub key: Option<Spot>,
}

/// How far a search has come.
#[derive(Clone, Copy, Debug, PartialEq, Eq)]
pub(crate) enum Stage {
    /// So many entries come before the one that is meant.
    Before(usize),
    /// In the entry, under its own header.
    Inside,
    /// In the entry, under the header of a table of its own.
    Beside,
    /// Behind the entry.
    Behind,
}

/// A search on its way.
#[derive(Clone, Copy, Debug, PartialEq, Eq)]
pub(crate) struct Progress {
    /// How far it has come.
    pub(crate) stage: Stage,
    /// What it has found.
    pub(crate) findings: Findings,
}
