use crate::content::Place;

/// A frame of a piece.
#[derive(Clone, Copy, Debug)]
pub struct Entry {
    /// Where it ends in the piece's text: it starts where the one before ends.
    pub end: usize,
    /// Where its packet stands.
    pub place: Place,
}
