/// What an expression is.
#[derive(Clone, Copy, Debug, PartialEq, Eq)]
pub(crate) enum Shape {
    /// A pair of a key and a value.
    Pair,
    /// The header of a table.
    Table,
    /// The header of an entry of an array of tables.
    Entry,
}
