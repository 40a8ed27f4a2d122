use crate::colour::Colour;

/// The packets that an envelope or a bound speaks of.
#[derive(Clone, Copy, Debug, PartialEq, Eq)]
pub enum Column {
    /// Green packets.
    Green,
    /// Green and yellow packets.
    All,
    /// Yellow packets.
    Excess,
}

impl Column {
    ghost use Rattle.std.specs.Prelude.{◌≡◌};
    ghost use Rattle.moment_core.specs.Columns.{counts, each_column};

    /// Every column, in the order in which they are judged.
    pub fn each() -> &'static [Column]
        ensures { result.now ≡ each_column }
    {
        &[Column::Green, Column::All, Column::Excess]
    }

    /// Whether it speaks of packets of a colour.
    pub fn counts(self, colour: Colour) -> bool
        ensures { result ≡ counts self colour }
    {
        match self {
            Column::Green => colour == Colour::Green,
            Column::All => colour != Colour::Red,
            Column::Excess => colour == Colour::Yellow,
        }
    }
}
