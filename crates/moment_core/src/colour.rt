ghost use Rattle.std.specs.Prelude.{◌≡◌};

/// The colour of a packet (RFC 2697 section 1, RFC 2698 section 1), from the best to the worst.
#[derive(Clone, Copy, Debug, PartialEq, Eq)]
pub enum Colour {
    /// Within the committed rate.
    Green,
    /// Above the committed rate, within the peak or the excess.
    Yellow,
    /// Out of profile.
    Red,
}

/// Whether a meter heeds the colour that a packet comes in with (RFC 2697 section 3).
#[derive(Clone, Copy, Debug, PartialEq, Eq)]
pub enum Mode {
    /// Every packet is metered as if it came in uncoloured.
    Blind,
    /// The colour that a packet comes in with bounds the colour that it can leave with.
    Aware,
}

impl Mode {
    ghost use Rattle.moment_core.specs.Metering.{seen};

    /// The colour that a meter in this mode sees a packet come in with: green in blind mode.
    pub fn seen(self, came: Colour) -> Colour
        ensures { result ≡ seen self came }
    {
        match self {
            Mode::Blind => Colour::Green,
            Mode::Aware => came,
        }
    }
}
