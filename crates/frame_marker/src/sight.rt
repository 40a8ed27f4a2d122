ghost use Rattle.std.specs.Prelude.{◌≡◌, None};
ghost use Rattle.frame_marker.specs.declared.sight.Sight.TheVariants.{Carried, Skipped};

use crate::mark::Mark;
use af_marker::Summary;

/// What a frame is at a port.
#[derive(Clone, Copy, Debug, PartialEq, Eq)]
pub enum Sight {
    /// It holds no packet.
    Carried,
    /// It has no header of IPv4 or IPv6 that can be read; or it has one of IPv6, and the domain's version has no IPv6.
    Skipped,
    /// It has a header, and no contract of the port takes it.
    Unmatched,
    /// A contract takes it.
    Matched {
        /// The number of the first contract of the port whose rule holds.
        flow: u32,
        /// What is kept of the header of its packet.
        header: Summary,
    },
}

/// A frame that was seen at a port.
#[derive(Clone, Copy, Debug)]
pub struct Seen {
    /// What it is.
    pub sight: Sight,
    /// What marking it needs, where it has a header that can be read.
    pub mark: Option<Mark>,
}

impl Seen {
    /// A frame without a packet.
    pub(crate) fn without_packet() -> Self
        ensures { result ≡ record { sight = Carried; mark = None } }
    {
        Seen {
            sight: Sight::Carried,
            mark: None,
        }
    }

    /// A frame without a header that can be read.
    pub(crate) fn without_header() -> Self
        ensures { result ≡ record { sight = Skipped; mark = None } }
    {
        Seen {
            sight: Sight::Skipped,
            mark: None,
        }
    }
}
