ghost use Rattle.std.specs.Prelude.{◌≡◌, ◌^◌, ◌<◌, ◌≤◌, length};
ghost use Rattle.pcapng_capture.specs.Options.{interface_in, offset_in, offset_of, option_of, resolution_in};

use crate::options::option;
use pcap_capture::{Endianness, LinkType};

/// Whole seconds that are added to the stamps of an interface.
#[derive(Clone, Copy, Debug, PartialEq, Eq)]
pub(crate) enum Offset {
    /// So many are added.
    Ahead(u64),
    /// So many are taken away.
    Behind(u64),
}

/// An interface of a section.
#[derive(Clone, Copy, Debug, PartialEq, Eq)]
pub(crate) struct Interface {
    /// Its link type.
    pub(crate) link: LinkType,
    /// The most bytes that it keeps of a packet; 0 where there is no such limit.
    pub(crate) snap: u32,
    /// The unit of its stamps: a power of 10 of them make a second, or, from 128 on, one of 2.
    pub(crate) resolution: u8,
    /// What is added to its stamps.
    pub(crate) offset: Offset,
}

impl Interface {
    /// What an interface description block says.
    #[tactic(auto, unfolding(crate::specs::Options::interface_in))]
    pub(crate) fn of(order: Endianness, own: &[u8]) -> Self
        requires { 20 ≤ length own.now }
        ensures { result ≡ interface_in order own.now }
    {
        let (front, _) = own.split_at(own.len() - 4);
        let (_, options) = front.split_at(16);
        Interface {
            link: LinkType::of_number(order.read_u16(&own[8..])),
            snap: order.read_u32(&own[12..]),
            resolution: unit_of_stamps(order, options),
            offset: added_seconds(order, options),
        }
    }
}

/// The unit of stamps that options say.
fn unit_of_stamps(order: Endianness, options: &[u8]) -> u8
    ensures { result ≡ resolution_in (option_of order 9 1 options.now) }
{
    match option(order, 9, 1, options) {
        None => 6,
        Some(value) => value[0],
    }
}

/// What options say that is added to stamps.
fn added_seconds(order: Endianness, options: &[u8]) -> Offset
    ensures { result ≡ offset_in order (option_of order 14 8 options.now) }
{
    match option(order, 14, 8, options) {
        None => Offset::Ahead(0),
        Some(value) => signed(order.read_u64(value)),
    }
}

/// Seconds of 64 bits with a sign.
fn signed(seconds: u64) -> Offset
    ensures { result ≡ offset_of seconds }
{
    if seconds < 1 << 63 {
        Offset::Ahead(seconds)
    } else {
        Offset::Behind(u64::MAX - seconds + 1)
    }
}
