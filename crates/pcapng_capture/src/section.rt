ghost use Rattle.std.specs.Prelude.{◌≡◌, ◌⊎◌, ◌+◌, ◌*◌, ◌<◌, ◌≤◌, ◌^◌, [], drop, length, Ok, Err, None};
ghost use Rattle.std.specs.Prelude.{IfErr, IfOk, IsOk, MatchOption, is_some, max, slice_get};
ghost use Rattle.pcap_capture.specs.Grammar.{number};
ghost use Rattle.pcap_capture.specs.Frames.{frame_at};
ghost use Rattle.pcapng_capture.specs.Blocks.{carried};
ghost use Rattle.pcapng_capture.specs.Grammar.{begun, described, least_size, magic_order, no_section, order_of};
ghost use Rattle.pcapng_capture.specs.Grammar.{size_by, size_of, step_by, step_of};
ghost use Rattle.pcapng_capture.specs.Packets.{interface_number, kept, simple, stamp, stamped};
ghost use Rattle.pcap_capture.specs.Pieces.{IsPlaced};
ghost use Rattle.pcapng_capture.specs.Pieces.{IsFront};

use crate::interface::Interface;
use crate::place::Front;
use byteorder::{BigEndian, ByteOrder, LittleEndian};
use moment_core::Moment;
use pcap_capture::{Content, Endianness, PcapFault, Place};
use std::alloc::Global;
use std::marker::Model;

/// The type of a section header, which reads the same in either order.
const SECTION_HEADER: u32 = 0x0a0d_0d0a;

/// The magic number of a section header that says the order of the section's numbers.
const MAGIC: u32 = 0x1a2b_3c4d;

/// The most bytes of a block that is read.
const MOST: u32 = 16_777_216;

/// What was read so far of a capture.
#[derive(Debug, Drop)]
pub(crate) struct Section {
    /// The order of the section's numbers, once there was a section header.
    order: Option<Endianness>,
    /// The section's interfaces.
    interfaces: Vec<Interface>,
    /// The greatest moment of a packet in any section.
    newest: Moment,
}

impl Model for Section {
    ghost use Rattle.pcapng_capture.specs.Packets.{SectionValue};

    ghost Value = { SectionValue };

    ghost view = { λ s. record { order = s.order; interfaces = s.interfaces.items; newest = s.newest } };
}

/// The order that a byte-order magic says.
#[tactic(auto, unfolding(crate::specs::Grammar::magic_order))]
fn magic_order(bytes: &[u8]) -> Option<Endianness>
    requires { 4 ≤ length bytes.now }
    ensures { result ≡ magic_order bytes.now }
{
    if BigEndian::read_u32(bytes) == MAGIC {
        Some(Endianness::Big)
    } else if LittleEndian::read_u32(bytes) == MAGIC {
        Some(Endianness::Little)
    } else {
        None
    }
}

/// The fewest bytes of a block of this type.
#[tactic(auto, unfolding(crate::specs::Grammar::least_size))]
fn least_size(kind: u32) -> u32
    ensures value { result ≡ least_size kind }
    ensures least { 12 ≤ result }
{
    match kind {
        SECTION_HEADER => 28,
        1 => 20,
        2 | 6 => 32,
        3 => 16,
        _ => 12,
    }
}

/// The size that a block tells which has at least so many bytes.
///
/// Refused: `BlockTooLong` beyond 16 MiB, then `BadLength`.
fn size_by(least: u32, size: u32) -> Result<usize, PcapFault>
    ensures { result ≡ size_by least size }
{
    if size > MOST {
        return Err(PcapFault::BlockTooLong(size));
    }
    if size < least || size % 4 != 0 {
        return Err(PcapFault::BadLength(size));
    }
    Ok(size as usize)
}

/// The size that the first block of a capture tells: 12 where no more is known of it, since not so many bytes are there.
///
/// Refused: `BadMagic` where it is no section header, or one whose magic says no order, then `BlockTooLong` and
/// `BadLength`.
#[tactic(auto, unfolding(crate::specs::Grammar::size_of, crate::specs::Grammar::order_of))]
pub fn first_size(bytes: &[u8]) -> Result<usize, PcapFault>
    ensures { result ≡ size_of no_section bytes.now }
{
    if bytes.len() < 12 {
        return Ok(12);
    }
    if BigEndian::read_u32(bytes) != SECTION_HEADER {
        return Err(PcapFault::BadMagic);
    }
    match magic_order(&bytes[8..]) {
        None => Err(PcapFault::BadMagic),
        Some(order) => size_by(
            least_size(order.read_u32(bytes)),
            order.read_u32(&bytes[4..]),
        ),
    }
}

/// How many bytes of a packet a simple packet block has.
fn kept(snap: u32, original: u32, room: u32) -> u32
    ensures { result ≡ kept snap original room }
{
    if snap == 0 {
        original.min(room)
    } else {
        original.min(snap).min(room)
    }
}

/// A block of these bytes that is carried over as it stands.
fn carried(own: &[u8]) -> Place
    requires least { 12 ≤ length own.now }
    requires most { length own.now ≤ 16777216 }
    ensures value { frame_at own.now result ≡ carried own.now }
    ensures placed { IsPlaced result (length own.now) }
{
    Place {
        moment: Moment::new(0).unwrap(),
        front: own.len() as u32,
        size: 0,
        content: Content::Other,
    }
}

/// The number of the interface of a packet with a stamp: an old packet block of this type has 16 bits for it.
fn interface_number(order: Endianness, kind: u32, own: &[u8]) -> u32
    requires { 32 ≤ length own.now }
    ensures { result ≡ interface_number order kind own.now }
{
    if kind == 2 {
        u32::from(order.read_u16(&own[8..]))
    } else {
        order.read_u32(&own[8..])
    }
}

/// The stamp of a packet.
fn stamp(order: Endianness, own: &[u8]) -> u64
    requires { 32 ≤ length own.now }
    ensures { result ≡ stamp order own.now }
{
    let high = u64::from(order.read_u32(&own[12..]));
    let low = u64::from(order.read_u32(&own[16..]));
    high * 0x1_0000_0000 + low
}

/// The later of two moments.
fn later(newest: Moment, moment: Moment) -> Moment
    ensures { result ≡ max newest moment }
{
    newest.max(moment)
}

impl Section {
    /// Before the first block. It takes no memory yet.
    pub(crate) fn none(alloc: Global) -> Self
        ensures { result ≡ no_section }
    {
        Section {
            order: None,
            interfaces: Vec::new(alloc),
            newest: Moment::new(0).unwrap(),
        }
    }

    /// Is as before the first block from then on.
    pub(crate) fn reset(&mut self)
        ensures { self.new ≡ no_section }
    {
        self.order = None;
        self.interfaces.truncate(0);
        self.newest = Moment::new(0).unwrap();
    }

    /// Whether there was a section header.
    pub(crate) fn is_begun(&self) -> bool
        ensures { result ≡ is_some self.now.order }
    {
        self.order.is_some()
    }

    /// The order of the numbers of the block at the front, if it is known.
    #[tactic(auto, unfolding(crate::specs::Grammar::order_of))]
    fn order_of(&self, bytes: &[u8]) -> Option<Endianness>
        requires { 12 ≤ length bytes.now }
        ensures { result ≡ order_of self.now bytes.now }
    {
        if BigEndian::read_u32(bytes) == SECTION_HEADER {
            magic_order(&bytes[8..])
        } else {
            self.order
        }
    }

    /// The order of the numbers of the block at the front, and its type, if the order is known.
    pub(crate) fn front(&self, bytes: &[u8]) -> Option<Front>
        requires { 12 ≤ length bytes.now }
        ensures { MatchOption result
            (order_of self.now bytes.now ≡ None)
            (λ front. IsFront front self.now bytes.now) }
    {
        let order = self.order_of(bytes)?;
        Some(Front {
            order,
            kind: order.read_u32(bytes),
        })
    }

    /// The size of the block at the front, of which that is known.
    ///
    /// Refused: `BlockTooLong`, then `BadLength`.
    #[tactic(auto, unfolding(crate::specs::Grammar::size_of))]
    pub(crate) fn size_behind(&self, front: Front, bytes: &[u8]) -> Result<usize, PcapFault>
        requires long { 12 ≤ length bytes.now }
        requires known { IsFront front self.now bytes.now }
        ensures { result ≡ size_of self.now bytes.now }
    {
        size_by(least_size(front.kind), front.order.read_u32(&bytes[4..]))
    }

    /// The size of the block at the front: 12 where no more is known of it, since not so many bytes are there.
    ///
    /// Refused: `BadMagic` where the order of its numbers is not known, then `BlockTooLong` and `BadLength`.
    #[tactic(auto, unfolding(crate::specs::Grammar::size_of))]
    pub(crate) fn size(&self, bytes: &[u8]) -> Result<usize, PcapFault>
        ensures { result ≡ size_of self.now bytes.now }
    {
        if bytes.len() < 12 {
            return Ok(12);
        }
        match self.front(bytes) {
            None => Err(PcapFault::BadMagic),
            Some(front) => self.size_behind(front, bytes),
        }
    }

    /// Reads a block that has just these bytes, by its front.
    ///
    /// Refused: `LengthsDiffer`; `BadVersion` of a section header; `BadLength`, then `UnknownInterface` of a packet;
    /// `NoMemory`, where an interface is kept.
    #[tactic(auto, unfolding(crate::specs::Grammar::step_of))]
    pub(crate) fn read_block(&mut self, front: Front, own: &[u8]) -> Result<Place, PcapFault>
        requires least { 12 ≤ length own.now }
        requires sized { size_of self.old own.now ≡ Ok (length own.now) }
        requires known { IsFront front self.old own.now }
        ensures ok { IfOk result (λ place. step_of self.old own.now
            ≡ Ok (record { section = self.new; block = frame_at own.now place })) }
        ensures placed { IfOk result (λ place. IsPlaced place (length own.now)) }
        ensures err { IfErr result (λ fault. (step_of self.old own.now ≡ Err fault)
            ⊎ ((fault ≡ PcapFault.NoMemory) × IsOk (step_of self.old own.now))) }
    {
        if front.order.read_u32(&own[own.len() - 4..]) as usize != own.len() {
            return Err(PcapFault::LengthsDiffer);
        }
        self.step(front, own)
    }

    /// Reads a block of these bytes by its type, in a section of this order.
    #[tactic(auto, unfolding(crate::specs::Grammar::least_size))]
    fn step(&mut self, front: Front, own: &[u8]) -> Result<Place, PcapFault>
        requires least { least_size front.kind ≤ length own.now }
        requires most { length own.now ≤ 16777216 }
        ensures ok { IfOk result (λ place. step_by self.old front.order own.now front.kind
            ≡ Ok (record { section = self.new; block = frame_at own.now place })) }
        ensures placed { IfOk result (λ place. IsPlaced place (length own.now)) }
        ensures err { IfErr result (λ fault.
            (step_by self.old front.order own.now front.kind ≡ Err fault)
            ⊎ ((fault ≡ PcapFault.NoMemory) × IsOk (step_by self.old front.order own.now front.kind))) }
    {
        let Front { order, kind } = front;
        match kind {
            SECTION_HEADER => self.begin(order, own),
            1 => self.describe(order, own),
            2 | 6 => self.packet(order, own, interface_number(order, kind, own)),
            3 => self.simple_packet(order, own),
            _ => Ok(carried(own)),
        }
    }

    /// Begins a section.
    fn begin(&mut self, order: Endianness, own: &[u8]) -> Result<Place, PcapFault>
        requires least { 28 ≤ length own.now }
        requires most { length own.now ≤ 16777216 }
        ensures ok { IfOk result (λ place. begun self.old order own.now
            ≡ Ok (record { section = self.new; block = frame_at own.now place })) }
        ensures placed { IfOk result (λ place. IsPlaced place (length own.now)) }
        ensures err { IfErr result (λ fault. begun self.old order own.now ≡ Err fault) }
    {
        if order.read_u16(&own[12..]) != 1 {
            return Err(PcapFault::BadVersion);
        }
        self.order = Some(order);
        self.interfaces.clear();
        Ok(carried(own))
    }

    /// Adds an interface.
    fn describe(&mut self, order: Endianness, own: &[u8]) -> Result<Place, PcapFault>
        requires least { 20 ≤ length own.now }
        requires most { length own.now ≤ 16777216 }
        ensures ok { IfOk result (λ place. described self.old order own.now
            ≡ record { section = self.new; block = frame_at own.now place }) }
        ensures placed { IfOk result (λ place. IsPlaced place (length own.now)) }
        ensures err { IfErr result (λ fault. fault ≡ PcapFault.NoMemory) }
    {
        let Ok(()) = self.interfaces.push(Interface::of(order, own)) else {
            return Err(PcapFault::NoMemory);
        };
        Ok(carried(own))
    }

    /// The interface of this number, if it was described.
    fn interface(&self, number: u32) -> Option<Interface>
        ensures { result ≡ slice_get self.now.interfaces number }
    {
        self.interfaces.get(number as usize).copied()
    }

    /// Reads a packet with a stamp, of the interface of this number.
    fn packet(&mut self, order: Endianness, own: &[u8], number: u32) -> Result<Place, PcapFault>
        requires least { 32 ≤ length own.now }
        requires most { length own.now ≤ 16777216 }
        ensures ok { IfOk result (λ place. stamped self.old order own.now number
            ≡ Ok (record { section = self.new; block = frame_at own.now place })) }
        ensures placed { IfOk result (λ place. IsPlaced place (length own.now)) }
        ensures err { IfErr result (λ fault. stamped self.old order own.now number ≡ Err fault) }
    {
        let size = order.read_u32(&own[20..]);
        if own.len() - 32 < size as usize {
            return Err(PcapFault::BadLength(own.len() as u32));
        }
        let Some(interface) = self.interface(number) else {
            return Err(PcapFault::UnknownInterface(number));
        };
        let moment = interface.moment(stamp(order, own));
        self.newest = later(self.newest, moment);
        Ok(Place {
            moment,
            front: 28,
            size,
            content: Content::Block(interface.link, order),
        })
    }

    /// Reads a packet without a stamp, of the first interface.
    fn simple_packet(&self, order: Endianness, own: &[u8]) -> Result<Place, PcapFault>
        requires least { 16 ≤ length own.now }
        requires most { length own.now ≤ 16777216 }
        ensures ok { IfOk result (λ place. simple self.now order own.now
            ≡ Ok (record { section = self.now; block = frame_at own.now place })) }
        ensures placed { IfOk result (λ place. IsPlaced place (length own.now)) }
        ensures err { IfErr result (λ fault. simple self.now order own.now ≡ Err fault) }
    {
        let Some(interface) = self.interface(0) else {
            return Err(PcapFault::UnknownInterface(0));
        };
        let size = kept(
            interface.snap,
            order.read_u32(&own[8..]),
            (own.len() - 16) as u32,
        );
        Ok(Place {
            moment: self.newest,
            front: 12,
            size,
            content: Content::Block(interface.link, order),
        })
    }
}
