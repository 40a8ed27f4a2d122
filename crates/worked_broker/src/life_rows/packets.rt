//! Packets in numbers, and how a thread takes them on their way.
use af_marker::Dscp;
use meter_fabric::{Fabric, FabricLedger, Pass, Trail, Traveller, VisitFault, Ways};
use moment_core::{Moment, PacketSize};
use std::alloc::Global;
use std::process::Abort;
use std::sync::Wait;

/// A packet in numbers.
#[derive(Clone, Copy)]
pub struct Packet {
    /// Its number.
    pub number: u64,
    /// Its size in bytes.
    pub size: u64,
    /// Its code point.
    pub dscp: u8,
    /// When it begins.
    pub begun: u64,
    /// When it comes to each of its hops.
    pub comes: u64,
}

/// A packet on its way, and when it comes to each of its hops.
#[derive(Drop)]
pub struct OnWay {
    traveller: Traveller,
    comes: Moment,
}

/// A packet of a flow at its beginning, over the ways of a table that a feed sees.
fn begun(rt: &impl Abort, alloc: Global, ways: &Ways<'_>, flow: u32, packet: &Packet) -> OnWay {
    let size = PacketSize::new(packet.size).expect(rt, "a size");
    let dscp = Dscp::new(packet.dscp).expect(rt, "a code point");
    let begun = Moment::new(packet.begun).expect(rt, "a moment");
    let comes = Moment::new(packet.comes).expect(rt, "a moment");
    let made = Traveller::begin(alloc, ways, flow, packet.number, size, dscp, begun);
    let traveller = made.expect(rt, "a packet");
    OnWay { traveller, comes }
}

/// Packets of a flow at their beginning.
pub fn all_begun(
    rt: &impl Abort,
    alloc: Global,
    ways: &Ways<'_>,
    flow: u32,
    packets: &[Packet],
) -> Vec<OnWay> {
    let mut all = Vec::new(alloc);
    for packet in packets {
        let one = begun(rt, alloc, ways, flow, packet);
        all.push(one).expect(rt, "memory");
    }
    all
}

/// Takes a packet through the meters until its way has ended, or its edge is shut: what it carried away.
fn passed<L: FabricLedger, R: Wait>(
    rt: &R,
    fabric: &Fabric<'_, L>,
    pass: &mut Pass<L>,
    way: OnWay,
) -> Option<Trail> {
    let OnWay {
        mut traveller,
        comes,
    } = way;
    for _ in 0..4 {
        match fabric.advance(rt, pass, &mut traveller, comes) {
            Ok(()) => {}
            Err(VisitFault::PathEnded | VisitFault::Shut) => return Some(traveller.into_trail()),
            Err(_) => return None,
        }
    }
    None
}

/// What a thread hands back: its pass, and what its packets carried away; None where a visit was refused.
pub type Taken<L> = (Pass<L>, Option<Vec<Trail>>);

/// What a thread does: it takes packets through the meters, one after the other.
pub fn take_all<L: FabricLedger, R: Wait>(
    rt: &R,
    alloc: Global,
    fabric: &Fabric<'_, L>,
    mut pass: Pass<L>,
    ways: Vec<OnWay>,
) -> Taken<L> {
    let trails = trails_of(rt, alloc, fabric, &mut pass, ways);
    (pass, trails)
}

/// What packets carry away.
fn trails_of<L: FabricLedger, R: Wait>(
    rt: &R,
    alloc: Global,
    fabric: &Fabric<'_, L>,
    pass: &mut Pass<L>,
    ways: Vec<OnWay>,
) -> Option<Vec<Trail>> {
    let mut trails = Vec::with_capacity(alloc, ways.len()).ok()?;
    for way in ways {
        trails.push(passed(rt, fabric, pass, way)?).ok()?;
    }
    Some(trails)
}
