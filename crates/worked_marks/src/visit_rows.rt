use crate::mark_rows::narrow;
use crate::tables::table_of;
use af_marker::Dscp;
use ds_checker::Accepted;
use ds_conductor_base::{OpenGate, Sent, UnderWay};
use moment_core::{Colour, Moment, PacketSize};
use std::alloc::Global;
use std::process::Abort;

/// Expects no colour where nothing is sent into a domain of nothing.
fn expect_none(rt: &impl Abort, alloc: Global) {
    let accepted = table_of(rt, alloc, &[], "dscert 1\n");
    let mut under_way = UnderWay::new(alloc, &accepted).expect(rt, "memory");
    under_way.make_all(&OpenGate);
    assert_eq!(rt; under_way.decided(), None);
    drop(under_way);
    drop(accepted);
}

#[test]
fn nothing_sent_into_an_empty_domain(rt: HostRuntime) {
    expect_none(&rt, rt.alloc());
}

/// Packet 7 of the contract, of 100 bytes, which is sent at a moment.
fn sent(rt: &impl Abort, moment: Moment) -> Sent {
    Sent {
        flow: 0,
        packet: 7,
        size: PacketSize::new(100).expect(rt, "a size"),
        dscp: Dscp::new(10).expect(rt, "a code point"),
        moment,
    }
}

/// Expects of a packet that was sent at 1 s that its colour is decided once the visits at its moment are made, and is
/// handed out once.
fn expect_due(rt: &impl Abort, under_way: &mut UnderWay<'_>, moment: Moment) {
    let before = Moment::new(999_999_999).expect(rt, "a moment");
    under_way.make_due(before, &OpenGate);
    assert_eq!(rt; under_way.decided(), None);
    under_way.make_due(moment, &OpenGate);
    assert_eq!(rt; under_way.decided(), Some(Colour::Green));
    under_way.make_all(&OpenGate);
    assert_eq!(rt; under_way.decided(), None);
}

/// Sends that packet, and expects the same of it.
fn expect_decided(rt: &impl Abort, alloc: Global, accepted: &Accepted) {
    let moment = Moment::new(1_000_000_000).expect(rt, "a moment");
    let packet = sent(rt, moment);
    let mut under_way = UnderWay::new(alloc, accepted).expect(rt, "memory");
    under_way.send(packet).expect(rt, "memory");
    expect_due(rt, &mut under_way, moment);
    drop(under_way);
}

/// Expects the same over the narrow table.
fn expect_decided_of_narrow(rt: &impl Abort, alloc: Global) {
    let accepted = narrow(rt, alloc);
    expect_decided(rt, alloc, &accepted);
    drop(accepted);
}

#[test]
fn a_colour_is_decided_once_its_visits_are_made(rt: HostRuntime) {
    expect_decided_of_narrow(&rt, rt.alloc());
}
