use crate::captures::{GREEN, HEADING, capture};
use crate::marking::{EACH, Hands, Marked, leavings};
use crate::tables::{accepted, table_of};
use af_marker::Dscp;
use ds_checker::Accepted;
use ds_conductor::{RedRule, Report};
use ds_conductor_base::Sent;
use ds_runs::Judge;
use moment_core::{Column, Gap, Moment, PacketSize};
use pcap_capture::SliceIntake;
use run_audit::Verdict;
use std::alloc::Global;
use std::process::Abort;
use std::sync::Wait;
use std::thread::Threads;
use worked_texts::{A, ANYWHERE, B, EXCESS, PEAK, PORT, SHARE, TRUSTED, TWO};

/// A meter `m` whose buckets are full from 1 s on, with a skew of 500 µs, and a link to it of 1 ms to 2 ms.
const FROM_ONE: &str = r#"
meter = [{ name = "m", kind = "trtcm", cir = 24000000, cbs = 13500, pir = 24000000, pbs = 13500, skew = 500000,
    origin = 1000000000 }]
link = [{ from = "p", to = "m", floor = 1000000, jitter = 1000000 }]
"#;

/// What names a contract that is trusted until 5 s.
const UNTIL_FIVE: &str = "name = \"a\"\nclass = 1\nuntil = 5000000000\n";

/// That contract behind a port `p` over that meter, with 3,000 bytes green, 4,000 green and yellow, and 1,000 yellow.
const OF_THREE: &[&str] = &[
    TWO, FROM_ONE, PORT, TRUSTED, UNTIL_FIVE, SHARE, PEAK, EXCESS,
];

/// Its least certificate.
const OF_THREE_LEAST: &str = "dscert 2\na 0 3000 4000 1000\na 1 4000 6000 2000\n";

/// The code points of class 1: green, yellow and red.
const AF11: u8 = 10;

const AF12: u8 = 12;

const AF13: u8 = 14;

/// A packet of the contract: its number, its size, its code point and its moment.
type Packet = (u64, u16, u8, u64);

/// That packet as it is sent.
fn sent(rt: &impl Abort, (packet, size, dscp, moment): Packet) -> Sent {
    Sent {
        flow: 0,
        packet,
        size: PacketSize::new(u64::from(size)).expect(rt, "a size"),
        dscp: Dscp::new(dscp).expect(rt, "a code point"),
        moment: Moment::new(moment).expect(rt, "a moment"),
    }
}

/// The verdict on packets of the contract.
fn verdict(rt: &impl Abort, alloc: Global, accepted: &Accepted, packets: &[Packet]) -> Verdict {
    let mut judge = Judge::new(alloc, accepted).expect(rt, "memory");
    for packet in packets {
        judge.note(&sent(rt, *packet));
    }
    let told = judge.verdict();
    drop(judge);
    told
}

/// Expects a verdict on packets.
fn expect(rt: &impl Abort, alloc: Global, packets: &[Packet], expected: Verdict) {
    let accepted = table_of(rt, alloc, OF_THREE, OF_THREE_LEAST);
    let told = verdict(rt, alloc, &accepted, packets);
    assert_eq!(rt; told, expected);
    drop(accepted);
}

/// That a column of the contract is over with a packet.
fn over(column: Column, packet: u64) -> Verdict {
    Verdict::SourceOver {
        flow: 0,
        column,
        packet,
    }
}

#[test]
fn a_burst_that_is_just_kept(rt: HostRuntime) {
    let second = 1_000_000_000;
    let burst = [
        (4, 1_500, AF11, second),
        (6, 1_500, AF11, second),
        (7, 1_000, AF12, second),
    ];
    expect(&rt, rt.alloc(), &[], Verdict::Kept);
    expect(&rt, rt.alloc(), &burst, Verdict::Kept);
}

#[test]
fn a_byte_more_than_a_burst(rt: HostRuntime) {
    let second = 1_000_000_000;
    let early = [
        (4, 3_000, AF11, second),
        (6, 9_000, AF13, second),
        (7, 1, AF11, second + 999),
    ];
    let drained = [
        (4, 3_000, AF11, second),
        (6, 9_000, AF13, second),
        (7, 1, AF11, second + 1_000),
    ];
    expect(&rt, rt.alloc(), &early, over(Column::Green, 7));
    expect(&rt, rt.alloc(), &drained, Verdict::Kept);
}

#[test]
fn columns_are_judged_in_their_order(rt: HostRuntime) {
    let second = 1_000_000_000;
    let yellow = [
        (4, 1_000, AF12, second),
        (6, 1, AF12, second),
        (7, 1, AF12, second),
    ];
    let both = [
        (4, 1_001, AF12, second),
        (6, 2_999, AF11, second),
        (7, 1, AF11, second),
    ];
    expect(&rt, rt.alloc(), &yellow, over(Column::Excess, 6));
    expect(&rt, rt.alloc(), &both, over(Column::All, 7));
}

#[test]
fn a_packet_outside_its_contract_is_told_first(rt: HostRuntime) {
    let packets = [
        (4, 9_000, AF11, 0),
        (6, 100, AF11, 4_999_999_999),
        (7, 100, AF11, 5_000_000_000),
        (8, 100, AF11, 5_000_000_000),
    ];
    let outside = Verdict::OutsideContract { packet: 7 };
    expect(&rt, rt.alloc(), &packets, outside);
}

/// The verdict that the contract's packet comes so late to its meter, by the meter's clock.
fn late(rt: &impl Abort, late: u64) -> Verdict {
    Verdict::Late {
        site: 0,
        place: 0,
        late: Gap::new(late).expect(rt, "a gap"),
    }
}

#[test]
fn a_packet_that_comes_before_its_meter(rt: HostRuntime) {
    let packets = [(4, 100, AF11, 998_499_999), (6, 100, AF11, 998_600_000)];
    expect(&rt, rt.alloc(), &packets, late(&rt, 500_001));
    let packets = [(4, 100, AF11, 998_500_000)];
    expect(&rt, rt.alloc(), &packets, Verdict::Kept);
}

/// Two meters behind a port.
const TWO_METERS: &str = r#"
meter = [
    { name = "m", kind = "trtcm", cir = 24000000, cbs = 13500, pir = 24000000, pbs = 13500, skew = 500000 },
    { name = "n", kind = "trtcm", cir = 24000000, cbs = 13500, pir = 24000000, pbs = 13500, skew = 500000 },
]
port = [{ name = "p", skew = 0 }]
link = [
    { from = "p", to = "m", floor = 0, jitter = 1000000 },
    { from = "p", to = "n", floor = 0, jitter = 1000000 },
]
"#;

/// The way over the second.
const OVER_N: &str = "path = [\"n\"]\n";

/// Two contracts that are trusted, one at each.
const ONE_AT_EACH: &[&str] = &[TWO_METERS, TRUSTED, A, SHARE, ANYWHERE, OVER_N, B, SHARE];

/// Their least certificate.
const ONE_AT_EACH_LEAST: &str =
    "dscert 1\na 0 3000 3000\na 1 4000 4000\nb 0 3000 3000\nb 1 4000 4000\n";

/// The heading of a capture of IPv4 packets without a link's header.
const RAW: &str = "d4c3b2a1 0200 0400 00000000 00000000 ffff0000 65000000";

/// A record at 0 s of 20 bytes: a packet of contract `a` with code point AF11, and one of `b` with AF21.
const OF_A: &str =
    "00000000 00000000 14000000 14000000 4528 0014 0000 0000 4011 0000 0a00 0001 0a00 0101";

const OF_B: &str =
    "00000000 00000000 14000000 14000000 4548 0014 0000 0000 4011 0000 0a00 0101 0a00 0001";

/// What hands leave behind of a capture at port `p`.
fn passed(
    rt: &(impl Threads + Wait + Sync),
    alloc: Global,
    accepted: &Accepted,
    hands: Hands,
    given: &[u8],
) -> Marked {
    let job = ("p", hands, RedRule::Keep);
    leavings(rt, alloc, accepted, job, &mut SliceIntake::new(given))
}

/// Expects of a capture of two packets that it is written as it is, and its report.
fn expect_two(
    rt: &(impl Abort + Threads + Wait + Sync),
    alloc: Global,
    accepted: &Accepted,
    hands: Hands,
    given: &[u8],
) {
    let marked = passed(rt, alloc, accepted, hands, given);
    assert_eq!(rt; marked.written.as_slice(), given);
    let expected = Report {
        records: 2,
        marked: 2,
        unverified: 2,
        packets: [2, 0, 0],
        bytes: [40, 0, 0],
        verdict: Some(Verdict::Kept),
        ..Report::nothing()
    };
    assert_eq!(rt; (marked.report, marked.fault), (expected, None));
    drop(marked);
}

/// Expects the same of a packet to each of two meters.
fn expect_two_meters(rt: &(impl Abort + Threads + Wait + Sync), alloc: Global) {
    let accepted = table_of(rt, alloc, ONE_AT_EACH, ONE_AT_EACH_LEAST);
    let given = capture(rt, alloc, &[RAW, OF_A, OF_B]);
    for hands in &EACH {
        expect_two(rt, alloc, &accepted, *hands, given.as_slice());
    }
    drop(given);
    drop(accepted);
}

#[test]
fn two_meters_pass_two_packets(rt: HostRuntime) {
    expect_two_meters(&rt, rt.alloc());
}

/// What names a contract that is trusted, until 2 s and until 1 s, and its envelope of 200 bytes.
const UNTIL_TWO: &str = "name = \"t\"\nclass = 1\nuntil = 2000000000\n";

const UNTIL_ONE: &str = "name = \"t\"\nclass = 1\nuntil = 1000000000\n";

const SMALL: &str = "cir = 8000000\ncbs = 200\n";

/// The least certificate of such a contract.
const SMALL_LEAST: &str = "dscert 1\nt 0 200 200\nt 1 1200 1200\n";

/// Expects the verdict that `mark` tells of so many packets of 115 bytes, all green and at 1.5 s.
fn expect_told(
    rt: &(impl Abort + Threads + Wait + Sync),
    alloc: Global,
    accepted: &Accepted,
    records: &[&str],
    verdict: Verdict,
) {
    let given = capture(rt, alloc, records);
    let marked = passed(rt, alloc, accepted, Hands::Alone, given.as_slice());
    assert_eq!(rt; marked.fault, None);
    assert_eq!(rt; marked.report.verdict, Some(verdict));
    drop(marked);
    drop(given);
}

/// Expects the same over the table of a contract with 200 bytes.
fn expect_of_small(
    rt: &(impl Abort + Threads + Wait + Sync),
    alloc: Global,
    contract: &str,
    records: &[&str],
    verdict: Verdict,
) {
    let small = accepted(rt, alloc, &[TRUSTED, contract, SMALL], SMALL_LEAST);
    expect_told(rt, alloc, &small, records, verdict);
    drop(small);
}

#[test]
fn a_capture_over_its_envelope(rt: HostRuntime) {
    let alloc = rt.alloc();
    expect_of_small(&rt, alloc, UNTIL_TWO, &[HEADING, GREEN], Verdict::Kept);
    let over = over(Column::Green, 1);
    expect_of_small(&rt, alloc, UNTIL_TWO, &[HEADING, GREEN, GREEN], over);
}

#[test]
fn a_capture_outside_its_contract(rt: HostRuntime) {
    let records = [HEADING, GREEN, GREEN];
    let outside = Verdict::OutsideContract { packet: 0 };
    expect_of_small(&rt, rt.alloc(), UNTIL_ONE, &records, outside);
}

/// A meter `m` whose buckets are full from 2 s on, and a link to it of 1 ms.
const FROM_TWO: &str = r#"
meter = [{ name = "m", kind = "trtcm", cir = 24000000, cbs = 13500, pir = 24000000, pbs = 13500, skew = 500000,
    origin = 2000000000 }]
link = [{ from = "p", to = "m", floor = 1000000, jitter = 0 }]
"#;

/// What names a contract that is trusted without an end.
pub const ENDLESS: &str = "name = \"t\"\nclass = 1\n";

/// Its least certificate over that meter.
const ENDLESS_LEAST: &str = "dscert 1\nt 0 3000 3000\nt 1 3000 3000\n";

/// Expects of a packet that comes before its meter that it is late.
fn expect_early(rt: &(impl Abort + Threads + Wait + Sync), alloc: Global) {
    let early = table_of(
        rt,
        alloc,
        &[FROM_TWO, PORT, TRUSTED, ENDLESS, SHARE],
        ENDLESS_LEAST,
    );
    let late = late(rt, 499_000_000);
    expect_told(rt, alloc, &early, &[HEADING, GREEN], late);
    drop(early);
}

#[test]
fn a_capture_before_its_meter(rt: HostRuntime) {
    expect_early(&rt, rt.alloc());
}
