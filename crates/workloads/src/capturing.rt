//! Captures of frames of 100 bytes.
ghost use Rattle.std.specs.Prelude.{◌≤◌, ◌<◌};

use crate::numbers::Numbers;
use std::alloc::{AllocError, Global};

/// The heading of a capture: low bytes first, microseconds, 100 bytes of a frame at most, Ethernet.
const HEADING: [u8; 24] = [
    0xd4, 0xc3, 0xb2, 0xa1, 2, 0, 4, 0, 0, 0, 0, 0, 0, 0, 0, 0, 100, 0, 0, 0, 1, 0, 0, 0,
];

/// How stamps go on.
#[derive(Clone, Copy)]
pub(crate) enum Stamps {
    /// 0 to 7 microseconds apart; one in 64 lies up to 50 microseconds before the greatest.
    Onward,
    /// All equal.
    Equal,
    /// The first one far ahead, and then onward.
    FarFirst,
}

/// Whose packets come.
#[derive(Clone, Copy)]
pub(crate) enum Traffic {
    /// Those of a hundred contracts, each with 10.0.N.0/24 for its sources.
    Hundred,
    /// Those of so many contracts, each with one source, 10.x.y.1.
    Many(u64),
}

/// The eight bits of a number from a place on.
fn byte(number: u64, place: u32) -> u8
    requires { place < 64 }
{
    ((number >> place) % 256) as u8
}

/// The sixteen bits of a number from a place on.
fn word(number: u64, place: u32) -> u16
    requires { place < 64 }
{
    ((number >> place) % 65_536) as u16
}

/// The code point of a contract's class and a colour without a pattern: green ones above all, and now and then another.
fn service(contract: u64, drawn: u64) -> u8 {
    let class = (1 + contract % 4) as u8;
    match drawn % 16 {
        0..=10 => (8 * class + 2) * 4,
        11..=12 => (8 * class + 4) * 4,
        13..=14 => (8 * class + 6) * 4,
        _ => 46 * 4,
    }
}

/// The ones' complement of the ones' complement sum of these words.
fn checksum(words: [u16; 9]) -> u16 {
    let mut sum = 0u64;
    for word in words {
        sum = sum.wrapping_add(u64::from(word));
    }
    let folded = (sum & 0xffff).wrapping_add(sum >> 16);
    let last = (folded & 0xffff).wrapping_add(folded >> 16) % 65_536;
    !(last as u16)
}

/// The addresses of a packet, highest words first.
fn addresses(traffic: Traffic, contract: u64, drawn: u64) -> [u16; 4] {
    let (near, far) = (word(drawn, 0), word(drawn, 16));
    match traffic {
        Traffic::Many(_) => [
            10 * 256 + (contract / 256 % 256) as u16,
            (contract % 256) as u16 * 256 + 1,
            10 * 256 + 200,
            far,
        ],
        Traffic::Hundred => {
            if drawn >> 58 == 0 || contract == 99 {
                let target = if contract == 99 {
                    10 * 256 + 128
                } else {
                    10 * 256 + 200
                };
                return [192 * 256 + 168, near, target, far];
            }
            [
                10 * 256,
                (contract % 256) as u16 * 256 + near % 256,
                10 * 256 + 200,
                far,
            ]
        }
    }
}

/// The protocol of a packet of a contract.
fn protocol(contract: u64, drawn: u64) -> u8 {
    match contract % 10 {
        6 => 17,
        7 => 6,
        8 => if drawn % 2 == 0 { 6 } else { 17 },
        _ => match drawn % 10 {
            0..=5 => 6,
            6..=8 => 17,
            _ => 1,
        },
    }
}

/// The ports of a packet, such that its contract takes most of them.
fn ports(contract: u64, drawn: u64) -> [u16; 2] {
    let (source, target) = (word(drawn, 0), word(drawn, 16));
    match contract % 10 {
        7 => [source, 80 + target % 400],
        8 => [1_024 + source % 60_000, target],
        _ => [source, target],
    }
}

/// An IPv4 header and ports, and the packet's total length; one checksum in 128 is wrong.
fn packet(numbers: &mut Numbers, traffic: Traffic, contract: u64) -> ([u8; 24], u16) {
    let (first, second, third) = (numbers.next(), numbers.next(), numbers.next());
    let total = 86 + word(first, 0) % 1_415;
    let (service, identity) = (service(contract, first >> 16), word(first, 20));
    let fragment: u16 = if first >> 57 == 0 { 185 } else { 0x4000 };
    let protocol = protocol(contract, first >> 40);
    let [a, b, c, d] = addresses(traffic, contract, second);
    let [from, to] = ports(contract, third);
    let front = 0x4500 + u16::from(service);
    let time = 64 * 256 + u16::from(protocol);
    let wrong = u16::from(third >> 57 == 0);
    let sum = checksum([front, total, identity, fragment, time, a, b, c, d]) ^ wrong;
    let [s1, s0] = sum.to_be_bytes();
    let [t1, t0] = total.to_be_bytes();
    let [i1, i0] = identity.to_be_bytes();
    let [f1, f0] = fragment.to_be_bytes();
    let ([a1, a0], [b1, b0], [c1, c0], [d1, d0]) = (
        a.to_be_bytes(),
        b.to_be_bytes(),
        c.to_be_bytes(),
        d.to_be_bytes(),
    );
    let ([p1, p0], [q1, q0]) = (from.to_be_bytes(), to.to_be_bytes());
    let header = [
        0x45, service, t1, t0, i1, i0, f1, f0, 64, protocol, s1, s0, a1, a0, b1, b0, c1, c0, d1,
        d0, p1, p0, q1, q0,
    ];
    (header, total)
}

/// A record: its stamp in microseconds, its lengths, and its frame; one in four has a tag, and one in 64 is not IPv4.
fn record(numbers: &mut Numbers, traffic: Traffic, contract: u64, stamp: u64) -> [u8; 116] {
    let drawn = numbers.next();
    let (packet, total) = packet(numbers, traffic, contract);
    let mut record = [byte(drawn, 0); 116];
    let is_tagged = drawn >> 62 == 0;
    let start: usize = if is_tagged { 34 } else { 30 };
    let (seconds, micros) = (
        (stamp / 1_000_000 % 4_294_967_296) as u32,
        (stamp % 1_000_000) as u32,
    );
    record[0..4].copy_from_slice(&seconds.to_le_bytes());
    record[4..8].copy_from_slice(&micros.to_le_bytes());
    record[8..12].copy_from_slice(&100u32.to_le_bytes());
    record[12..16].copy_from_slice(&(14 + u32::from(total)).to_le_bytes());
    record[16..28].copy_from_slice(&[2, 0, 0, 0, 0, 1, 2, 0, 0, 0, 0, 2]);
    if is_tagged {
        record[28..32].copy_from_slice(&[0x81, 0, 0, 7]);
    }
    let kind: [u8; 2] = if drawn >> 48 & 63 == 0 {
        [8, 6]
    } else {
        [8, 0]
    };
    record[start - 2..start].copy_from_slice(&kind);
    record[start..start + 24].copy_from_slice(&packet);
    record
}

/// The contract of the next frame.
fn contract(numbers: &mut Numbers, traffic: Traffic) -> u64 {
    match traffic {
        Traffic::Hundred => numbers.below(100),
        Traffic::Many(count) => numbers.next() % count.max(1),
    }
}

/// A capture of so many records.
pub(crate) fn capture(
    alloc: Global,
    numbers: &mut Numbers,
    (traffic, stamps): (Traffic, Stamps),
    records: u64,
) -> Result<Vec<u8>, AllocError> {
    let mut text = Vec::new(alloc);
    text.extend_from_slice(&HEADING)?;
    let mut newest = 1_000_000_000_000u64;
    for place in 0..records {
        let contract = contract(numbers, traffic);
        let drawn = numbers.next();
        let stamp = match stamps {
            Stamps::Equal => newest,
            Stamps::FarFirst if place == 0 => newest.wrapping_add(1_000_000_000),
            _ => {
                newest = newest.wrapping_add(drawn % 8);
                if drawn >> 58 == 0 {
                    newest.saturating_sub(drawn / 8 % 51)
                } else {
                    newest
                }
            }
        };
        text.extend_from_slice(&record(numbers, traffic, contract, stamp))?;
    }
    Ok(text)
}
