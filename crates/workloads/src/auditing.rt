//! Runs of packets along paths of one to four meters, some of them policed at their edge, told step by step.
ghost use Rattle.std.specs.Prelude.{◌≤◌};

use crate::asking::{ask_of_table, certify};
use crate::digest::Digest;
use crate::domains::{path_from, push_link, push_sites, push_trusted, push_way};
use crate::numbers::{Numbers, shuffled};
use line_text::push_number;
use std::alloc::{AllocError, Global};
use std::sync::Wait;
use std::thread::Threads;

const METERS: u64 = 10;

const CONTRACTS: u64 = 100;

/// The floor and the jitter of each link, in nanoseconds.
const DELAYS: [u64; 2] = [2_000, 2_000];

/// How far apart packets are sent, in nanoseconds.
const GAP: u64 = 1_000;

/// How many packets are sent between two visits of one.
const LAG: u64 = 3;

/// How many meters a contract's path has.
fn hops(contract: u64) -> u64
    ensures { result ≤ 4 }
{
    1 + contract.wrapping_mul(7) % 4
}

/// Whether a contract is metered at its own edge first.
fn is_policed(contract: u64) -> bool {
    contract % 10 == 3
}

fn push_name(text: &mut Vec<u8>, contract: u64) -> Result<(), AllocError> {
    text.extend_from_slice(b"site-")?;
    push_number(text, contract.wrapping_mul(7_919) % 10_007)
}

fn push_links(text: &mut String) -> Result<(), AllocError> {
    for meter in 0..METERS {
        push_link(text, ("p", 0), meter, DELAYS)?;
        for stride in 1..=3 {
            push_link(text, ("m", meter), (meter + stride) % METERS, DELAYS)?;
        }
    }
    Ok(())
}

fn push_site_contract(
    text: &mut String,
    path: &mut Vec<u64>,
    numbers: &mut Numbers,
    contract: u64,
) -> Result<(), AllocError> {
    let scrambled = contract.wrapping_mul(7_919) % 10_007;
    let name = format!(in *path.allocator(); "site-{scrambled}")?;
    // 1 + 2 + 3 + 3 meters further at most, so that none comes twice
    path_from(numbers, path, contract, hops(contract), (METERS, 3))?;
    push_way(text, name.as_str(), 0, path.as_slice(), 1 + contract % 4)?;
    if is_policed(contract) {
        writeln!(
            text,
            "kind = \"trtcm\"\nmode = \"aware\"\ncir = 20000000\ncbs = 3000\npir = 40000000\npbs = 6000"
        )?;
    } else {
        push_trusted(text, [200_000_000, 6_000], None)?;
    }
    writeln!(text, "src = \"10.0.{contract}.0/24\"\n")
}

fn domain_of(alloc: Global, numbers: &mut Numbers) -> Result<String, AllocError> {
    let mut text = String::new(alloc);
    let mut path = Vec::new(alloc);
    let figures = [20_000_000_000, 4_000_000, 20_000_000_000, 4_000_000];
    push_sites(&mut text, METERS, figures, 20_000)?;
    push_links(&mut text)?;
    for contract in 0..CONTRACTS {
        push_site_contract(&mut text, &mut path, numbers, contract)?;
    }
    Ok(text)
}

/// A packet on its way: its number, its contract, how many visits it makes, and the moment of its last one.
#[derive(Clone, Copy)]
struct Sent {
    number: u64,
    contract: u64,
    visits: u64,
    moment: u64,
}

/// Appends the step that sends a packet: `send CONTRACT PACKET SIZE DSCP MOMENT`.
fn push_send(
    steps: &mut Vec<u8>,
    sent: &Sent,
    size: u64,
    precedence: u64,
) -> Result<(), AllocError> {
    steps.extend_from_slice(b"send ")?;
    push_name(steps, sent.contract % CONTRACTS)?;
    steps.push(b' ')?;
    push_number(steps, sent.number)?;
    steps.push(b' ')?;
    push_number(steps, size)?;
    steps.push(b' ')?;
    push_number(steps, 8 * (1 + sent.contract % 4) + 2 * (precedence % 4))?;
    steps.push(b' ')?;
    push_number(steps, sent.moment)?;
    Ok(steps.push(b'\n')?)
}

/// Appends the step of a packet's visit: `visit PACKET MOMENT`.
fn push_visit(steps: &mut Vec<u8>, number: u64, moment: u64) -> Result<(), AllocError> {
    steps.extend_from_slice(b"visit ")?;
    push_number(steps, number)?;
    steps.push(b' ')?;
    push_number(steps, moment)?;
    Ok(steps.push(b'\n')?)
}

/// Sends the packet of a place in order, of a contract.
fn send(
    steps: &mut Vec<u8>,
    numbers: &mut Numbers,
    ways: &mut [Sent],
    place: u64,
    contract: u64,
) -> Result<(), AllocError> {
    let drawn = numbers.next();
    let sent = Sent {
        number: place.wrapping_mul(3).wrapping_add(drawn % 3),
        contract,
        visits: hops(contract % CONTRACTS) + u64::from(is_policed(contract)),
        moment: place.wrapping_mul(GAP).wrapping_add(drawn / 4 % GAP),
    };
    // mostly green, some yellow
    let precedence = if drawn / 4_096 % 8 == 0 && is_policed(contract) {
        2
    } else {
        1
    };
    push_send(steps, &sent, 64 + drawn / 65_536 % 1_437, precedence)?;
    let slot = (place % 16) as usize;
    if slot < ways.len() {
        ways[slot] = sent;
    }
    Ok(())
}

/// Brings the packet of a place in order to its next hop, whose number counts from 1, if it has so many.
fn visit(
    steps: &mut Vec<u8>,
    numbers: &mut Numbers,
    ways: &mut [Sent],
    (place, hop): (u64, u64),
    late: u64,
) -> Result<(), AllocError> {
    let slot = (place % 16) as usize;
    if slot >= ways.len() {
        return Ok(());
    }
    let sent = ways[slot];
    if hop > sent.visits {
        return Ok(());
    }
    let is_edge = hop == 1 && is_policed(sent.contract);
    let delay = if is_edge {
        0
    } else {
        2_000 + numbers.below(2_000)
    };
    let moment = sent.moment.wrapping_add(delay).wrapping_add(late);
    ways[slot].moment = moment;
    push_visit(steps, sent.number, moment)
}

/// The steps of so many packets. Where it says so, the last packet's links take too long.
fn steps_of(
    alloc: Global,
    numbers: &mut Numbers,
    packets: u64,
    ends_late: bool,
) -> Result<Vec<u8>, AllocError> {
    let nobody = Sent {
        number: 0,
        contract: 0,
        visits: 0,
        moment: 0,
    };
    let mut ways = [nobody; 16];
    let mut steps = Vec::new(alloc);
    let mut order = shuffled(alloc, numbers, CONTRACTS)?;
    for place in 0..packets.saturating_add(5 * LAG) {
        if place < packets {
            let turn = (place % CONTRACTS) as usize;
            if turn == 0 && numbers.below(64) == 0 {
                order = shuffled(alloc, numbers, CONTRACTS)?;
            }
            let contract = order.get(turn).copied().unwrap_or(0);
            send(&mut steps, numbers, &mut ways, place, contract)?;
        }
        let late = if ends_late && place > packets {
            100_000
        } else {
            0
        };
        for hop in 1..=5u64 {
            if let Some(behind) = place.checked_sub(LAG * (hop - 1))
                && behind < packets
            {
                visit(&mut steps, numbers, &mut ways, (behind, hop), late)?;
            }
        }
    }
    Ok(steps)
}

/// Audits so many runs of so many packets, each over a domain of its own.
pub(crate) fn audit(
    rt: &(impl Wait + Threads + Sync),
    alloc: Global,
    numbers: &mut Numbers,
    [runs, packets]: [u64; 2],
    digest: &mut Digest,
) -> Result<(), AllocError> {
    for run in 0..runs {
        let domain = domain_of(alloc, numbers)?;
        let certificate = certify(rt, alloc, domain.as_str(), digest)?;
        let steps = steps_of(alloc, numbers, packets, run % 2 == 1)?;
        let mut output = Vec::new(alloc);
        let table = (domain.as_str(), certificate.as_slice());
        let words = "audit domain.toml domain.cert";
        ask_of_table(
            rt,
            alloc,
            words,
            table,
            steps.as_slice(),
            &mut output,
            digest,
        )?;
    }
    Ok(())
}
