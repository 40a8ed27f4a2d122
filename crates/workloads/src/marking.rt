//! Captures marked: over a domain of a hundred contracts, over one of thousands, and, awkward, such that frames are
//! held.
ghost use Rattle.std.specs.Prelude.{◌<◌};

use crate::asking::{ask_of_table, certify};
use crate::capturing::{Stamps, Traffic, capture};
use crate::digest::Digest;
use crate::domains::{push_link, push_sites, push_trusted, push_way};
use crate::numbers::Numbers;
use std::alloc::{AllocError, Global};
use std::sync::Wait;
use std::thread::Threads;

const METERS: u64 = 10;

const CONTRACTS: u64 = 100;

/// How many contracts a port has that has many.
const MANY: u64 = 4_000;

/// From the port to each meter, and from each meter to the three that follow; no two floors of one end are the same.
fn push_links(text: &mut String) -> Result<(), AllocError> {
    for meter in 0..METERS {
        push_link(text, ("p", 0), meter, [100_000 + 23_000 * meter, 10_000])?;
    }
    for meter in 0..METERS {
        for step in 1..=3 {
            let floor = 500_000 * step + 70_000 * meter;
            push_link(text, ("m", meter), (meter + step) % METERS, [floor, 10_000])?;
        }
    }
    Ok(())
}

/// 8 Mbit/s of green packets, and 12 Mbit/s of green and yellow ones or less; one in five is policed.
fn push_terms(text: &mut String, contract: u64) -> Result<(), AllocError> {
    if contract / 10 % 5 != 2 {
        let peak = if contract % 4 == 3 {
            None
        } else {
            Some([12_000_000, 12_000])
        };
        return push_trusted(text, [8_000_000, 6_000], peak);
    }
    let mode = if contract % 2 == 0 { "blind" } else { "aware" };
    match contract % 3 {
        0 => writeln!(
            text,
            "kind = \"trtcm\"\ncir = 8000000\ncbs = 6000\npir = 12000000\npbs = 12000\nmode = \"{mode}\""
        ),
        1 => writeln!(
            text,
            "kind = \"srtcm\"\ncir = 8000000\ncbs = 6000\nebs = 6000\nmode = \"{mode}\""
        ),
        _ => writeln!(
            text,
            "kind = \"rfc4115\"\ncir = 8000000\ncbs = 6000\neir = 4000000\nebs = 6000\nmode = \"{mode}\""
        ),
    }
}

/// The sources of a contract, and for some of them more; the last one takes what comes to a target from elsewhere.
fn push_rule(text: &mut String, contract: u64) -> Result<(), AllocError> {
    if contract == CONTRACTS - 1 {
        return Ok(text.push_str("dst = \"10.128.0.0/12\"\n\n")?);
    }
    writeln!(text, "src = \"10.0.{contract}.0/24\"")?;
    Ok(text.push_str(match contract % 10 {
        6 => "protocol = 17\n\n",
        7 => "protocol = 6\ndport = [80, 443]\n\n",
        8 => "sport = [1024, 65535]\n\n",
        _ => "\n",
    })?)
}

/// The text of a domain of a hundred contracts over ten meters, each over two.
fn hundred(alloc: Global) -> Result<String, AllocError> {
    let mut text = String::new(alloc);
    let figures = [200_000_000, 200_000, 300_000_000, 400_000];
    push_sites(&mut text, METERS, figures, 1_000)?;
    push_links(&mut text)?;
    for contract in 0..CONTRACTS {
        let first = contract % METERS;
        let second = (first + 1 + contract / 10 % 3) % METERS;
        let name = format!(in alloc; "customer-{contract}")?;
        push_way(
            &mut text,
            name.as_str(),
            0,
            &[first, second],
            1 + contract % 4,
        )?;
        push_terms(&mut text, contract)?;
        push_rule(&mut text, contract)?;
    }
    Ok(text)
}

/// The text of a domain of many contracts of one port over one meter, each with one source.
fn many(alloc: Global) -> Result<String, AllocError> {
    let mut text = String::new(alloc);
    let figures = [820_000_000, 10_000_000, 1_230_000_000, 15_000_000];
    push_sites(&mut text, 1, figures, 1_000)?;
    push_link(&mut text, ("p", 0), 0, [100_000, 10_000])?;
    for contract in 0..MANY {
        let name = format!(in alloc; "customer-{contract}")?;
        push_way(&mut text, name.as_str(), 0, &[0], 1 + contract % 4)?;
        push_trusted(&mut text, [200_000, 2_000], Some([300_000, 3_000]))?;
        let (high, low) = (contract / 256 % 256, contract % 256);
        writeln!(text, "src = \"10.{high}.{low}.1/32\"\n")?;
    }
    Ok(text)
}

/// A domain with its least certificate, and what is marked over it last.
#[derive(Drop)]
struct Table {
    domain: String,
    certificate: Vec<u8>,
    output: Vec<u8>,
}

/// A domain, certified.
fn certified(
    rt: &(impl Wait + Threads + Sync),
    alloc: Global,
    domain: String,
    digest: &mut Digest,
) -> Result<Table, AllocError> {
    Ok(Table {
        certificate: certify(rt, alloc, domain.as_str(), digest)?,
        domain,
        output: Vec::new(alloc),
    })
}

/// Marks a capture by so many workers.
fn mark_one(
    rt: &(impl Wait + Threads + Sync),
    alloc: Global,
    table: &mut Table,
    (red, workers): (&str, u32),
    capture: &[u8],
    digest: &mut Digest,
) -> Result<(), AllocError> {
    let words = format!(in alloc;
        "mark domain.toml domain.cert --port p0 --red {red} --workers {workers}"
    )?;
    let ground = (table.domain.as_str(), table.certificate.as_slice());
    ask_of_table(
        rt,
        alloc,
        words.as_str(),
        ground,
        capture,
        &mut table.output,
        digest,
    )
}

/// Marks so many captures of so many records by so many workers: one in four over many contracts of one port, the
/// others over a hundred.
pub(crate) fn mark(
    rt: &(impl Wait + Threads + Sync),
    alloc: Global,
    numbers: &mut Numbers,
    ([captures, records], workers): ([u64; 2], u32),
    digest: &mut Digest,
) -> Result<(), AllocError> {
    let mut usual = certified(rt, alloc, hundred(alloc)?, digest)?;
    let mut large = certified(rt, alloc, many(alloc)?, digest)?;
    for place in 0..captures {
        let how = (if place % 2 == 0 { "keep" } else { "drop" }, workers);
        if place % 4 == 3 {
            let text = capture(
                alloc,
                numbers,
                (Traffic::Many(MANY), Stamps::Onward),
                records,
            )?;
            mark_one(rt, alloc, &mut large, how, text.as_slice(), digest)?;
        } else {
            let text = capture(alloc, numbers, (Traffic::Hundred, Stamps::Onward), records)?;
            mark_one(rt, alloc, &mut usual, how, text.as_slice(), digest)?;
        }
    }
    Ok(())
}

/// Marks so many captures of so many records whose frames have to be held: with equal stamps, or with a far one first.
pub(crate) fn hold(
    rt: &(impl Wait + Threads + Sync),
    alloc: Global,
    numbers: &mut Numbers,
    [captures, records]: [u64; 2],
    digest: &mut Digest,
) -> Result<(), AllocError> {
    let mut usual = certified(rt, alloc, hundred(alloc)?, digest)?;
    for place in 0..captures {
        let stamps = if place % 2 == 0 {
            Stamps::Equal
        } else {
            Stamps::FarFirst
        };
        let text = capture(alloc, numbers, (Traffic::Hundred, stamps), records)?;
        mark_one(rt, alloc, &mut usual, ("keep", 1), text.as_slice(), digest)?;
    }
    Ok(())
}
