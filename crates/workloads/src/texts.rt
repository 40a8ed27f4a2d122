//! A domain at its limits, certified, checked, asked for headroom and for a quote; and one with a fault at its end.
ghost use Rattle.std.specs.Prelude.{◌<◌};

use crate::asking::{ask_of_domain, ask_of_table, certify};
use crate::digest::Digest;
use crate::domains::{path_from, push_link, push_meter, push_port, push_trusted, push_way};
use crate::numbers::Numbers;
use std::alloc::{AllocError, Global};
use std::sync::Wait;
use std::thread::Threads;

/// Meters and ports, and the links: from each port to its meter, and from each meter to those that follow.
fn push_ground(text: &mut String, numbers: &mut Numbers, ring: (u64, u64)) -> Result<(), AllocError>
    requires { 0 < ring.0 }
{
    let (meters, strides) = ring;
    for meter in 0..meters {
        let rate = 8_000_000_000 + numbers.below(2_000_000_000);
        push_meter(
            text,
            meter,
            [rate, 4_000_000_000, rate, 4_000_000_000],
            1_000,
        )?;
    }
    for port in 0..meters {
        push_port(text, port, 1_000)?;
    }
    for port in 0..meters {
        push_link(
            text,
            ("p", port),
            port,
            [1_000 + numbers.below(1_000), 1_000],
        )?;
    }
    for meter in 0..meters {
        for stride in 1..=strides {
            let to = meter.wrapping_add(stride) % meters;
            push_link(
                text,
                ("m", meter),
                to,
                [1_000 + numbers.below(1_000), 1_000],
            )?;
        }
    }
    Ok(())
}

fn push_contract(
    text: &mut String,
    path: &mut Vec<u64>,
    numbers: &mut Numbers,
    contract: u64,
    ring: (u64, u64),
) -> Result<(), AllocError>
    requires meters { 0 < ring.0 }
    requires strides { 0 < ring.1 }
{
    let (meters, _) = ring;
    let first = numbers.below(meters);
    path_from(numbers, path, first, 16, ring)?;
    let scrambled = contract.wrapping_mul(40_503) % 65_536;
    let name = format!(in *path.allocator(); "customer-{scrambled}")?;
    push_way(
        text,
        name.as_str(),
        first,
        path.as_slice(),
        1 + contract % 4,
    )?;
    let (cir, cbs) = (
        1_000_000 + numbers.below(500_000),
        1_500 + numbers.below(3_000),
    );
    push_trusted(text, [cir, cbs], None)?;
    let (high, low) = (contract / 256 % 256, contract % 256);
    writeln!(text, "src = \"10.{high}.{low}.0/24\"\n")
}

/// The text of a domain of so many meters and ports, links and contracts.
fn domain_of(
    alloc: Global,
    numbers: &mut Numbers,
    ring: (u64, u64),
    contracts: u64,
) -> Result<String, AllocError>
    requires meters { 0 < ring.0 }
    requires strides { 0 < ring.1 }
{
    let mut text = String::new(alloc);
    let mut path = Vec::new(alloc);
    push_ground(&mut text, numbers, ring)?;
    for contract in 0..contracts {
        push_contract(&mut text, &mut path, numbers, contract, ring)?;
    }
    Ok(text)
}

/// Answers the four commands on a domain.
fn answer_all(
    rt: &(impl Wait + Threads + Sync),
    alloc: Global,
    domain: &str,
    digest: &mut Digest,
) -> Result<(), AllocError> {
    let certificate = certify(rt, alloc, domain, digest)?;
    let mut output = Vec::new(alloc);
    let table = (domain, certificate.as_slice());
    ask_of_table(
        rt,
        alloc,
        "check domain.toml domain.cert",
        table,
        b"",
        &mut output,
        digest,
    )?;
    ask_of_domain(
        rt,
        alloc,
        "headroom domain.toml",
        domain,
        b"",
        &mut output,
        digest,
    )?;
    let words = "quote domain.toml --contract customer-40503 --most cbs";
    ask_of_domain(rt, alloc, words, domain, b"", &mut output, digest)
}

/// Answers `certify` on a domain with a contract more, whose path comes back to its first meter.
fn answer_fault(
    rt: &(impl Wait + Threads + Sync),
    alloc: Global,
    mut domain: String,
    digest: &mut Digest,
) -> Result<(), AllocError> {
    push_way(&mut domain, "astray", 0, &[0, 1, 0], 1)?;
    push_trusted(&mut domain, [1_000_000, 1_500], None)?;
    drop(certify(rt, alloc, domain.as_str(), digest)?);
    Ok(())
}

/// Answers the commands on a domain of so many meters, links and contracts, and on one more.
pub(crate) fn texts(
    rt: &(impl Wait + Threads + Sync),
    alloc: Global,
    numbers: &mut Numbers,
    [meters, strides, contracts]: [u64; 3],
    digest: &mut Digest,
) -> Result<(), AllocError> {
    let meters = meters.clamp(32, 1_024);
    let strides = strides.clamp(1, 63);
    let contracts = contracts.min(4_095);
    let domain = domain_of(alloc, numbers, (meters, strides), contracts)?;
    answer_all(rt, alloc, domain.as_str(), digest)?;
    let other = domain_of(alloc, numbers, (meters, strides), contracts)?;
    answer_fault(rt, alloc, other, digest)
}
