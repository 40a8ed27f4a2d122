ghost use Rattle.std.specs.Prelude.{◌<◌};

use crate::numbers::Numbers;
use std::alloc::AllocError;

/// A meter of two rates.
pub(crate) fn push_meter(
    text: &mut String,
    meter: u64,
    [cir, cbs, pir, pbs]: [u64; 4],
    skew: u64,
) -> Result<(), AllocError> {
    writeln!(
        text,
        "[[meter]]\nname = \"m{meter}\"\nkind = \"trtcm\"\ncir = {cir}\ncbs = {cbs}"
    )?;
    writeln!(text, "pir = {pir}\npbs = {pbs}\nskew = {skew}\n")
}

pub(crate) fn push_port(text: &mut String, port: u64, skew: u64) -> Result<(), AllocError> {
    writeln!(text, "[[port]]\nname = \"p{port}\"\nskew = {skew}\n")
}

/// So many meters that are alike, and one port.
pub(crate) fn push_sites(
    text: &mut String,
    meters: u64,
    figures: [u64; 4],
    skew: u64,
) -> Result<(), AllocError> {
    for meter in 0..meters {
        push_meter(text, meter, figures, skew)?;
    }
    push_port(text, 0, 1_000)
}

/// A link from a port (`p`) or a meter (`m`).
pub(crate) fn push_link(
    text: &mut String,
    (from, number): (&str, u64),
    to: u64,
    [floor, jitter]: [u64; 2],
) -> Result<(), AllocError> {
    writeln!(text, "[[link]]\nfrom = \"{from}{number}\"\nto = \"m{to}\"")?;
    writeln!(text, "floor = {floor}\njitter = {jitter}\n")
}

/// The front of a contract: its name, its port, its path and its class.
pub(crate) fn push_way(
    text: &mut String,
    name: &str,
    port: u64,
    path: &[u64],
    class: u64,
) -> Result<(), AllocError> {
    write!(
        text,
        "[[contract]]\nname = \"{name}\"\nport = \"p{port}\"\nclass = {class}\npath = ["
    )?;
    for meter in path {
        write!(text, "\"m{meter}\", ")?;
    }
    writeln!(text, "]")
}

/// The terms of a trusted contract, with a peak where it has one.
pub(crate) fn push_trusted(
    text: &mut String,
    [cir, cbs]: [u64; 2],
    peak: Option<[u64; 2]>,
) -> Result<(), AllocError> {
    writeln!(text, "kind = \"trusted\"\ncir = {cir}\ncbs = {cbs}")?;
    let Some(peak) = peak else {
        return Ok(());
    };
    let [pir, pbs] = peak;
    writeln!(text, "pir = {pir}\npbs = {pbs}")
}

/// A path of so many meters of a ring, from `first` on. The ring says of how many meters it is, and how much further
/// than the one before each is at most.
pub(crate) fn path_from(
    numbers: &mut Numbers,
    path: &mut Vec<u64>,
    first: u64,
    hops: u64,
    ring: (u64, u64),
) -> Result<(), AllocError>
    requires meters { 0 < ring.0 }
    requires most { 0 < ring.1 }
{
    let (meters, most) = ring;
    path.clear();
    let mut meter = first % meters;
    path.push(meter)?;
    for _ in 1..hops {
        meter = meter.wrapping_add(numbers.below(most)).wrapping_add(1) % meters;
        path.push(meter)?;
    }
    Ok(())
}
