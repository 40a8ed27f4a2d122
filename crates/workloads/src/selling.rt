//! A broker's day: contracts sold in no order until a table is well filled, and then sold, released, retired, quoted
//! and looked at in turns, with commands among them that are refused.
ghost use Rattle.std.specs.Prelude.{◌<◌};

use crate::asking::ask_of_domain;
use crate::digest::Digest;
use crate::domains::{path_from, push_link, push_meter, push_port, push_trusted, push_way};
use crate::numbers::{Numbers, shuffled};
use std::alloc::{AllocError, Global};
use std::sync::Wait;
use std::thread::Threads;

const METERS: u64 = 1024;

const PORTS: u64 = 16;

/// How far the links of a meter lead along the ring of meters.
const STRIDES: u64 = 4;

/// How many contracts ask for more than any meter has.
const GREEDY: u64 = 16;

/// The name of a contract, whose order is not that of the numbers.
fn push_name(text: &mut String, contract: u64) -> Result<(), AllocError> {
    let scrambled = contract.wrapping_mul(40_503) % 65_536;
    write!(text, "flow-{scrambled}")
}

fn push_meters(text: &mut String) -> Result<(), AllocError> {
    for meter in 0..METERS {
        push_meter(
            text,
            meter,
            [400_000_000, 1_000_000, 800_000_000, 2_000_000],
            1_000,
        )?;
    }
    for port in 0..PORTS {
        push_port(text, port, 1_000)?;
    }
    Ok(())
}

/// From each port to each sixteenth meter, and from each meter to those behind it.
fn push_links(text: &mut String, numbers: &mut Numbers) -> Result<(), AllocError> {
    for meter in 0..METERS {
        let floor = 10_000 + numbers.below(90_000);
        push_link(text, ("p", meter % PORTS), meter, [floor, 1_000])?;
    }
    for meter in 0..METERS {
        for stride in 1..=STRIDES {
            let floor = 10_000 + numbers.below(90_000);
            push_link(
                text,
                ("m", meter),
                (meter + stride) % METERS,
                [floor, 1_000],
            )?;
        }
    }
    Ok(())
}

fn push_terms(text: &mut String, numbers: &mut Numbers, is_greedy: bool) -> Result<(), AllocError> {
    let cir = 1_000_000 + numbers.below(3_000_000);
    let cbs = 1_500 + numbers.below(2_000);
    if is_greedy {
        return push_trusted(text, [cir + 500_000_000, cbs], None);
    }
    if numbers.below(3) == 0 {
        return push_trusted(text, [cir, cbs], Some([2 * cir, 2 * cbs]));
    }
    push_trusted(text, [cir, cbs], None)
}

fn push_contract(
    text: &mut String,
    name: &mut String,
    path: &mut Vec<u64>,
    numbers: &mut Numbers,
    (contract, is_greedy): (u64, bool),
) -> Result<(), AllocError> {
    let first = numbers.below(METERS);
    path_from(numbers, path, first, 16, (METERS, STRIDES))?;
    name.clear();
    push_name(name, contract)?;
    push_way(
        text,
        name.as_str(),
        first % PORTS,
        path.as_slice(),
        1 + contract % 4,
    )?;
    push_terms(text, numbers, is_greedy)?;
    let (high, low) = (contract / 256 % 256, contract % 256);
    writeln!(text, "src = \"10.{high}.{low}.0/24\"\n")
}

/// The text of the domain, with so many contracts, and those that ask for too much.
fn domain_of(alloc: Global, numbers: &mut Numbers, offered: u64) -> Result<String, AllocError> {
    let mut text = String::new(alloc);
    let mut name = String::new(alloc);
    let mut path = Vec::new(alloc);
    push_meters(&mut text)?;
    push_links(&mut text, numbers)?;
    for contract in 0..offered {
        push_contract(&mut text, &mut name, &mut path, numbers, (contract, false))?;
    }
    for contract in offered..offered.saturating_add(GREEDY) {
        push_contract(&mut text, &mut name, &mut path, numbers, (contract, true))?;
    }
    Ok(text)
}

/// What is sold so far, as far as no command is refused that is to be granted.
#[derive(Drop)]
struct Sales {
    /// The contract of each id, less 1.
    granted: Vec<u64>,
    /// The ids of those that are held and not released.
    held: Vec<u64>,
    /// The ids of those that are released, in that order, and how many of them were retired.
    released: Vec<u64>,
    retired: usize,
    /// The contracts that are free.
    free: Vec<u64>,
    /// The moment of the next command, in nanoseconds.
    now: u64,
}

/// Takes an item out at a place without a pattern.
fn draw(numbers: &mut Numbers, items: &mut Vec<u64>) -> Option<u64> {
    let count = items.len();
    if count == 0 {
        return None;
    }
    let place = numbers.below(count as u64) as usize;
    let last = items.pop()?;
    if place < items.len() {
        let item = items[place];
        items[place] = last;
        return Some(item);
    }
    Some(last)
}

/// One of these without a pattern, which stays.
fn pick(numbers: &mut Numbers, items: &[u64]) -> Option<u64> {
    if items.is_empty() {
        return None;
    }
    let place = numbers.below(items.len() as u64) as usize;
    items.get(place).copied()
}

fn push_reserve(lines: &mut String, contract: u64) -> Result<(), AllocError> {
    lines.push_str("reserve ")?;
    push_name(lines, contract)?;
    Ok(lines.push('\n')?)
}

/// Sells a free contract.
fn sell_one(
    lines: &mut String,
    numbers: &mut Numbers,
    sales: &mut Sales,
) -> Result<(), AllocError> {
    let Some(contract) = draw(numbers, &mut sales.free) else {
        return Ok(());
    };
    sales.granted.push(contract)?;
    sales.held.push(sales.granted.len() as u64)?;
    push_reserve(lines, contract)
}

fn release_one(
    lines: &mut String,
    numbers: &mut Numbers,
    sales: &mut Sales,
) -> Result<(), AllocError> {
    let Some(id) = draw(numbers, &mut sales.held) else {
        return Ok(());
    };
    sales.released.push(id)?;
    let now = sales.now;
    writeln!(lines, "release {id} {now}")
}

/// Retires what was released longest ago, where sixteen more were released since.
fn retire_one(lines: &mut String, sales: &mut Sales) -> Result<(), AllocError> {
    if sales.released.len() < sales.retired.saturating_add(16) {
        return Ok(());
    }
    let Some(id) = sales.released.get(sales.retired).copied() else {
        return Ok(());
    };
    sales.retired = sales.retired.saturating_add(1);
    let place = (id as usize).saturating_sub(1);
    if let Some(contract) = sales.granted.get(place).copied() {
        sales.free.push(contract)?;
    }
    let now = sales.now;
    writeln!(lines, "retire {id} {now}")
}

/// Asks for a quote, mostly for a contract that is free.
fn quote_one(lines: &mut String, numbers: &mut Numbers, sales: &Sales) -> Result<(), AllocError> {
    let from = if numbers.below(4) == 0 {
        sales.granted.as_slice()
    } else {
        sales.free.as_slice()
    };
    let Some(contract) = pick(numbers, from) else {
        return Ok(());
    };
    lines.push_str("quote ")?;
    push_name(lines, contract)?;
    Ok(lines.push_str(if numbers.below(2) == 0 {
        " cir\n"
    } else {
        " cbs\n"
    })?)
}

/// A command that is refused.
fn refused_one(
    lines: &mut String,
    numbers: &mut Numbers,
    sales: &Sales,
    offered: u64,
) -> Result<(), AllocError> {
    let now = sales.now;
    let held = pick(numbers, sales.held.as_slice()).unwrap_or(0);
    match numbers.below(4) {
        0 => push_reserve(lines, offered.wrapping_add(numbers.below(GREEDY))),
        1 => {
            let unknown = (sales.granted.len() as u64).wrapping_add(1_000);
            writeln!(lines, "release {unknown} {now}")
        }
        2 => writeln!(lines, "retire {held} {now}"),
        _ => match sales
            .granted
            .get((held as usize).saturating_sub(1))
            .copied()
        {
            Some(contract) => push_reserve(lines, contract),
            None => Ok(()),
        },
    }
}

/// A command of a day's mix.
fn command(
    lines: &mut String,
    numbers: &mut Numbers,
    sales: &mut Sales,
    offered: u64,
) -> Result<(), AllocError> {
    sales.now = sales
        .now
        .wrapping_add(1_000_000 + numbers.below(50_000_000))
        % 1_000_000_000_000_000_000;
    match numbers.below(200) {
        0 => Ok(lines.push_str("list\n")?),
        1 => Ok(lines.push_str("headroom\n")?),
        2..=51 => sell_one(lines, numbers, sales),
        52..=91 => release_one(lines, numbers, sales),
        92..=131 => retire_one(lines, sales),
        132..=163 => quote_one(lines, numbers, sales),
        164..=187 => Ok(lines.push_str("look\n")?),
        _ => refused_one(lines, numbers, sales, offered),
    }
}

/// The lines of so many commands behind the sale of so many contracts.
fn lines_of(
    alloc: Global,
    numbers: &mut Numbers,
    [offered, held, commands]: [u64; 3],
) -> Result<String, AllocError> {
    let mut lines = String::new(alloc);
    let free = shuffled(alloc, numbers, offered)?;
    let mut sales = Sales {
        granted: Vec::new(alloc),
        held: Vec::new(alloc),
        released: Vec::new(alloc),
        retired: 0,
        free,
        now: 1_000_000_000,
    };
    for _ in 0..held {
        sell_one(&mut lines, numbers, &mut sales)?;
    }
    for _ in 0..commands {
        command(&mut lines, numbers, &mut sales, offered)?;
    }
    Ok(lines)
}

/// Sells so many of so many contracts, and then answers so many commands.
fn sell_one_day(
    rt: &(impl Wait + Threads + Sync),
    alloc: Global,
    numbers: &mut Numbers,
    sizes: [u64; 3],
    digest: &mut Digest,
) -> Result<(), AllocError> {
    let domain = domain_of(alloc, numbers, sizes[0])?;
    let lines = lines_of(alloc, numbers, sizes)?;
    let mut output = Vec::new(alloc);
    ask_of_domain(
        rt,
        alloc,
        "drive domain.toml",
        domain.as_str(),
        lines.as_bytes(),
        &mut output,
        digest,
    )
}

/// The sales of so many days, each over a domain of its own.
pub(crate) fn sell(
    rt: &(impl Wait + Threads + Sync),
    alloc: Global,
    numbers: &mut Numbers,
    days: u64,
    sizes: [u64; 3],
    digest: &mut Digest,
) -> Result<(), AllocError> {
    for _ in 0..days {
        sell_one_day(rt, alloc, numbers, sizes, digest)?;
    }
    Ok(())
}
