use crate::contracts::TRUSTED;
use crate::joining::joined;
use crate::sites::{METER, PORT};
use std::alloc::{AllocError, Global};

/// How many contracts a domain takes.
pub const MOST_CONTRACTS: u32 = 4_096;

/// A link from `p` to `m` without jitter.
pub const STEADY: &str = r#"
[[link]]
from = "p"
to = "m"
floor = 0
jitter = 0
"#;

/// A class, 1 bit/s and 1 byte.
const LEAST: &str = "class = 1\ncir = 1\ncbs = 1\n";

/// Appends the contract of a number over the meter.
fn push_contract(text: &mut String, number: u32) -> Result<(), AllocError> {
    write!(text, "{TRUSTED}name = \"c{number}\"\n{LEAST}")
}

/// The meter, and over it as many contracts as a domain takes, `c1` to `c4096`, of 1 bit/s and 1 byte each.
pub fn most_contracts(alloc: Global) -> Result<String, AllocError> {
    let mut text = joined(alloc, &[METER, PORT, STEADY])?;
    for number in 1..=MOST_CONTRACTS {
        push_contract(&mut text, number)?;
    }
    Ok(text)
}
