use crate::rows::checker_rows::expect;
use std::alloc::{AllocError, Global};
use std::process::Abort;
use worked_texts::{MOST_CONTRACTS, joined, most_contracts};

/// The greatest bound, in bytes.
const MOST: u64 = 1_000_000_000_000_000;

/// Appends the line of the certificate for a hop of the contract of a number.
fn push_bound(text: &mut String, number: u32, hop: u32) -> Result<(), AllocError> {
    writeln!(text, "c{number} {hop} {MOST} {MOST}")
}

/// A certificate of as many contracts as a domain takes, in which each bound is the greatest.
fn greatest_bounds(alloc: Global) -> Result<String, AllocError> {
    let mut text = joined(alloc, &["dscert 1\n"])?;
    for number in 1..=MOST_CONTRACTS {
        push_bound(&mut text, number, 0)?;
        push_bound(&mut text, number, 1)?;
    }
    Ok(text)
}

/// Expects the sums of that certificate: with its skew of 500 µs the meter widens each bound by a byte.
fn expect_greatest(rt: &impl Abort, alloc: Global) {
    let domain = most_contracts(alloc).expect(rt, "memory");
    let certificate = greatest_bounds(alloc).expect(rt, "memory");
    let wanted = "refused 5 GreenBurst m 4096000000000004096 13500\n";
    expect(rt, alloc, (domain.as_str(), certificate.as_str()), wanted);
}

#[test]
fn the_greatest_sums_are_told(rt: HostRuntime) {
    expect_greatest(&rt, rt.alloc());
}
