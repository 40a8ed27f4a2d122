use json_lines::{count, figure, line_of};
use std::alloc::{AllocError, Global};
use std::process::Abort;

/// Expects of a figure its line.
fn expect_figure(
    rt: &impl Abort,
    alloc: Global,
    wanted: &str,
    number: u128,
) -> Result<(), AllocError> {
    let value = figure(alloc, number)?;
    let line = line_of(alloc, &value)?;
    assert_eq!(rt; line.as_slice(), wanted.as_bytes());
    Ok(())
}

#[test]
fn figures(rt: HostRuntime) {
    for (number, wanted) in [
        (0, "0\n"),
        (18_446_744_073_709_551_615, "18446744073709551615\n"),
        // Readers of JSON would round it.
        (18_446_744_073_709_551_616, "\"18446744073709551616\"\n"),
        (u128::MAX, "\"340282366920938463463374607431768211455\"\n"),
    ] {
        expect_figure(&rt, rt.alloc(), wanted, number).expect(&rt, "memory for a line");
    }
}

/// The line of the object of so many packets and bytes.
fn count_line(alloc: Global, packets: u64, bytes: u64) -> Result<Vec<u8>, AllocError> {
    let value = count(alloc, packets, bytes)?;
    line_of(alloc, &value)
}

#[test]
fn counts(rt: HostRuntime) {
    let line = count_line(rt.alloc(), 2, 3_000).expect(&rt, "memory for a line");
    let wanted = b"{\"bytes\":3000,\"packets\":2}\n";
    assert_eq!(rt; line.as_slice(), wanted.as_slice());
}
