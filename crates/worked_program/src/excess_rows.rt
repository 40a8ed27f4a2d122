use crate::audit_rows::expect_of_audit;
use crate::rows::{expect_of_check, expect_on_domain};
use std::alloc::{AllocError, Global};
use std::process::Abort;
use std::sync::Wait;
use std::test::Fail;
use std::thread::Threads;
use worked_texts::{
    A, EXCESS, ONE, PEAK, POLICED, SEPARATE_RATES, SHARE, TOO_MUCH, TRUSTED, TWO, U, over_excess,
};

/// The least certificates of a trusted contract whose yellow packets have an envelope of their own, and of one that is
/// policed by a meter of a committed and an excess rate.
const LEAST_OF_TRUSTED: &str = "dscert 2\na 0 3000 4000 1000\na 1 4000 6000 2000\n";

const LEAST_OF_POLICED: &str = "dscert 2\nu 0 1501 2002 501\nu 1 2501 4002 1501\n";

/// The text of the domain of that trusted contract.
fn enough(alloc: Global) -> Result<String, AllocError> {
    over_excess(alloc, TWO, &[TRUSTED, A, SHARE, PEAK, EXCESS])
}

/// Expects of `certify` on a domain a certificate, and of `check` on both an output and a status.
fn expect_least(
    rt: &(impl Abort + Wait + Threads + Sync),
    alloc: Global,
    domain: &str,
    certificate: &str,
    (output, status): (&str, u8),
) -> Result<(), Fail> {
    let asked = ("certify domain.toml", domain);
    expect_on_domain(rt, alloc, asked, (certificate, "", 0))?;
    expect_of_check(rt, alloc, (domain, certificate), (output, "", status))
}

#[test]
fn least_certificates_with_an_excess(rt: HostRuntime) -> Result<(), Fail> {
    let trusted: &[&str] = &[TRUSTED, A, SHARE, PEAK, EXCESS];
    let too_much: &[&str] = &[TRUSTED, A, SHARE, PEAK, TOO_MUCH];
    let policed: &[&str] = &[POLICED, U, SEPARATE_RATES];
    for (version, contract, certificate, answer) in [
        (TWO, trusted, LEAST_OF_TRUSTED, ("accepted\n", 0)),
        (
            TWO,
            too_much,
            "dscert 2\na 0 3000 4000 1001\na 1 4000 6000 2001\n",
            ("refused 7 AllBurst m 2001 2000\n", 1),
        ),
        (TWO, policed, LEAST_OF_POLICED, ("accepted\n", 0)),
        (
            ONE,
            policed,
            "dscert 1\nu 0 1501 2002\nu 1 2501 4002\n",
            ("refused 6 AllRate m 16000000 8000000\n", 1),
        ),
    ] {
        let domain = over_excess(rt.alloc(), version, contract)?;
        expect_least(&rt, rt.alloc(), domain.as_str(), certificate, answer)?;
    }
    Ok(())
}

#[test]
fn bounds_of_yellow_packets(rt: HostRuntime) -> Result<(), Fail> {
    let domain = enough(rt.alloc())?;
    for (certificate, answer) in [
        (
            "dscert 2\na 0 3000 4000 999\na 1 4000 6000 2000\n",
            ("refused 2 FirstBound a excess 1000 999\n", "", 1),
        ),
        (
            "dscert 2\na 0 3000 4000 1000\na 1 4000 6000 1999\n",
            ("refused 3 HopBound a 1 excess 2000 1999\n", "", 1),
        ),
        (
            "dscert 2\na 0 3000 4000 1000\na 1 4000 5999 1999\n",
            ("refused 3 HopBound a 1 all 6000 5999\n", "", 1),
        ),
        (
            "dscert 1\na 0 3000 4000\na 1 4000 6000\n",
            ("refused 7 AllBurst m 6000 2000\n", "", 1),
        ),
        (
            "dscert 2\na 0 3000 4000\na 1 4000 6000\n",
            ("", "dsedge: certificate 1 Text\n", 3),
        ),
        ("dscert 3\n", ("", "dsedge: certificate 1 Text\n", 3)),
    ] {
        expect_of_check(&rt, rt.alloc(), (domain.as_str(), certificate), answer)?;
    }
    Ok(())
}

#[test]
fn a_source_over_its_excess(rt: HostRuntime) -> Result<(), Fail> {
    let domain = enough(rt.alloc())?;
    for (steps, answer) in [
        ("send a 1 1001 12 0\n", ("source-over a excess 1\n", "", 1)),
        ("send a 1 1000 12 0\n", ("kept\n", "", 0)),
        ("send a 1 4001 12 0\n", ("source-over a all 1\n", "", 1)),
        (
            "send a 1 1000 12 0\nvisit 1 0\nsend a 2 3000 10 0\nvisit 2 0\n",
            ("kept\nm green 1 3000 yellow 1 1000 red 0 0\n", "", 0),
        ),
    ] {
        expect_of_audit(&rt, rt.alloc(), (domain.as_str(), steps), answer)?;
    }
    Ok(())
}
