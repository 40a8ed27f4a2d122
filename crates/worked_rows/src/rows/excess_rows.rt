use crate::rows::checker_rows::expect;
use crate::rows::tables::{parsed, text_of};
use ds_certificate::{Certificate, read};
use ds_domain::BoxedContract;
use dsedge_texts::certify;
use std::alloc::{AllocError, Global};
use std::process::Abort;
use worked_texts::{
    A, EXCESS, EXCESS_WAY, ONE, PEAK, POLICED, SEPARATE_RATES, SHARE, TOO_MUCH, TRUSTED, TWO, U,
};

/// A trusted contract that a meter with an excess bucket has room for.
pub const ENOUGH: &[&str] = &[TWO, EXCESS_WAY, TRUSTED, A, SHARE, PEAK, EXCESS];

/// Domains, the least certificate of each, and the line of its refusal or nothing.
static YELLOW_PACKETS_ARE_HELD_AGAINST_THE_EXCESS_RATE_AND_BUCKET: [(&[&str], &str, &str); 4] = [
    (
        ENOUGH,
        "dscert 2\na 0 3000 4000 1000\na 1 4000 6000 2000\n",
        "",
    ),
    (
        &[TWO, EXCESS_WAY, TRUSTED, A, SHARE, PEAK, TOO_MUCH],
        "dscert 2\na 0 3000 4000 1001\na 1 4000 6000 2001\n",
        "refused 7 AllBurst m 2001 2000\n",
    ),
    (
        &[TWO, EXCESS_WAY, POLICED, U, SEPARATE_RATES],
        "dscert 2\nu 0 1501 2002 501\nu 1 2501 4002 1501\n",
        "",
    ),
    (
        &[ONE, EXCESS_WAY, POLICED, U, SEPARATE_RATES],
        "dscert 1\nu 0 1501 2002\nu 1 2501 4002\n",
        "refused 6 AllRate m 16000000 8000000\n",
    ),
];

/// The least certificate of a domain's text.
fn least(rt: &impl Abort, alloc: Global, domain: &str) -> Vec<u8> {
    certify(alloc, domain.as_bytes()).expect(rt, domain)
}

/// Expects of a domain its least certificate, and the line of its refusal or nothing.
fn expect_least(
    rt: &impl Abort,
    alloc: Global,
    (parts, certificate, refusal): &(&[&str], &str, &str),
) {
    let domain = text_of(rt, alloc, parts);
    let least = least(rt, alloc, domain.as_str());
    assert_eq!(rt;
        (certificate, least.as_slice()),
        (certificate, certificate.as_bytes())
    );
    expect(rt, alloc, (domain.as_str(), certificate), refusal);
}

#[test]
fn yellow_packets_are_held_against_the_excess_rate_and_bucket(rt: HostRuntime) {
    for row in &YELLOW_PACKETS_ARE_HELD_AGAINST_THE_EXCESS_RATE_AND_BUCKET {
        expect_least(&rt, rt.alloc(), row);
    }
}

/// The excess of each bound, contract by contract.
fn excesses(alloc: Global, certificate: &Certificate) -> Result<Vec<u64>, AllocError> {
    let mut excesses = Vec::new(alloc);
    for bounds in certificate.bounds() {
        for bound in bounds.hops() {
            excesses.push(bound.excess())?;
        }
    }
    Ok(excesses)
}

/// Expects the excess of each bound of a short certificate of a contract.
fn expect_excesses(rt: &impl Abort, alloc: Global, contracts: &[BoxedContract]) {
    let text = b"dscert 1\na 0 3000 4000\na 1 4000 6000\n";
    let certificate = read(alloc, text, contracts).expect(rt, "a certificate");
    let excesses = excesses(alloc, &certificate).expect(rt, "memory");
    assert_eq!(rt; excesses.as_slice(), [4000, 6000].as_slice());
}

/// Expects that of the contract that the meter has room for.
fn expect_excesses_of_enough(rt: &impl Abort, alloc: Global) {
    expect_excesses(rt, alloc, parsed(rt, alloc, ENOUGH).contracts.as_slice());
}

#[test]
fn the_excess_of_a_short_text_is_its_all(rt: HostRuntime) {
    expect_excesses_of_enough(&rt, rt.alloc());
}
