use crate::rows::excess_rows::ENOUGH;
use crate::rows::tables::{Said, parsed, text_of};
use ds_certificate::{Bound, Bounds, Certificate};
use ds_checker::{Candidate, Refusal, check};
use dsedge_texts::{TableFault, accept};
use std::alloc::Global;
use std::process::Abort;
use worked_texts::{A, TRUSTED};

/// Why two texts say no acceptable table.
fn fault_of(alloc: Global, domain: &str, certificate: &str) -> Result<(), TableFault> {
    match accept(alloc, domain.as_bytes(), certificate.as_bytes()) {
        Ok(_accepted) => Ok(()),
        Err(fault) => Err(fault),
    }
}

/// The line of a refusal; nothing where there is none.
fn line(answer: &Result<(), TableFault>) -> &[u8] {
    match answer {
        Ok(()) => b"",
        Err(TableFault::Refused(line)) => line.bytes(),
        Err(_) => b"a text with a fault",
    }
}

/// Expects the line of the refusal of two texts, or nothing where they are accepted.
pub fn expect(rt: &impl Abort, alloc: Global, (domain, certificate): (&str, &str), wanted: &str) {
    let answer = fault_of(alloc, domain, certificate);
    assert_eq!(rt;
        (certificate, line(&answer)),
        (certificate, wanted.as_bytes())
    );
}

/// The parts of a domain, a certificate, and the line of their refusal, or nothing where they are accepted.
type Checked = (&'static [&'static str], &'static str, &'static str);

/// Expects of parts of a domain and a certificate the line of their refusal, or nothing where they are accepted.
fn expect_row(rt: &impl Abort, alloc: Global, (parts, certificate, wanted): &Checked) {
    let domain = text_of(rt, alloc, parts);
    expect(rt, alloc, (domain.as_str(), certificate), wanted);
}

/// Expects the same of each row.
fn expect_rows(rt: &impl Abort, alloc: Global, rows: &[Checked]) {
    for row in rows {
        expect_row(rt, alloc, row);
    }
}

/// The envelope of a contract of 8,000 bit/s and 500 bytes.
const SLOW: &str = "cir = 8000\ncbs = 500\n";

/// A meter of a committed and an excess rate of 8,000 bit/s each, with 500 bytes and 1,000 more.
const EXCESS_RATE: &str = r#"
meter = [{ name = "m", kind = "rfc4115", cir = 8000, cbs = 500, eir = 8000, ebs = 1000, skew = 0 }]
port = [{ name = "p", skew = 0 }]
link = [{ from = "p", to = "m", floor = 0, jitter = 0 }]
"#;

/// That contract over that meter with a peak.
static A_PEAK_IS_HELD_AGAINST_THE_EXCESS_RATE_AND_BUCKET: [Checked; 3] = [
    (
        &[EXCESS_RATE, TRUSTED, A, SLOW, "pir = 8000\npbs = 1001\n"],
        "dscert 1\na 0 500 1001\na 1 500 1001\n",
        "refused 7 AllBurst m 1001 1000\n",
    ),
    (
        &[EXCESS_RATE, TRUSTED, A, SLOW],
        "dscert 1\na 0 500 500\na 1 500 500\n",
        "",
    ),
    (
        &[EXCESS_RATE, TRUSTED, A, SLOW, "pir = 8001\npbs = 1000\n"],
        "dscert 1\na 0 500 1000\na 1 500 1000\n",
        "refused 6 AllRate m 8001 8000\n",
    ),
];

/// A link with a jitter of 2 ms, in which that contract sends 2 bytes more.
const JITTERED: &str = r#"
meter = [{ name = "m", kind = "trtcm", cir = 8000000, cbs = 13500, pir = 8000000, pbs = 13500, skew = 0 }]
port = [{ name = "p", skew = 0 }]
link = [{ from = "p", to = "m", floor = 0, jitter = 2000000 }]
"#;

/// That contract behind that link.
const JITTERED_WAY: &[&str] = &[JITTERED, TRUSTED, A, SLOW];

static BOUNDS_THAT_ARE_TOO_LOW: [Checked; 4] = [
    (JITTERED_WAY, "dscert 1\na 0 500 500\na 1 502 502\n", ""),
    (
        JITTERED_WAY,
        "dscert 1\na 0 499 499\na 1 502 502\n",
        "refused 2 FirstBound a green 500 499\n",
    ),
    (
        JITTERED_WAY,
        "dscert 1\na 0 500 500\na 1 501 502\n",
        "refused 3 HopBound a 1 green 502 501\n",
    ),
    (
        JITTERED_WAY,
        "dscert 1\na 0 500 501\na 1 502 502\n",
        "refused 3 HopBound a 1 all 503 502\n",
    ),
];

/// A meter of 24 Mbit/s and 4,499 bytes with a skew of 500 µs, and a link to it without jitter.
const SKEWED: &str = r#"
meter = [{ name = "m", kind = "trtcm", cir = 24000000, cbs = 4499, pir = 24000000, pbs = 4499, skew = 500000 }]
port = [{ name = "p", skew = 0 }]
link = [{ from = "p", to = "m", floor = 0, jitter = 0 }]
"#;

/// The envelope of a contract of 24 Mbit/s and 3,000 bytes.
const WHOLE_RATE: &str = "cir = 24000000\ncbs = 3000\n";

/// A trusted contract with an excess that its meter has room for.
static BOUNDS_OF_YELLOW_PACKETS_THAT_ARE_TOO_LOW: [Checked; 3] = [
    (
        ENOUGH,
        "dscert 2\na 0 3000 4000 999\na 1 4000 6000 2000\n",
        "refused 2 FirstBound a excess 1000 999\n",
    ),
    (
        ENOUGH,
        "dscert 2\na 0 3000 4000 1000\na 1 4000 6000 1999\n",
        "refused 3 HopBound a 1 excess 2000 1999\n",
    ),
    (
        ENOUGH,
        "dscert 2\na 0 3000 3999 999\na 1 4000 6000 2000\n",
        "refused 2 FirstBound a all 4000 3999\n",
    ),
];

static THE_SKEW_OF_A_METER_WIDENS_THE_BURSTS: [Checked; 1] = [(
    &[SKEWED, TRUSTED, A, WHOLE_RATE],
    "dscert 1\na 0 3000 3000\na 1 3000 3000\n",
    "refused 5 GreenBurst m 4500 4499\n",
)];

static NO_CONTRACT_BRINGS_ANYTHING: [Checked; 1] = [(&[SKEWED], "dscert 1\n", "")];

#[test]
fn certificates_that_are_accepted_or_refused(rt: HostRuntime) {
    let alloc = rt.alloc();
    expect_rows(
        &rt,
        alloc,
        &A_PEAK_IS_HELD_AGAINST_THE_EXCESS_RATE_AND_BUCKET,
    );
    expect_rows(&rt, alloc, &BOUNDS_THAT_ARE_TOO_LOW);
    expect_rows(&rt, alloc, &BOUNDS_OF_YELLOW_PACKETS_THAT_ARE_TOO_LOW);
    expect_rows(&rt, alloc, &THE_SKEW_OF_A_METER_WIDENS_THE_BURSTS);
    expect_rows(&rt, alloc, &NO_CONTRACT_BRINGS_ANYTHING);
}

/// The bounds that are given, of green packets and of green and yellow ones; the excess is no less than the latter.
fn bounds(rt: &impl Abort, alloc: Global, row: &[(u64, u64)]) -> Bounds {
    let mut hops = Vec::new(alloc);
    for (green, all) in row {
        let bound = Bound::new(*green, *all, *all).expect(rt, "a bound");
        hops.push(bound).expect(rt, "memory");
    }
    Bounds::new(alloc, hops).expect(rt, "memory")
}

/// A certificate of a list for each contract, of the bounds that are given.
fn certificate(rt: &impl Abort, alloc: Global, rows: &[&[(u64, u64)]]) -> Certificate {
    let mut lists = Vec::new(alloc);
    for row in rows {
        lists.push(bounds(rt, alloc, row)).expect(rt, "memory");
    }
    Certificate::new(lists)
}

/// That domain and that contract with bounds.
fn candidate(rt: &impl Abort, alloc: Global, rows: &[&[(u64, u64)]]) -> Candidate {
    let certificate = certificate(rt, alloc, rows);
    let Said { domain, contracts } = parsed(rt, alloc, JITTERED_WAY);
    Candidate {
        domain,
        contracts,
        certificate,
    }
}

/// The number of a refusal of bounds for their number, and the contract; None for any other refusal.
fn misshapen(refusal: &Refusal) -> Option<(u8, usize)> {
    match refusal {
        Refusal::Shape { contract } => Some((refusal.code(), *contract)),
        _ => None,
    }
}

/// Why the bounds are refused.
fn refusal(rt: &impl Abort, alloc: Global, rows: &[&[(u64, u64)]]) -> Option<Refusal> {
    match check(alloc, candidate(rt, alloc, rows)) {
        Ok(_accepted) => None,
        Err((_candidate, refusal)) => Some(refusal),
    }
}

/// Lists of bounds by their names, and the contract whose bounds are refused for their number.
static LISTS: [(&str, &[&[(u64, u64)]], usize); 3] = [
    ("no_list", &[], 0),
    ("a_list_that_is_too_short", &[&[(500, 500)]], 0),
    ("a_list_too_many", &[&[(500, 500), (502, 502)], &[]], 1),
];

#[test]
fn lists_that_are_not_those_of_the_contracts(rt: HostRuntime) {
    for (name, rows, contract) in &LISTS {
        let refusal = refusal(&rt, rt.alloc(), rows).expect(&rt, name);
        assert_eq!(rt; (name, misshapen(&refusal)), (name, Some((1, *contract))));
    }
}
