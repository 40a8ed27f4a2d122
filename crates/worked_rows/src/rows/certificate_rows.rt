use crate::rows::tables::parsed;
use ds_certificate::{Bound, Bounds, Certificate, CertificateFault, fault_line, make, read, write};
use ds_domain::{BoxedContract, Domain};
use std::alloc::Global;
use std::process::Abort;
use worked_texts::{A, ANYWHERE, B, LINK, METER, PORT, SHARE, TRUSTED};

/// A domain of a trusted contract `a` of 8 Mbit/s and 3,000 bytes over one meter.
const ALONE: &[&str] = &[METER, PORT, LINK, TRUSTED, A, SHARE];

/// A meter `n` behind the same port, and the same contract over that.
const ELSEWHERE: &str = r#"
meter = [{ name = "n", kind = "trtcm", cir = 24000000, cbs = 13500, pir = 24000000, pbs = 13500, skew = 500000 }]
port = [{ name = "p", skew = 0 }]
link = [{ from = "p", to = "n", floor = 0, jitter = 0 }]
[[contract]]
kind = "trusted"
port = "p"
path = ["n"]
"#;

static LINES_THAT_ARE_NONE_OF_A_CERTIFICATE: [&str; 14] = [
    "dscert 01\n",
    "dscert 3\n",
    "dscert 2 \n",
    "dscert 1\n 0 3000 3000\n",
    "dscert 1\nb 0 3000 3000 \n",
    "dscert 1\na 0 3000 3000\r\n",
    "dscert 1\na\r 0 3000 3000\n",
    "dscert 1\n? 0 1 1000000000000001\n",
    "dscert 1\na 0 3000 000000000000000003000\n",
    "dscert 1\na 0 1 1\na 1 1 1\n\n",
    "dscert 1\na 0 3000 3000 3000\n",
    "dscert 2\na 0 3000 3000\n",
    "dscert 2\na 0 3000 3000 3000 3000\n",
    "dscert 2\na 0 3000 3000 +1\n",
];

static LINES_THAT_ARE_NOT_THOSE_OF_THE_CONTRACTS: [&str; 7] = [
    "",
    "dscert 1\na 0 3000 3000\n",
    "dscert 1\nb 0 1 1000000000000001\n",
    "dscert 1\na 1 1 1\na 0 1 1\n",
    "dscert 1\na 0 1 1\na 1 1 1\na 2 1 1\n",
    "dscert 2\nb 0 1 1 1000000000000001\n",
    "dscert 2\na 0 1 1 1\n",
];

static BOUNDS_ABOVE_THEIR_RANGE: [&str; 3] = [
    "dscert 1\na 0 1000000000000001 1\n",
    "dscert 1\na 0 1 99999999999999999999\n",
    "dscert 2\na 0 1 1 1000000000000001\n",
];

/// Expects why a text is no certificate of some contracts.
fn expect_fault(
    rt: &impl Abort,
    alloc: Global,
    contracts: &[BoxedContract],
    text: &str,
    wanted: CertificateFault,
) {
    let fault = read(alloc, text.as_bytes(), contracts).err();
    assert_eq!(rt; (text, fault), (text, Some(wanted)));
}

/// Expects of each text why it is no certificate of some contracts.
fn expect_each(
    rt: &impl Abort,
    alloc: Global,
    contracts: &[BoxedContract],
    (texts, wanted): (&[&str], CertificateFault),
) {
    for text in texts {
        expect_fault(rt, alloc, contracts, text, wanted);
    }
}

/// Expects the faults of texts that are no certificate of some contracts.
fn expect_faults(rt: &impl Abort, alloc: Global, contracts: &[BoxedContract]) {
    let lines = (
        LINES_THAT_ARE_NONE_OF_A_CERTIFICATE.as_slice(),
        CertificateFault::Text,
    );
    let others = (
        LINES_THAT_ARE_NOT_THOSE_OF_THE_CONTRACTS.as_slice(),
        CertificateFault::Shape,
    );
    let bounds = (BOUNDS_ABOVE_THEIR_RANGE.as_slice(), CertificateFault::Range);
    expect_each(rt, alloc, contracts, lines);
    expect_each(rt, alloc, contracts, others);
    expect_each(rt, alloc, contracts, bounds);
}

/// Two meters one behind the other, and the way over both.
const TWO_METERS: &str = r#"
meter = [
    { name = "m", kind = "trtcm", cir = 24000000, cbs = 13500, pir = 24000000, pbs = 13500, skew = 0 },
    { name = "n", kind = "trtcm", cir = 24000000, cbs = 13500, pir = 24000000, pbs = 13500, skew = 0 },
]
port = [{ name = "p", skew = 0 }]
link = [{ from = "p", to = "m", floor = 0, jitter = 0 }, { from = "m", to = "n", floor = 0, jitter = 0 }]
"#;

const OVER_BOTH: &str = "path = [\"m\", \"n\"]\n";

/// Two contracts, `a` over both meters and `b` over one.
const BOTH: &[&str] = &[TWO_METERS, ANYWHERE, OVER_BOTH, A, SHARE, TRUSTED, B, SHARE];

/// Texts, and the first line of each that is at fault.
static FAULTY_LINES: [(&str, usize); 8] = [
    ("", 1),
    ("dscert 3\n", 1),
    ("dscert 1\n", 2),
    ("dscert 1\na 0 1 1\na 1 1 1", 4),
    ("dscert 1\na 0 1 1\na 2 1 1\na 2 1 1\n", 3),
    (
        "dscert 1\na 0 1 1\na 1 1 1\na 2 1 1\nb 0 1 1000000000000001\n",
        5,
    ),
    ("dscert 1\na 0 1 1\na 1 1 1\na 2 1 1\nb 0 1 1\nc 1 1 1\n", 6),
    (
        "dscert 1\na 0 1 1\na 1 1 1\na 2 1 1\nb 0 1 1\nb 1 1 1\n\n",
        7,
    ),
];

/// Expects of each text which line is at fault.
fn expect_lines(rt: &impl Abort, contracts: &[BoxedContract]) {
    for (text, line) in &FAULTY_LINES {
        assert_eq!(rt;
            (text, fault_line(text.as_bytes(), contracts)),
            (text, *line)
        );
    }
}

/// Expects the same of certificates of these two contracts.
fn expect_lines_of_two(rt: &impl Abort, alloc: Global) {
    expect_lines(rt, parsed(rt, alloc, BOTH).contracts.as_slice());
}

#[test]
fn the_first_line_that_is_at_fault(rt: HostRuntime) {
    expect_lines_of_two(&rt, rt.alloc());
}

/// What the certificate of a text is written as.
fn rewritten(
    alloc: Global,
    text: &str,
    contracts: &[BoxedContract],
) -> Result<Vec<u8>, CertificateFault> {
    let certificate = read(alloc, text.as_bytes(), contracts)?;
    write(alloc, &certificate, contracts)
}

/// Certificates by their names, and what they are written as.
static REWRITTEN: [(&str, &str, &str); 3] = [
    (
        "leading_zeros_and_a_last_line_without_its_end",
        "dscert 1\na 00 3000 03000\na 1 4000 1000000000000000",
        "dscert 1\na 0 3000 3000\na 1 4000 1000000000000000\n",
    ),
    (
        "the_short_form_is_written_where_no_excess_differs",
        "dscert 2\na 0 3000 3000 3000\na 1 4000 6000 6000\n",
        "dscert 1\na 0 3000 3000\na 1 4000 6000\n",
    ),
    (
        "the_long_form_is_written_where_an_excess_differs",
        "dscert 2\na 0 3000 3000 3000\na 1 4000 6000 06001",
        "dscert 2\na 0 3000 3000 3000\na 1 4000 6000 6001\n",
    ),
];

/// Expects what the certificate of a text is written as.
fn expect_rewritten(
    rt: &impl Abort,
    alloc: Global,
    contracts: &[BoxedContract],
    (name, text, wanted): &(&str, &str, &str),
) {
    let again = rewritten(alloc, text, contracts).expect(rt, name);
    assert_eq!(rt; (name, again.as_slice()), (name, wanted.as_bytes()));
}

/// Expects of each row what its certificate is written as.
fn expect_all_rewritten(rt: &impl Abort, alloc: Global, contracts: &[BoxedContract]) {
    for row in &REWRITTEN {
        expect_rewritten(rt, alloc, contracts, row);
    }
}

/// The text of the least certificate of no contracts over a domain.
fn least_of_none(alloc: Global, domain: &Domain) -> Result<Vec<u8>, CertificateFault> {
    let least = make(alloc, domain, &[])?;
    write(alloc, &least, &[])
}

/// Expects of a domain the text of that certificate.
fn expect_heading(rt: &impl Abort, alloc: Global, domain: &Domain) {
    let text = least_of_none(alloc, domain).expect(rt, "a certificate");
    assert_eq!(rt; text.as_slice(), b"dscert 1\n".as_slice());
}

#[test]
fn a_heading_alone_is_of_no_contracts(rt: HostRuntime) {
    let again = read(rt.alloc(), b"dscert 1", &[]).expect(&rt, "a certificate");
    assert_eq!(rt; again.bounds().len(), 0);
}

/// Expects that the contracts of another domain have no certificate in a domain.
fn expect_none_made(rt: &impl Abort, alloc: Global, domain: &Domain, parts: &[&str]) {
    let other = parsed(rt, alloc, parts);
    let refused = make(alloc, domain, other.contracts.as_slice()).err();
    assert_eq!(rt; refused, Some(CertificateFault::Shape));
}

/// A contract over the other meter.
const BEHIND: &[&str] = &[ELSEWHERE, A, SHARE];

/// A certificate of one contract, which has a bound for hop 0 alone.
fn short(rt: &impl Abort, alloc: Global) -> Certificate {
    let bound = Bound::new(3000, 3000, 3000).expect(rt, "a bound");
    let hops = Vec::from_array(alloc, [bound]).expect(rt, "memory");
    let bounds = Bounds::new(alloc, hops).expect(rt, "memory");
    Certificate::new(Vec::from_array(alloc, [bounds]).expect(rt, "memory"))
}

/// Expects that this certificate is not written for some contracts.
fn expect_unwritten(rt: &impl Abort, alloc: Global, contracts: &[BoxedContract]) {
    let refused = write(alloc, &short(rt, alloc), contracts).err();
    assert_eq!(rt; refused, Some(CertificateFault::Shape));
}

/// Expects of one contract what is no certificate of it, and what certificates of it are written as.
fn expect_of_one(rt: &impl Abort, alloc: Global) {
    let one = parsed(rt, alloc, ALONE);
    expect_faults(rt, alloc, one.contracts.as_slice());
    expect_all_rewritten(rt, alloc, one.contracts.as_slice());
    expect_unwritten(rt, alloc, one.contracts.as_slice());
}

#[test]
fn certificates_of_one_contract(rt: HostRuntime) {
    expect_of_one(&rt, rt.alloc());
}

/// Expects of a domain that no contracts have a heading alone in it, and one over an unknown meter no certificate.
fn expect_in_one(rt: &impl Abort, alloc: Global) {
    let one = parsed(rt, alloc, ALONE);
    expect_heading(rt, alloc, &one.domain);
    expect_none_made(rt, alloc, &one.domain, BEHIND);
}

#[test]
fn certificates_in_a_domain(rt: HostRuntime) {
    expect_in_one(&rt, rt.alloc());
}
