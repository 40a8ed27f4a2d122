use crate::rows::checker_rows::expect;
use crate::rows::tables::parsed;
use ds_certificate::{CertificateFault, read};
use std::alloc::{AllocError, Global};
use worked_texts::{MOST_CONTRACTS, most_contracts};

/// Appends the lines of the least bounds of a contract at its edge and at its meter, with a last line in place of that
/// of the last contract.
fn push_bounds(text: &mut String, number: u32, last: &str) -> Result<(), AllocError> {
    write!(text, "c{number} 0 00001 00001\n")?;
    if number == MOST_CONTRACTS {
        text.push_str(last)
    } else {
        write!(text, "c{number} 1 00001 00001\n")
    }
}

/// A text of 139,000 bytes: the least certificate of as many contracts as a domain takes, but for the last line.
fn certificate_ending(alloc: Global, last: &str) -> Result<String, AllocError> {
    let mut text = String::from_str(alloc, "dscert 1\n")?;
    for number in 1..=MOST_CONTRACTS {
        push_bounds(&mut text, number, last)?;
    }
    Ok(text)
}

/// What is told of a table whose certificate has a fault.
const FAULTY: &str = "a text with a fault";

/// Last lines of that certificate, the fault that its text then has, and the line of the checker's refusal, or nothing.
static LAST_LINES: [(&str, Option<CertificateFault>, &str); 6] = [
    ("c4096 1 1 1\n", None, ""),
    (
        "c4096 1 0 1\n",
        None,
        "refused 3 HopBound c4096 1 green 1 0\n",
    ),
    (
        "c4096 1 13500 13500\n",
        None,
        "refused 5 GreenBurst m 21691 13500\n",
    ),
    ("c4096 1\n", Some(CertificateFault::Text), FAULTY),
    ("", Some(CertificateFault::Shape), FAULTY),
    (
        "c4096 1 1 1000000000000001\n",
        Some(CertificateFault::Range),
        FAULTY,
    ),
];

#[test]
fn faults_of_large_texts_and_refusals_of_large_tables_are_not_told_as_memory(rt: HostRuntime) {
    let alloc = rt.alloc();
    let domain = most_contracts(alloc).expect(&rt, "memory");
    let said = parsed(&rt, alloc, &[domain.as_str()]);
    for (last, fault, refusal) in &LAST_LINES {
        let text = certificate_ending(alloc, last).expect(&rt, "memory");
        let found = read(alloc, text.as_bytes(), said.contracts.as_slice()).err();
        assert_eq!(rt; (*last, found), (*last, *fault));
        expect(&rt, alloc, (domain.as_str(), text.as_str()), refusal);
    }
}
