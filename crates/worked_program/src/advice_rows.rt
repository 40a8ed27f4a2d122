use crate::mark_rows::run_mark;
use crate::rows::{ALONE, Done, domain_text, run_on_domain, run_on_table};
use ds_certificate::CertificateFault;
use dsedge_serve::Advice;
use dsedge_texts::{FaultyLine, Reason};
use std::process::Abort;
use std::test::Fail;
use worked_texts::TWO_RATES;

/// Expects what is told of a run, and what there is to say behind it.
fn expect(rt: &impl Abort, done: &Done, told: &str, advice: Advice) {
    assert_eq!(rt; done.told.as_slice(), told.as_bytes());
    assert_eq!(rt; done.advice, Some(advice), "{told}");
}

#[test]
fn a_wrong_option_is_one_line(rt: HostRuntime) -> Result<(), Fail> {
    for words in [
        "meter --kinds trtcm",
        "meters",
        "envelope --rate 1",
        "check domain.toml",
    ] {
        let done = run_on_domain(&rt, rt.alloc(), words, "")?;
        expect(&rt, &done, "dsedge: usage\n", Advice::Words);
        assert_eq!(rt; done.writes, 1);
    }
    Ok(())
}

#[test]
fn a_file_that_is_none_is_one_line(rt: HostRuntime) -> Result<(), Fail> {
    let done = run_on_domain(&rt, rt.alloc(), "check domain.toml other.cert", "")?;
    let told = "dsedge: file other.cert\n";
    expect(&rt, &done, told, Advice::File(Reason::Absent));
    Ok(())
}

#[test]
fn the_line_of_a_certificate_that_is_at_fault(rt: HostRuntime) -> Result<(), Fail> {
    let domain = domain_text(rt.alloc(), (500_000, 0), 1_000_000, &ALONE)?;
    for (text, fault, line, told) in [
        (
            "dscert 4\n",
            CertificateFault::Text,
            1,
            "dsedge: certificate 1 Text\n",
        ),
        (
            "dscert 1\na 0 1 1\n",
            CertificateFault::Shape,
            3,
            "dsedge: certificate 2 Shape\n",
        ),
        (
            "dscert 1\na 0 1 1\na 1 1 1000000000000001\n",
            CertificateFault::Range,
            3,
            "dsedge: certificate 3 Range\n",
        ),
    ] {
        let words = "check domain.toml domain.cert";
        let done = run_on_table(
            &rt,
            rt.alloc(),
            words,
            domain.as_str(),
            text.as_bytes(),
            b"",
        )?;
        expect(
            &rt,
            &done,
            told,
            Advice::Certificate(FaultyLine { fault, line }),
        );
    }
    Ok(())
}

#[test]
fn a_report_is_one_write(rt: HostRuntime) -> Result<(), Fail> {
    let words = "--port p --workers 1 --red keep";
    let first = [0x0a, 0x0d, 0x0d, 0x0a];
    let done = run_mark(&rt, rt.alloc(), TWO_RATES, words, &first)?;
    let told = "records 0\nmarked 0\nunmatched 0\nskipped 0\nunverified 0\ndropped 0\n\
        green 0 0\nyellow 0 0\nred 0 0\ndsedge: capture 6 Truncated\n";
    assert_eq!(rt; done.told.as_slice(), told.as_bytes());
    assert!(rt; done.advice.is_none());
    assert_eq!(rt; done.writes, 1);
    Ok(())
}
