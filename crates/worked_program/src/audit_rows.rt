use crate::rows::{
    ALONE, AT_EDGE, Done, Wanted, domain_text, expect_done, run_on_domain, run_on_table,
};
use std::alloc::{AllocError, Global};
use std::process::Abort;
use std::sync::Wait;
use std::test::Fail;
use std::thread::Threads;
use worked_texts::{A, LEAST_OF_TRUSTED, SHARE, TRUSTED};

/// `audit` on steps, over a domain with a certificate.
fn run_audit(
    rt: &(impl Wait + Threads + Sync),
    alloc: Global,
    domain: &str,
    certificate: &[u8],
    steps: &str,
) -> Result<Done, Fail> {
    let words = "audit domain.toml domain.cert";
    run_on_table(rt, alloc, words, domain, certificate, steps.as_bytes())
}

/// Expects of `audit` on steps, over a domain with its least certificate, how the output begins, what is told, and a
/// status. The name says what the row is about.
fn expect_named_audit(
    rt: &(impl Abort + Wait + Threads + Sync),
    alloc: Global,
    name: &str,
    (domain, steps): (&str, &str),
    (beginning, told, status): Wanted<'_>,
) -> Result<(), Fail> {
    let least = run_on_domain(rt, alloc, "certify domain.toml", domain)?;
    let done = run_audit(rt, alloc, domain, least.output.as_slice(), steps)?;
    let begins = done.output.as_slice().starts_with(beginning.as_bytes());
    assert_eq!(rt; (name, begins), (name, true));
    assert_eq!(rt; (name, done.told.as_slice()), (name, told.as_bytes()));
    assert_eq!(rt; (name, done.status), (name, status));
    Ok(())
}

/// The same of a row that its steps name.
pub(crate) fn expect_of_audit(
    rt: &(impl Abort + Wait + Threads + Sync),
    alloc: Global,
    asked: (&str, &str),
    wanted: Wanted<'_>,
) -> Result<(), Fail> {
    expect_named_audit(rt, alloc, asked.1, asked, wanted)
}

/// What a row is about, steps over a domain of a trusted contract, how what comes of them begins, and the status.
type Audited = (&'static str, &'static str, &'static str, u8);

/// The meter of these keeps time within 100 ns, and its link takes no longer.
static WITHIN_A_CLOSE_SKEW: [Audited; 4] = [
    (
        "a visit late by the skew is kept",
        "send a 1 100 10 1000\nvisit 1 1000\nsend a 2 100 10 900\nvisit 2 900\n",
        "kept\nm green 2 200 yellow 0 0 red 0 0\n",
        0,
    ),
    (
        "a visit later than the skew is late",
        "send a 1 100 10 1000\nvisit 1 1000\nsend a 2 100 10 899\nvisit 2 899\n",
        "late m 1 101\n",
        1,
    ),
    (
        "a link that takes too long",
        "send a 1 100 10 1000\nvisit 1 1001\n",
        "delay-over 1 1\n",
        1,
    ),
    (
        "a source over its contract",
        "send a 1 1500 10 0\nsend a 2 1500 10 0\nsend a 3 1 10 0\n",
        "source-over a green 3\n",
        1,
    ),
];

#[test]
fn visits_within_a_close_skew(rt: HostRuntime) -> Result<(), Fail> {
    let domain = domain_text(rt.alloc(), (100, 0), 0, &ALONE)?;
    for (name, steps, beginning, status) in &WITHIN_A_CLOSE_SKEW {
        let asked = (domain.as_str(), *steps);
        expect_named_audit(&rt, rt.alloc(), name, asked, (beginning, "", *status))?;
    }
    Ok(())
}

#[test]
fn a_packet_after_the_end_of_its_contract(rt: HostRuntime) -> Result<(), Fail> {
    let ended = [TRUSTED, A, SHARE, "until = 5\n"];
    let domain = domain_text(rt.alloc(), (500_000, 0), 1_000_000, &ended)?;
    let steps = "send a 1 100 10 5\n";
    let outside = ("outside 1\n", "", 1);
    expect_of_audit(&rt, rt.alloc(), (domain.as_str(), steps), outside)
}

#[test]
fn packets_policed_at_the_edge(rt: HostRuntime) -> Result<(), Fail> {
    let domain = domain_text(rt.alloc(), (500_000, 0), 1_000_000, &AT_EDGE)?;
    let steps = "send u 1 1500 0 0\nvisit 1 0\nvisit 1 0\n\
        send u 2 1500 0 0\nvisit 2 0\nvisit 2 500\nsend u 3 1 0 0\nvisit 3 0\n";
    let accounts =
        "kept\nm green 1 1500 yellow 1 1500 red 0 0\nedge:u green 1 1500 yellow 1 1500 red 1 1\n";
    expect_of_audit(&rt, rt.alloc(), (domain.as_str(), steps), (accounts, "", 0))
}

/// Expects of `audit --json` on steps, over a domain with its least certificate, what it leaves behind.
fn expect_audit_object(
    rt: &(impl Abort + Wait + Threads + Sync),
    alloc: Global,
    (domain, steps): (&str, &str),
    wanted: Wanted<'_>,
) -> Result<(), Fail> {
    let least = run_on_domain(rt, alloc, "certify domain.toml", domain)?;
    let words = "audit --json domain.toml domain.cert";
    let done = run_on_table(
        rt,
        alloc,
        words,
        domain,
        least.output.as_slice(),
        steps.as_bytes(),
    )?;
    expect_done(rt, (words, steps), &done, wanted);
    Ok(())
}

/// The object of a run of a policed contract.
const OBJECT_OF_A_RUN: &str = "{\"answer\":\"audit\",\"sites\":[\
    {\"green\":{\"bytes\":1500,\"packets\":1},\"red\":{\"bytes\":0,\"packets\":0},\
    \"site\":\"m\",\"yellow\":{\"bytes\":1500,\"packets\":1}},\
    {\"green\":{\"bytes\":1500,\"packets\":1},\"red\":{\"bytes\":1,\"packets\":1},\
    \"site\":\"edge:u\",\"yellow\":{\"bytes\":1500,\"packets\":1}}],\
    \"verdict\":{\"kind\":\"kept\"}}\n";

#[test]
fn a_run_is_judged_with_an_object(rt: HostRuntime) -> Result<(), Fail> {
    let alloc = rt.alloc();
    let domain = domain_text(alloc, (500_000, 0), 1_000_000, &AT_EDGE)?;
    let steps = "send u 1 1500 0 0\nvisit 1 0\nvisit 1 0\n\
        send u 2 1500 0 0\nvisit 2 0\nvisit 2 500\nsend u 3 1 0 0\nvisit 3 0\n";
    expect_audit_object(
        &rt,
        alloc,
        (domain.as_str(), steps),
        (OBJECT_OF_A_RUN, "", 0),
    )
}

/// Steps over a domain of a trusted contract, the packets and bytes that the meter passes green, and the verdict.
static VERDICTS_AS_OBJECTS: [(&str, (u64, u64), &str); 3] = [
    (
        "send a 1 100 10 1000\nvisit 1 1000\nsend a 2 100 10 899\nvisit 2 899\n",
        (2, 200),
        "{\"kind\":\"late\",\"late\":101,\"place\":1,\"site\":\"m\"}",
    ),
    (
        "send a 1 100 10 1000\nvisit 1 1001\n",
        (1, 100),
        "{\"hop\":1,\"kind\":\"delay-over\",\"packet\":1}",
    ),
    (
        "send a 1 1500 10 0\nsend a 2 1500 10 0\nsend a 3 1 10 0\n",
        (0, 0),
        "{\"column\":\"green\",\"contract\":\"a\",\"kind\":\"source-over\",\"packet\":3}",
    ),
];

/// The object of a run over one meter that passes so many packets and bytes, all green, and its verdict.
fn object_of_green(
    alloc: Global,
    (packets, bytes): (u64, u64),
    verdict: &str,
) -> Result<String, AllocError> {
    format!(in alloc;
        "{{\"answer\":\"audit\",\"sites\":[\
        {{\"green\":{{\"bytes\":{bytes},\"packets\":{packets}}},\
        \"red\":{{\"bytes\":0,\"packets\":0}},\"site\":\"m\",\
        \"yellow\":{{\"bytes\":0,\"packets\":0}}}}],\"verdict\":{verdict}}}\n"
    )
}

#[test]
fn verdicts_are_told_as_objects(rt: HostRuntime) -> Result<(), Fail> {
    let alloc = rt.alloc();
    let domain = domain_text(alloc, (100, 0), 0, &ALONE)?;
    for (steps, passed, verdict) in &VERDICTS_AS_OBJECTS {
        let object = object_of_green(alloc, *passed, verdict)?;
        let wanted = (object.as_str(), "", 1);
        expect_audit_object(&rt, alloc, (domain.as_str(), *steps), wanted)?;
    }
    Ok(())
}

#[test]
fn a_packet_after_the_end_is_told_as_an_object(rt: HostRuntime) -> Result<(), Fail> {
    let alloc = rt.alloc();
    let ended = [TRUSTED, A, SHARE, "until = 5\n"];
    let domain = domain_text(alloc, (500_000, 0), 1_000_000, &ended)?;
    let object = object_of_green(alloc, (0, 0), "{\"kind\":\"outside\",\"packet\":1}")?;
    let wanted = (object.as_str(), "", 1);
    expect_audit_object(&rt, alloc, (domain.as_str(), "send a 1 100 10 5\n"), wanted)
}

#[test]
fn a_visit_of_no_packet(rt: HostRuntime) -> Result<(), Fail> {
    let domain = domain_text(rt.alloc(), (500_000, 0), 1_000_000, &ALONE)?;
    let done = run_audit(
        &rt,
        rt.alloc(),
        domain.as_str(),
        LEAST_OF_TRUSTED.as_bytes(),
        "visit 7 0\n",
    )?;
    assert!(rt; done.output.is_empty());
    assert_eq!(rt; done.told.as_slice(), b"dsedge: line 1\n".as_slice());
    assert_eq!(rt; done.status, 3);
    Ok(())
}

#[test]
fn an_audit_of_a_refused_table(rt: HostRuntime) -> Result<(), Fail> {
    let domain = domain_text(rt.alloc(), (500_000, 0), 1_000_000, &ALONE)?;
    let low = b"dscert 1\na 0 3000 3000\na 1 3999 4000\n";
    let done = run_audit(&rt, rt.alloc(), domain.as_str(), low, "visit 7 0\n")?;
    let told = b"refused 3 HopBound a 1 green 4000 3999\n";
    assert!(rt; done.output.is_empty());
    assert_eq!(rt; done.told.as_slice(), told.as_slice());
    assert_eq!(rt; done.status, 1);
    Ok(())
}
