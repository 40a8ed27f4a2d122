use ds_ledger_base::Shelf;
use dsedge_serve::{Advice, start};
use dsedge_texts::{Folder, MemoryFolder};
use pcap_capture::{MOST_CALLS, SliceIntake, VecOutlet};
use std::alloc::{AllocError, Global};
use std::process::Abort;
use std::sync::Wait;
use std::test::Fail;
use std::thread::Threads;
use worked_texts::{
    A, B, C, EXCESS, EXCESS_WAY, LEAST_OF_POLICED, LEAST_OF_TRUSTED, LINK, PEAK, POLICED, PORT,
    SHARE, TRUSTED, TWO, TWO_RATES, U, UDP, joined, push_all,
};

/// What the program left behind.
#[derive(Drop)]
pub(crate) struct Done {
    pub output: Vec<u8>,
    pub told: Vec<u8>,
    pub writes: u64,
    pub status: u8,
    pub advice: Option<Advice>,
}

/// No files.
const NO_FILES: MemoryFolder<'static> = MemoryFolder { files: &[] };

/// The program on words that stand one space apart, with its files, its input and its output.
pub(crate) fn run<D: Folder + Shelf + Drop>(
    rt: &(impl Wait + Threads + Sync),
    alloc: Global,
    words: &str,
    files: D,
    mut intake: SliceIntake,
    mut output: VecOutlet,
) -> Result<Done, Fail> {
    let mut given = Vec::new(alloc);
    for word in words.split(' ') {
        given.push(String::from_str(alloc, word)?)?;
    }
    let mut faults = VecOutlet::new(Vec::new(alloc));
    let ended = start(
        alloc,
        rt,
        given.as_slice(),
        false,
        &files,
        &mut intake,
        &mut output,
        &mut faults,
    );
    Ok(Done {
        output: output.bytes,
        told: faults.bytes,
        writes: faults.turns,
        status: ended.status,
        advice: ended.advice,
    })
}

/// What is wanted of the program: an output, what is told, and a status.
pub(crate) type Wanted<'a> = (&'a str, &'a str, u8);

/// Expects of the program, by what it was asked, what it left behind.
pub(crate) fn expect_done(
    rt: &impl Abort,
    asked: (&str, &str),
    done: &Done,
    (output, told, status): Wanted<'_>,
) {
    assert_eq!(rt; (asked, done.output.as_slice()), (asked, output.as_bytes()));
    assert_eq!(rt; (asked, done.told.as_slice()), (asked, told.as_bytes()));
    assert_eq!(rt; (asked, done.status), (asked, status));
}

/// The program on words and an input, without files.
fn run_bare(
    rt: &(impl Wait + Threads + Sync),
    alloc: Global,
    words: &str,
    intake: SliceIntake,
) -> Result<Done, Fail> {
    let output = VecOutlet::new(Vec::new(alloc));
    run(rt, alloc, words, NO_FILES, intake, output)
}

/// Expects of the program on words and an input what it leaves behind.
fn expect(
    rt: &(impl Abort + Wait + Threads + Sync),
    alloc: Global,
    (words, input): (&str, &str),
    wanted: Wanted<'_>,
) -> Result<(), Fail> {
    let done = run_bare(rt, alloc, words, SliceIntake::new(input.as_bytes()))?;
    expect_done(rt, (words, input), &done, wanted);
    Ok(())
}

/// A blind meter of two rates.
const BLIND: &str = "meter --kind trtcm --mode blind --cir 8000 --cbs 1500 --pir 16000 --pbs 3000";

#[test]
fn colours_and_accounts(rt: HostRuntime) -> Result<(), Fail> {
    let aware = "meter --kind trtcm --mode aware --cir 8000 --cbs 1000 --pir 16000 --pbs 2000";
    for (words, input, output) in [
        (BLIND, "", "green 0 0\nyellow 0 0\nred 0 0\n"),
        (
            BLIND,
            "00 01500 g",
            "green\ngreen 1 1500\nyellow 0 0\nred 0 0\n",
        ),
        (
            aware,
            "0 500 y\n0 100 r\n0 1000 g\n0 500 g\n0 1 g\n1000000 2 g\n0 1 g\n",
            "yellow\nred\ngreen\nyellow\nred\nyellow\nred\ngreen 1 1000\nyellow 3 1002\nred 3 102\n",
        ),
        // Half of a token that has flowed in is not told.
        (
            "meter --kind rfc4115 --mode aware --cir 8 --cbs 1500 --eir 16 --ebs 3000 --levels",
            "0 1500 g\n0 1000 g\n500000000 1 r\n500000000 2 y\n",
            "green 0 3000\nyellow 0 2000\nred 0 2001\nyellow 0 1999\n\
            green 1 1500\nyellow 2 1002\nred 1 1\n",
        ),
        (
            "meter --kind rfc4115 --mode aware --cir 8 --cbs 1500 --eir 16 --ebs 3000 --json --levels",
            "0 1500 g\n0 1000 g\n500000000 1 r\n500000000 2 y\n",
            "green 0 3000\nyellow 0 2000\nred 0 2001\nyellow 0 1999\n\
            {\"answer\":\"accounts\",\"green\":{\"bytes\":1500,\"packets\":1},\
            \"red\":{\"bytes\":1,\"packets\":1},\"yellow\":{\"bytes\":1002,\"packets\":2}}\n",
        ),
    ] {
        expect(&rt, rt.alloc(), (words, input), (output, "", 0))?;
    }
    Ok(())
}

/// Arrivals of a byte, one more than a book has room for.
fn many_arrivals(rt: &impl Abort, alloc: Global) -> String {
    let mut text = String::new(alloc);
    for _ in 0..1_048_577 {
        text.push_str("0 1 g\n").expect(rt, "room for a line");
    }
    text
}

#[test]
fn a_meter_keeps_no_row_and_has_no_end(rt: HostRuntime) -> Result<(), Fail> {
    let text = many_arrivals(&rt, rt.alloc());
    let done = run_bare(&rt, rt.alloc(), BLIND, SliceIntake::new(text.as_bytes()))?;
    let accounts = b"red\ngreen 1500 1500\nyellow 1500 1500\nred 1045577 1045577\n";
    assert!(rt; done.output.ends_with(accounts));
    assert_eq!(rt; done.status, 0);
    Ok(())
}

/// Lines that are no arrival, the empty one first.
const NO_ARRIVALS: &str =
    "\n0 0 g\n0 1 g\r\n0  1 g\n\x200 1 g\n0 1 g\x20\n0 1\n0 1 g 2\n0 1 b\n0 1 green\n\
    0 65536 g\n9223372036854775808 1 g\n000000000000000000000 1 g\n-1 1 g\n+1 1 g\nx 1 g";

fn expect_no_arrival(
    rt: &(impl Abort + Wait + Threads + Sync),
    alloc: Global,
    line: &str,
) -> Result<(), Fail> {
    let first = format!(in alloc; "{line}\n0 1 g\n")?;
    let none = ("", "dsedge: line 1\n", 3);
    expect(rt, alloc, (BLIND, first.as_str()), none)?;
    let second = format!(in alloc; "0 1 g\n{line}\n")?;
    let one = ("green\n", "dsedge: line 2\n", 3);
    expect(rt, alloc, (BLIND, second.as_str()), one)
}

#[test]
fn lines_that_are_no_arrival(rt: HostRuntime) -> Result<(), Fail> {
    for line in NO_ARRIVALS.split('\n') {
        expect_no_arrival(&rt, rt.alloc(), line)?;
    }
    Ok(())
}

#[test]
fn envelopes_kept_and_left(rt: HostRuntime) -> Result<(), Fail> {
    for (words, input, output, status) in [
        ("envelope --rate 1 --burst 0", "", "kept\n", 0),
        (
            "envelope --rate 8000000000 --burst 10",
            "0 10\n5 5\n6 2\n",
            "over 3\n",
            1,
        ),
        (
            "envelope --rate 1 --burst 1",
            "0 1\n7999999999 1\n",
            "over 2\n",
            1,
        ),
        (
            "envelope --rate 1 --burst 1",
            "0 1\n8000000000 1",
            "kept\n",
            0,
        ),
        (
            "envelope --rate 800000000 --burst 21",
            "9 20\n10 1\n",
            "kept\n",
            0,
        ),
        (
            "envelope --rate 800000000 --burst 20",
            "9 20\n10 1\n",
            "over 2\n",
            1,
        ),
        ("envelope --rate 1 --burst 1", "0 2\n0 2\n", "over 1\n", 1),
        (
            "envelope --json --rate 8000000000 --burst 10",
            "0 10\n5 5\n6 2\n",
            "{\"answer\":\"over\",\"line\":3}\n",
            1,
        ),
        (
            "envelope --rate 1 --burst 0 --json",
            "",
            "{\"answer\":\"kept\"}\n",
            0,
        ),
    ] {
        expect(&rt, rt.alloc(), (words, input), (output, "", status))?;
    }
    Ok(())
}

/// Lines that are no sized moment behind one of moment 5, the empty one first.
const NO_SIZED_MOMENTS: &str = "\n4 1\n5 0\n5 1\r\n5  1\n5\n5 1 g\n5 65536\n9223372036854775808 1";

#[test]
fn lines_that_are_no_sized_moment(rt: HostRuntime) -> Result<(), Fail> {
    for line in NO_SIZED_MOMENTS.split('\n') {
        let input = format!(in rt.alloc(); "5 1\n{line}\n")?;
        let words = "envelope --rate 1 --burst 10";
        expect(
            &rt,
            rt.alloc(),
            (words, input.as_str()),
            ("", "dsedge: line 2\n", 3),
        )?;
    }
    Ok(())
}

#[test]
fn words_that_are_refused(rt: HostRuntime) -> Result<(), Fail> {
    for words in [
        "meter --kind trtcm --mode aware --cir 8000 --cbs 1000 --pir 7000 --pbs 2000",
        "meter --kind trtcm --mode aware --cir 8000 --cbs 0 --pir 16000 --pbs 2000",
        "envelope --rate 0 --burst 1",
    ] {
        expect(
            &rt,
            rt.alloc(),
            (words, "0 1\n"),
            ("", "dsedge: usage\n", 2),
        )?;
    }
    Ok(())
}

#[test]
fn words_on_the_first_line(rt: HostRuntime) -> Result<(), Fail> {
    let alloc = rt.alloc();
    let mut intake = SliceIntake::new(b"envelope --rate 1 --burst 1\n0 1\n7999999999 1\n");
    let mut output = VecOutlet::new(Vec::new(alloc));
    let mut faults = VecOutlet::new(Vec::new(alloc));
    let ended = start(
        alloc,
        &rt,
        &[],
        false,
        &NO_FILES,
        &mut intake,
        &mut output,
        &mut faults,
    );
    assert_eq!(rt; ended.status, 1);
    assert_eq!(rt; output.bytes.as_slice(), b"over 2\n".as_slice());
    assert!(rt; faults.bytes.is_empty());
    Ok(())
}

/// Expects of three arrivals that a device gives two of, that these are answered, and that the fault is told.
fn expect_two_read(
    rt: &(impl Abort + Wait + Threads + Sync),
    alloc: Global,
    (fails_at, calls): (Option<u64>, u64),
) -> Result<(), Fail> {
    let intake = SliceIntake {
        most: 9,
        fails_at,
        calls,
        ..SliceIntake::new(b"0 1500 g\n0 1500 g\n0 1500 g\n")
    };
    let done = run_bare(rt, alloc, BLIND, intake)?;
    let wanted = ("green\nyellow\n", "dsedge: read\n", 4);
    expect_done(rt, (BLIND, "three arrivals"), &done, wanted);
    Ok(())
}

#[test]
fn a_read_that_fails(rt: HostRuntime) -> Result<(), Fail> {
    expect_two_read(&rt, rt.alloc(), (Some(3), MOST_CALLS))
}

#[test]
fn an_input_that_is_spent(rt: HostRuntime) -> Result<(), Fail> {
    expect_two_read(&rt, rt.alloc(), (None, 2))
}

#[test]
fn a_write_that_fails(rt: HostRuntime) -> Result<(), Fail> {
    for (words, input, front) in [
        (BLIND, "0 1500 g\n", "gr"),
        ("envelope --rate 1 --burst 1", "0 1\n", "ke"),
    ] {
        let output = VecOutlet {
            most: 2,
            fails_at: Some(2),
            ..VecOutlet::new(Vec::new(rt.alloc()))
        };
        let intake = SliceIntake::new(input.as_bytes());
        let done = run(&rt, rt.alloc(), words, NO_FILES, intake, output)?;
        expect_done(&rt, (words, input), &done, (front, "dsedge: write\n", 4));
    }
    Ok(())
}

/// A contract that is trusted.
pub(crate) const ALONE: [&str; 3] = [TRUSTED, A, SHARE];

/// A contract that is policed by a meter of two rates.
pub(crate) const AT_EDGE: [&str; 4] = [POLICED, U, TWO_RATES, UDP];

/// The text of a domain of one meter with a skew, behind a port with a skew and a link with a jitter, and of one
/// contract.
pub(crate) fn domain_text(
    alloc: Global,
    (meter_skew, port_skew): (u64, u64),
    jitter: u64,
    contract: &[&str],
) -> Result<String, AllocError> {
    let mut text = format!(in alloc;
        r#"
meter = [
    {{ name = "m", kind = "trtcm", cir = 24000000, cbs = 13500, pir = 24000000, pbs = 13500, skew = {meter_skew} }},
]
port = [{{ name = "p", skew = {port_skew} }}]
link = [{{ from = "p", to = "m", floor = 0, jitter = {jitter} }}]
"#
    )?;
    push_all(&mut text, contract)?;
    Ok(text)
}

/// The program on words, with one file `domain.toml`.
pub(crate) fn run_on_domain(
    rt: &(impl Wait + Threads + Sync),
    alloc: Global,
    words: &str,
    domain: &str,
) -> Result<Done, Fail> {
    let files = [("domain.toml", domain.as_bytes())];
    let folder = MemoryFolder { files: &files };
    let output = VecOutlet::new(Vec::new(alloc));
    run(rt, alloc, words, folder, SliceIntake::new(b""), output)
}

/// Expects of the program on words, with that file, what it leaves behind.
pub(crate) fn expect_on_domain(
    rt: &(impl Abort + Wait + Threads + Sync),
    alloc: Global,
    (words, domain): (&str, &str),
    wanted: Wanted<'_>,
) -> Result<(), Fail> {
    let done = run_on_domain(rt, alloc, words, domain)?;
    expect_done(rt, (words, domain), &done, wanted);
    Ok(())
}

#[test]
fn least_certificates(rt: HostRuntime) -> Result<(), Fail> {
    let trusted: &[&str] = &ALONE;
    let policed: &[&str] = &AT_EDGE;
    for (skew, jitter, contract, certificate) in [
        (0, 1_000_000, trusted, LEAST_OF_TRUSTED),
        (0, 1, trusted, "dscert 1\na 0 3000 3000\na 1 3001 3001\n"),
        (0, 1_000_000, policed, LEAST_OF_POLICED),
        (
            1_000,
            1_000_000,
            policed,
            "dscert 1\nu 0 1502 3003\nu 1 2502 5003\n",
        ),
    ] {
        let domain = domain_text(rt.alloc(), (500_000, skew), jitter, contract)?;
        let asked = ("certify domain.toml", domain.as_str());
        expect_on_domain(&rt, rt.alloc(), asked, (certificate, "", 0))?;
    }
    Ok(())
}

/// The object of the bounds of a policed contract.
const OBJECT_OF_POLICED: &str = "{\"answer\":\"certificate\",\"bounds\":[\
    {\"all\":3003,\"contract\":\"u\",\"excess\":3003,\"green\":1502,\"hop\":0},\
    {\"all\":5003,\"contract\":\"u\",\"excess\":5003,\"green\":2502,\"hop\":1}],\"version\":1}\n";

/// The object of the bounds of a trusted contract with an excess of its own.
const OBJECT_WITH_EXCESS: &str = "{\"answer\":\"certificate\",\"bounds\":[\
    {\"all\":4000,\"contract\":\"a\",\"excess\":1000,\"green\":3000,\"hop\":0},\
    {\"all\":6000,\"contract\":\"a\",\"excess\":2000,\"green\":4000,\"hop\":1}],\"version\":2}\n";

#[test]
fn least_certificates_as_objects(rt: HostRuntime) -> Result<(), Fail> {
    let alloc = rt.alloc();
    let none = "{\"answer\":\"certificate\",\"bounds\":[],\"version\":1}\n";
    expect_on_domain(
        &rt,
        alloc,
        ("certify --json domain.toml", ""),
        (none, "", 0),
    )?;
    let domain = domain_text(alloc, (500_000, 1_000), 1_000_000, &AT_EDGE)?;
    let asked = ("certify domain.toml --json", domain.as_str());
    expect_on_domain(&rt, alloc, asked, (OBJECT_OF_POLICED, "", 0))?;
    let domain = joined(alloc, &[TWO, EXCESS_WAY, TRUSTED, A, SHARE, PEAK, EXCESS])?;
    let asked = ("certify --json domain.toml", domain.as_str());
    expect_on_domain(&rt, alloc, asked, (OBJECT_WITH_EXCESS, "", 0))
}

#[test]
fn faults_of_domains_and_words_as_objects(rt: HostRuntime) -> Result<(), Fail> {
    for (words, domain, wanted) in [
        (
            "certify --json domain.toml",
            "[",
            (
                "",
                "{\"code\":1,\"fault\":\"domain\",\"field\":null,\"index\":0,\"kind\":\"Text\",\"section\":\"text\"}\n",
                3,
            ),
        ),
        (
            "certify --json other.toml",
            "",
            (
                "",
                "{\"fault\":\"file\",\"name\":\"other.toml\",\"reason\":\"Absent\"}\n",
                4,
            ),
        ),
        (
            "quote --json domain.toml --contract c --count",
            "",
            ("", "{\"fault\":\"contract\",\"name\":\"c\"}\n", 3),
        ),
        ("certify --json", "", ("", "{\"fault\":\"usage\"}\n", 2)),
    ] {
        expect_on_domain(&rt, rt.alloc(), (words, domain), wanted)?;
    }
    Ok(())
}

#[test]
fn faults_of_domains_and_files(rt: HostRuntime) -> Result<(), Fail> {
    for (words, domain, wanted) in [
        ("certify domain.toml", "", ("dscert 1\n", "", 0)),
        (
            "certify domain.toml",
            "version = 4",
            ("", "dsedge: domain 3 Range top 0 version\n", 3),
        ),
        (
            "certify domain.toml",
            "[",
            ("", "dsedge: domain 1 Text text 0 -\n", 3),
        ),
        (
            "certify other.toml",
            "[",
            ("", "dsedge: file other.toml\n", 4),
        ),
        ("certify other.toml [", "[", ("", "dsedge: usage\n", 2)),
    ] {
        expect_on_domain(&rt, rt.alloc(), (words, domain), wanted)?;
    }
    Ok(())
}

/// The text of a domain of a meter `m` of two rates, and of three contracts of 8 Mbit/s and 3,000 bytes.
fn three_contracts(alloc: Global, rate: u64, burst: u64) -> Result<String, AllocError> {
    let mut text = format!(in alloc;
        r#"
meter = [{{ name = "m", kind = "trtcm", cir = {rate}, cbs = {burst}, pir = 24000000, pbs = 13500, skew = 500000 }}]
"#
    )?;
    let contracts = [TRUSTED, A, SHARE, TRUSTED, B, SHARE, TRUSTED, C, SHARE];
    push_all(&mut text, &[PORT, LINK])?;
    push_all(&mut text, &contracts)?;
    Ok(text)
}

/// The least certificate of three such contracts, but for its last line.
const ALL_BUT_THE_LAST: &str =
    "dscert 1\na 0 3000 3000\na 1 4000 4000\nb 0 3000 3000\nb 1 4000 4000\nc 0 3000 3000\n";

/// The least certificate of three such contracts.
const LEAST_OF_THREE: &str =
    "dscert 1\na 0 3000 3000\na 1 4000 4000\nb 0 3000 3000\nb 1 4000 4000\nc 0 3000 3000\nc 1 4000 4000";

/// Expects of `check` on a domain and a certificate what it leaves behind.
pub(crate) fn expect_of_check(
    rt: &(impl Abort + Wait + Threads + Sync),
    alloc: Global,
    (domain, certificate): (&str, &str),
    wanted: Wanted<'_>,
) -> Result<(), Fail> {
    let words = "check domain.toml domain.cert";
    let done = run_on_table(rt, alloc, words, domain, certificate.as_bytes(), b"")?;
    expect_done(rt, (words, certificate), &done, wanted);
    Ok(())
}

/// Expects of `check --json` on a domain and a certificate what it leaves behind.
fn expect_object(
    rt: &(impl Abort + Wait + Threads + Sync),
    alloc: Global,
    (domain, certificate): (&str, &str),
    wanted: Wanted<'_>,
) -> Result<(), Fail> {
    let words = "check --json domain.toml domain.cert";
    let done = run_on_table(rt, alloc, words, domain, certificate.as_bytes(), b"")?;
    expect_done(rt, (words, certificate), &done, wanted);
    Ok(())
}

// The objects of examples/json, and others with their lines beside them above and below.
#[test]
fn checks_are_answered_with_objects(rt: HostRuntime) -> Result<(), Fail> {
    let alloc = rt.alloc();
    let full = three_contracts(alloc, 24_000_000, 13_500)?;
    let accepted = ("{\"answer\":\"accepted\"}\n", "", 0);
    expect_object(&rt, alloc, (full.as_str(), LEAST_OF_THREE), accepted)?;
    let short = "{\"code\":2,\"fault\":\"certificate\",\"kind\":\"Shape\",\"line\":7}\n";
    expect_object(
        &rt,
        alloc,
        (full.as_str(), ALL_BUT_THE_LAST),
        ("", short, 3),
    )?;
    let tight = three_contracts(alloc, 24_000_000, 13_499)?;
    let burst =
        "{\"answer\":\"refused\",\"available\":13499,\"code\":5,\"kind\":\"GreenBurst\",\"meter\":\"m\",\
        \"needed\":13500}\n";
    expect_object(&rt, alloc, (tight.as_str(), LEAST_OF_THREE), (burst, "", 1))?;
    let plain = single_rate(alloc, "")?;
    let low = "dscert 1\na 0 499 500\na 1 500 500\n";
    let first =
        "{\"answer\":\"refused\",\"code\":2,\"column\":\"green\",\"contract\":\"a\",\"given\":499,\
        \"kind\":\"FirstBound\",\"needed\":500}\n";
    expect_object(&rt, alloc, (plain.as_str(), low), (first, "", 1))?;
    let low = "dscert 1\na 0 500 500\na 1 499 500\n";
    let hop =
        "{\"answer\":\"refused\",\"code\":3,\"column\":\"green\",\"contract\":\"a\",\"given\":499,\"hop\":1,\
        \"kind\":\"HopBound\",\"needed\":500}\n";
    expect_object(&rt, alloc, (plain.as_str(), low), (hop, "", 1))
}

#[test]
fn three_contracts_fill_a_meter(rt: HostRuntime) -> Result<(), Fail> {
    let alloc = rt.alloc();
    let full = three_contracts(alloc, 24_000_000, 13_500)?;
    let domain = full.as_str();
    let accepted = ("accepted\n", "", 0);
    expect_of_check(&rt, alloc, (domain, LEAST_OF_THREE), accepted)?;
    let short = ("", "dsedge: certificate 2 Shape\n", 3);
    expect_of_check(&rt, alloc, (domain, ALL_BUT_THE_LAST), short)?;
    let tight = three_contracts(alloc, 24_000_000, 13_499)?;
    let burst = ("refused 5 GreenBurst m 13500 13499\n", "", 1);
    expect_of_check(&rt, alloc, (tight.as_str(), LEAST_OF_THREE), burst)?;
    let slow = three_contracts(alloc, 23_999_999, 13_500)?;
    let rate = ("refused 4 GreenRate m 24000000 23999999\n", "", 1);
    expect_of_check(&rt, alloc, (slow.as_str(), LEAST_OF_THREE), rate)
}

#[test]
fn bounds_that_are_too_low(rt: HostRuntime) -> Result<(), Fail> {
    let alloc = rt.alloc();
    let alone = domain_text(alloc, (500_000, 0), 1_000_000, &ALONE)?;
    for (certificate, output) in [
        (
            "dscert 1\na 0 3000 3000\na 1 3999 4000\n",
            "refused 3 HopBound a 1 green 4000 3999\n",
        ),
        (
            "dscert 1\na 0 3000 2999\na 1 4000 4000\n",
            "refused 2 FirstBound a all 3000 2999\n",
        ),
    ] {
        expect_of_check(&rt, alloc, (alone.as_str(), certificate), (output, "", 1))?;
    }
    Ok(())
}

/// A meter of a single rate of 8,000 bit/s, with 500 bytes and 1,000 more, and a link to it without jitter.
const SINGLE_RATE: &str = r#"
meter = [{ name = "m", kind = "srtcm", cir = 8000, cbs = 500, ebs = 1000, skew = 0 }]
port = [{ name = "p", skew = 0 }]
link = [{ from = "p", to = "m", floor = 0, jitter = 0 }]
"#;

/// A domain of that meter, and a contract that may have a peak.
fn single_rate(alloc: Global, peak: &str) -> Result<String, AllocError> {
    let envelope = "cir = 8000\ncbs = 500\n";
    joined(alloc, &[SINGLE_RATE, TRUSTED, A, envelope, peak])
}

#[test]
fn a_peak_is_held_against_the_excess_bucket(rt: HostRuntime) -> Result<(), Fail> {
    let alloc = rt.alloc();
    let peaked = single_rate(alloc, "pir = 8000\npbs = 1001")?;
    let certificate = "dscert 1\na 0 500 1001\na 1 500 1001\n";
    let refused = ("refused 7 AllBurst m 1001 1000\n", "", 1);
    expect_of_check(&rt, alloc, (peaked.as_str(), certificate), refused)?;
    let plain = single_rate(alloc, "")?;
    let least = "dscert 1\na 0 500 500\na 1 500 500\n";
    expect_of_check(&rt, alloc, (plain.as_str(), least), ("accepted\n", "", 0))
}

#[test]
fn faults_of_tables(rt: HostRuntime) -> Result<(), Fail> {
    for (domain, certificate, answer) in [
        ("", "dscert 1\n", ("accepted\n", "", 0)),
        ("", "dscert 01\n", ("", "dsedge: certificate 1 Text\n", 3)),
        (
            "version = 4",
            "dscert 01\n",
            ("", "dsedge: domain 3 Range top 0 version\n", 3),
        ),
    ] {
        expect_of_check(&rt, rt.alloc(), (domain, certificate), answer)?;
    }
    let done = run_on_domain(&rt, rt.alloc(), "check domain.toml domain.cert", "[")?;
    let told = b"dsedge: file domain.cert\n";
    assert_eq!(rt; done.told.as_slice(), told.as_slice());
    assert_eq!(rt; done.status, 4);
    Ok(())
}

/// The program on words, with a domain and a certificate in files `domain.toml` and `domain.cert`, and an input.
pub(crate) fn run_on_table(
    rt: &(impl Wait + Threads + Sync),
    alloc: Global,
    words: &str,
    domain: &str,
    certificate: &[u8],
    input: &[u8],
) -> Result<Done, Fail> {
    let files = [
        ("domain.toml", domain.as_bytes()),
        ("domain.cert", certificate),
    ];
    let folder = MemoryFolder { files: &files };
    let intake = SliceIntake::new(input);
    let output = VecOutlet::new(Vec::new(alloc));
    run(rt, alloc, words, folder, intake, output)
}
