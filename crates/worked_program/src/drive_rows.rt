use crate::rows::{Done, Wanted, expect_done, run};
use dsedge_texts::MemoryFolder;
use pcap_capture::{SliceIntake, VecOutlet};
use std::alloc::{AllocError, Global};
use std::process::Abort;
use std::sync::Wait;
use std::test::Fail;
use std::thread::Threads;
use worked_texts::{MOST_CONTRACTS, most_contracts, tight, wide};

/// `drive` on lines, over a domain.
fn run_drive(
    rt: &(impl Wait + Threads + Sync),
    alloc: Global,
    (words, domain): (&str, &str),
    intake: SliceIntake,
    output: VecOutlet,
) -> Result<Done, Fail> {
    let files = [("domain.toml", domain.as_bytes())];
    let folder = MemoryFolder { files: &files };
    run(rt, alloc, words, folder, intake, output)
}

/// The words of `drive`.
const WORDS: &str = "drive domain.toml";

/// Expects of `drive` on lines, over a domain, what it leaves behind.
pub(crate) fn expect_of_drive(
    rt: &(impl Abort + Wait + Threads + Sync),
    alloc: Global,
    asked: (&str, &str),
    wanted: Wanted<'_>,
) -> Result<(), Fail> {
    expect_of_words(rt, alloc, WORDS, asked, wanted)
}

/// Expects of words of `drive` on lines, over a domain, what they leave behind.
fn expect_of_words(
    rt: &(impl Abort + Wait + Threads + Sync),
    alloc: Global,
    words: &str,
    (domain, lines): (&str, &str),
    wanted: Wanted<'_>,
) -> Result<(), Fail> {
    let intake = SliceIntake::new(lines.as_bytes());
    let outlet = VecOutlet::new(Vec::new(alloc));
    let done = run_drive(rt, alloc, (words, domain), intake, outlet)?;
    expect_done(rt, (words, lines), &done, wanted);
    Ok(())
}

/// Expects of `drive`, over a domain, an answer to each line.
pub(crate) fn expect_answers(
    rt: &(impl Abort + Wait + Threads + Sync),
    alloc: Global,
    domain: &str,
    answered: &[(&str, &str)],
) -> Result<(), Fail> {
    expect_answers_to(rt, alloc, (WORDS, domain), answered)
}

/// Expects of words of `drive`, over a domain, an answer to each line.
pub(crate) fn expect_answers_to(
    rt: &(impl Abort + Wait + Threads + Sync),
    alloc: Global,
    (words, domain): (&str, &str),
    answered: &[(&str, &str)],
) -> Result<(), Fail> {
    let mut lines = String::new(alloc);
    let mut answers = String::new(alloc);
    for (line, answer) in answered {
        lines.push_str(line)?;
        lines.push('\n')?;
        answers.push_str(answer)?;
        answers.push('\n')?;
    }
    let wanted = (answers.as_str(), "", 0);
    expect_of_words(rt, alloc, words, (domain, lines.as_str()), wanted)
}

#[test]
fn a_contract_is_granted_once(rt: HostRuntime) -> Result<(), Fail> {
    let domain = wide(rt.alloc())?;
    let lines = "look\nreserve a\nlook\nreserve a\n";
    let output = "serial 0 contracts 0\ngranted 1 1 0\nserial 1 contracts 1\nrefused 1 Twice\n";
    expect_of_drive(&rt, rt.alloc(), (domain.as_str(), lines), (output, "", 0))
}

/// A contract that leaves no room for another is released, and its share given away once its hold has passed.
const SOLD_AGAIN: [(&str, &str); 14] = [
    ("list", "none"),
    ("reserve a", "granted 1 1 0"),
    ("release 1 1000000000", "released 1 2"),
    ("reserve b", "refused 5 GreenBurst m 9000 4500"),
    ("list", "1 a 0 1000000000"),
    ("release 1 5", "refused 5 AlreadyReleased"),
    ("release 9 5", "refused 4 UnknownId"),
    ("reserve zz", "refused 1 UnknownName"),
    ("retire 1 1005999999", "refused 9 HoldLeft 1"),
    ("retire 1 1006000000", "retired 1 3"),
    ("reserve b", "granted 2 4 1006000000"),
    ("list", "2 b 1006000000 -"),
    ("retire 1 0", "refused 4 UnknownId"),
    ("retire 2 0", "refused 8 NotReleased"),
];

#[test]
fn a_share_is_sold_again_once_its_hold_has_passed(rt: HostRuntime) -> Result<(), Fail> {
    let domain = tight(rt.alloc())?;
    expect_answers(&rt, rt.alloc(), domain.as_str(), &SOLD_AGAIN)
}

/// The lines of examples/tight_commands.txt, and examples/json/drive.json.
const SOLD_IN_JSON: [(&str, &str); 9] = [
    (
        "reserve a",
        "{\"answer\":\"granted\",\"id\":1,\"serial\":1,\"since\":0}",
    ),
    (
        "release 1 1000000000",
        "{\"answer\":\"released\",\"id\":1,\"serial\":2}",
    ),
    (
        "reserve b",
        "{\"answer\":\"refused\",\"available\":4500,\"code\":5,\"kind\":\"GreenBurst\",\"meter\":\"m\",\"needed\":9000}",
    ),
    (
        "list",
        "{\"answer\":\"list\",\"contracts\":[{\"id\":1,\"name\":\"a\",\"since\":0,\"until\":1000000000}]}",
    ),
    (
        "retire 1 1005999999",
        "{\"answer\":\"refused\",\"code\":9,\"kind\":\"HoldLeft\",\"left\":1}",
    ),
    (
        "retire 1 1006000000",
        "{\"answer\":\"retired\",\"id\":1,\"serial\":3}",
    ),
    (
        "reserve b",
        "{\"answer\":\"granted\",\"id\":2,\"serial\":4,\"since\":1006000000}",
    ),
    (
        "list",
        "{\"answer\":\"list\",\"contracts\":[{\"id\":2,\"name\":\"b\",\"since\":1006000000,\"until\":null}]}",
    ),
    ("look", "{\"answer\":\"look\",\"contracts\":1,\"serial\":4}"),
];

#[test]
fn a_share_is_sold_by_objects(rt: HostRuntime) -> Result<(), Fail> {
    let domain = tight(rt.alloc())?;
    let words = "drive --json domain.toml";
    expect_answers_to(&rt, rt.alloc(), (words, domain.as_str()), &SOLD_IN_JSON)
}

#[test]
fn faults_of_drive_as_objects(rt: HostRuntime) -> Result<(), Fail> {
    let words = "drive --json domain.toml";
    for (domain, lines, wanted) in [
        (
            "version = 4",
            "look\n",
            (
                "",
                "{\"code\":3,\"fault\":\"domain\",\"field\":\"version\",\"index\":0,\"kind\":\"Range\",\"section\":\"top\"}\n",
                3,
            ),
        ),
        (
            "",
            "list\nbook\n",
            (
                "{\"answer\":\"list\",\"contracts\":[]}\n",
                "{\"fault\":\"line\",\"line\":2}\n",
                3,
            ),
        ),
    ] {
        expect_of_words(&rt, rt.alloc(), words, (domain, lines), wanted)?;
    }
    Ok(())
}

/// Lines that ask for nothing, the empty one first.
const NO_REQUESTS: &str =
    "\nlist\x20\nlook 1\nreserve\nreserve a b\nreserve  a\nreserve a\r\nrelease 1\nrelease 1 5 6\nrelease x 5\n\
    release 1 9223372036854775808\nretire 18446744073709551616 5\nretire -1 5\nLook\nbook";

#[test]
fn a_line_that_asks_for_nothing(rt: HostRuntime) -> Result<(), Fail> {
    let domain = wide(rt.alloc())?;
    for line in NO_REQUESTS.split('\n') {
        let lines = format!(in rt.alloc(); "reserve a\n{line}\nlook\n")?;
        let answer = ("granted 1 1 0\n", "dsedge: line 2\n", 3);
        expect_of_drive(&rt, rt.alloc(), (domain.as_str(), lines.as_str()), answer)?;
    }
    Ok(())
}

#[test]
fn ids_and_names_that_are_not_held(rt: HostRuntime) -> Result<(), Fail> {
    let domain = wide(rt.alloc())?;
    for (line, answer) in [
        ("release 0 5", "refused 4 UnknownId\n"),
        ("release 4294967297 5", "refused 4 UnknownId\n"),
        ("retire 18446744073709551615 5", "refused 4 UnknownId\n"),
        ("reserve A!", "refused 1 UnknownName\n"),
    ] {
        let lines = format!(in rt.alloc(); "reserve a\n{line}\nlook")?;
        let output = format!(in rt.alloc(); "granted 1 1 0\n{answer}serial 1 contracts 1\n")?;
        let all = (domain.as_str(), lines.as_str());
        expect_of_drive(&rt, rt.alloc(), all, (output.as_str(), "", 0))?;
    }
    Ok(())
}

#[test]
fn a_domain_with_a_fault_sells_nothing(rt: HostRuntime) -> Result<(), Fail> {
    let told = "dsedge: domain 3 Range top 0 version\n";
    expect_of_drive(&rt, rt.alloc(), ("version = 4", "look\n"), ("", told, 3))
}

#[test]
fn answers_before_a_read_that_fails(rt: HostRuntime) -> Result<(), Fail> {
    let domain = wide(rt.alloc())?;
    let intake = SliceIntake {
        most: 10,
        fails_at: Some(3),
        ..SliceIntake::new(b"reserve a\nreserve b\nlook\n")
    };
    let outlet = VecOutlet::new(Vec::new(rt.alloc()));
    let done = run_drive(&rt, rt.alloc(), (WORDS, domain.as_str()), intake, outlet)?;
    let wanted = ("granted 1 1 0\ngranted 2 2 0\n", "dsedge: read\n", 4);
    expect_done(&rt, ("drive", "three lines"), &done, wanted);
    Ok(())
}

/// Appends the line that reserves the contract of a number, and its answer where all before it are held.
fn push_sale(lines: &mut String, answers: &mut String, number: u32) -> Result<(), AllocError> {
    writeln!(lines, "reserve c{number}")?;
    writeln!(answers, "granted {number} {number} 0")
}

/// Lines that reserve as many contracts as a table takes, with a look behind, and their answers.
fn most_sales(lines: &mut String, answers: &mut String) -> Result<(), AllocError> {
    for number in 1..=MOST_CONTRACTS {
        push_sale(lines, answers, number)?;
    }
    lines.push_str("look\n")?;
    answers.push_str("serial 4096 contracts 4096\n")
}

/// A feed sees a table however long it is: `look` is answered behind as many contracts as there can be.
#[test]
fn a_table_is_seen_however_long_it_is(rt: HostRuntime) -> Result<(), Fail> {
    let domain = most_contracts(rt.alloc())?;
    let mut lines = String::new(rt.alloc());
    let mut answers = String::new(rt.alloc());
    most_sales(&mut lines, &mut answers)?;
    let asked = (domain.as_str(), lines.as_str());
    expect_of_drive(&rt, rt.alloc(), asked, (answers.as_str(), "", 0))
}
