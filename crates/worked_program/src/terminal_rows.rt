use crate::rows::{ALONE, domain_text};
use dsedge_serve::{AtTerminal, run};
use dsedge_texts::MemoryFolder;
use pcap_capture::{SliceIntake, VecOutlet};
use std::alloc::Global;
use std::io::{Error, ErrorKind, IsTerminal};
use std::process::Abort;
use std::sync::Wait;
use std::test::Fail;
use std::thread::Threads;
use worked_texts::LEAST_OF_TRUSTED;

/// What faults are written to, which is a terminal, or a pipe.
#[derive(Drop)]
struct Faults {
    at_terminal: bool,
}

impl IsTerminal for Faults {
    fn is_terminal(&self) -> bool {
        self.at_terminal
    }
}

/// What the program left behind.
#[derive(Drop)]
pub(crate) struct Left {
    pub output: Vec<u8>,
    pub told: Vec<u8>,
    pub status: u8,
}

/// The program on a command line, whose words stand one space apart, with files and an input, where faults are read at a
/// terminal, or not.
pub(crate) fn run_with(
    rt: &(impl Abort + Wait + Threads + Sync),
    alloc: Global,
    (line, at_terminal): (&str, bool),
    files: &[(&str, &[u8])],
    input: &[u8],
) -> Left {
    let mut words = Vec::new(alloc);
    for word in line.split(' ') {
        let word = String::from_str(alloc, word).expect(rt, "a word");
        words.push(word).expect(rt, "words");
    }
    let mut output = VecOutlet::new(Vec::new(alloc));
    let mut faults = VecOutlet::new(Vec::new(alloc));
    let status = run(
        alloc,
        rt,
        Ok(words),
        AtTerminal::of(&Faults { at_terminal }),
        &MemoryFolder { files },
        &mut SliceIntake::new(input),
        &mut output,
        &mut faults,
    );
    Left {
        output: output.bytes,
        told: faults.bytes,
        status,
    }
}

/// The same with the files of a trusted contract's domain.
fn run_line(
    rt: &(impl Abort + Wait + Threads + Sync),
    alloc: Global,
    line: &str,
    at_terminal: bool,
    input: &[u8],
) -> Left {
    let domain = domain_text(alloc, (500_000, 0), 1_000_000, &ALONE).expect(rt, "a domain");
    let files = [
        ("domain.toml", domain.as_bytes()),
        ("domain.cert", LEAST_OF_TRUSTED.as_bytes()),
        ("bad.cert", b"dscert 4\n".as_slice()),
    ];
    run_with(rt, alloc, (line, at_terminal), &files, input)
}

/// Expects of the program on a command line an output and a status, what is told in a pipe, and what stands behind that
/// at a terminal.
fn expect_line(
    rt: &(impl Abort + Wait + Threads + Sync),
    alloc: Global,
    (line, input): (&str, &[u8]),
    (output, status): (&[u8], u8),
    (told, behind): (&str, &str),
) {
    let piped = run_line(rt, alloc, line, false, input);
    assert!(rt; piped.output.as_slice() == output);
    assert!(rt; piped.status == status);
    assert!(rt; piped.told.as_slice() == told.as_bytes());
    let shown = run_line(rt, alloc, line, true, input);
    assert!(rt; shown.output.as_slice() == output);
    assert!(rt; shown.status == status);
    assert!(rt; shown.told.as_slice().starts_with(told.as_bytes()));
    assert!(rt; shown.told.as_slice().ends_with(behind.as_bytes()));
    assert!(rt; shown.told.len() == told.len() + behind.len());
}

/// The heading of a capture of link type 7: low bytes first, microseconds.
static OTHER_LINK: [u8; 24] = [
    0xd4, 0xc3, 0xb2, 0xa1, 0x02, 0x00, 0x04, 0x00, 0x00, 0x00, 0x00, 0x00, 0x00, 0x00, 0x00, 0x00,
    0xff, 0xff, 0x00, 0x00, 0x07, 0x00, 0x00, 0x00,
];

/// A heading of Ethernet, and the heading of a record of 262,145 bytes.
static LONG_RECORD: [u8; 40] = [
    0xd4, 0xc3, 0xb2, 0xa1, 0x02, 0x00, 0x04, 0x00, 0x00, 0x00, 0x00, 0x00, 0x00, 0x00, 0x00, 0x00,
    0xff, 0xff, 0x00, 0x00, 0x01, 0x00, 0x00, 0x00, 0x01, 0x00, 0x00, 0x00, 0x00, 0x00, 0x00, 0x00,
    0x01, 0x00, 0x04, 0x00, 0x01, 0x00, 0x04, 0x00,
];

/// The report of a capture without a record.
const NOTHING: &str = "records 0\nmarked 0\nunmatched 0\nskipped 0\nunverified 0\ndropped 0\n\
    green 0 0\nyellow 0 0\nred 0 0\n";

/// Expects of `mark` at a port on a capture what it writes, what is told behind the report, and what stands behind that
/// at a terminal.
fn expect_capture(
    rt: &(impl Abort + Wait + Threads + Sync),
    alloc: Global,
    (port, input): (&str, &[u8]),
    output: &[u8],
    (fault, behind): (&str, &str),
) {
    let line = format!(in alloc;
        "dsedge mark domain.toml domain.cert --port {port} --workers 1 --red keep"
    ).expect(rt, "a line");
    let told = format!(in alloc; "{NOTHING}{fault}").expect(rt, "what is told");
    expect_line(
        rt,
        alloc,
        (line.as_str(), input),
        (output, 3),
        (told.as_str(), behind),
    );
}

#[test]
fn captures_in_a_pipe_and_at_a_terminal(rt: HostRuntime) {
    let types =
        "link type 7 is none of those that are read: 0, 1 (Ethernet), 12, 14, 101 (raw IP), 108, 113, 228, 229 and 276\n\
        Ethernet is captured by: tcpdump -i DEVICE -y EN10MB -w OUT.pcap\n\
        where frames are of one of these, say so by: editcap -T ether|rawip|rawip4 IN.pcap OUT.pcap\n";
    let fault = ("dsedge: capture 4 LinkType\n", types);
    expect_capture(&rt, rt.alloc(), ("p", &OTHER_LINK), b"", fault);
    let long =
        "a record says that it has 262145 bytes, and 262144 are the most: the capture is damaged there\n";
    let fault = ("dsedge: capture 5 RecordTooLong\n", long);
    let heading = &LONG_RECORD[..24];
    expect_capture(&rt, rt.alloc(), ("p", &LONG_RECORD), heading, fault);
    let ports = "ports: p\nnothing of the name \"q?r\"; the nearest is \"p\"\n";
    let fault = ("dsedge: port q?r\n", ports);
    expect_capture(&rt, rt.alloc(), ("q\nr", &OTHER_LINK), b"", fault);
}

/// Command lines with their input, the output, the status, the fault's line, and what stands behind it at a terminal.
static LINES: [(&str, &[u8], &str, u8, &str, &str); 9] = [
    (
        "dsedge envelope --rate 1 --burst 1",
        b"0 1\n",
        "kept\n",
        0,
        "",
        "",
    ),
    (
        "./dsedge envelope --rate 1 --burst 1",
        b"0 2\n",
        "over 1\n",
        1,
        "",
        "",
    ),
    (
        "dsedge",
        b"envelope --rate 1 --burst 1\n0 2\n",
        "over 1\n",
        1,
        "",
        "",
    ),
    (
        "dsedge",
        b"envelope --rate 0 --burst 1\n",
        "",
        2,
        "dsedge: usage\n",
        "",
    ),
    (
        "dsedge envelope --rate 0 --burst 1",
        b"",
        "",
        2,
        "dsedge: usage\n",
        "--rate 0: it takes 1 to 10000000000000, in bits per second\n\
        error: a value is none that its option takes, or an option goes with another kind of meter\n\n\
        For more information, try 'dsedge envelope --help'.\n",
    ),
    (
        "dsedge mark domain.toml domain.cert --port p --workers 65 --red keep",
        b"",
        "",
        2,
        "dsedge: usage\n",
        "--workers 65: it takes 1 to 64\n\
        error: a capture is marked by 1 to 64 workers, as --workers 4\n\n\
        For more information, try 'dsedge mark --help'.\n",
    ),
    (
        "dsedge envelope --rate 1 --burst 1",
        b"x\n",
        "",
        3,
        "dsedge: line 1\n",
        "",
    ),
    (
        "dsedge check domain.toml bad.cert",
        b"",
        "",
        3,
        "dsedge: certificate 1 Text\n",
        "line 1: a line is not one of a certificate\n",
    ),
    (
        "dsedge certify two\nlines\t.toml",
        b"",
        "",
        4,
        "dsedge: file two?lines?.toml\n",
        "there is no such file\n",
    ),
];

#[test]
fn command_lines_in_a_pipe_and_at_a_terminal(rt: HostRuntime) {
    for (line, input, output, status, told, behind) in &LINES {
        expect_line(
            &rt,
            rt.alloc(),
            (*line, *input),
            (output.as_bytes(), *status),
            (*told, *behind),
        );
    }
}

#[test]
fn malformed_words_are_explained_at_a_terminal(rt: HostRuntime) {
    let told = b"dsedge: usage\n".as_slice();
    let piped = run_line(&rt, rt.alloc(), "dsedge meters", false, b"");
    assert!(rt; piped.told.as_slice() == told);
    let shown = run_line(&rt, rt.alloc(), "dsedge meters", true, b"");
    assert!(rt; shown.status == 2);
    assert!(rt; shown.told.as_slice().starts_with(told));
    assert!(rt; shown.told.len() > told.len());
}

#[test]
fn words_that_cannot_be_had(rt: HostRuntime) {
    for (kind, told, status) in [
        (ErrorKind::InvalidData, "dsedge: usage\n", 2),
        (ErrorKind::OutOfMemory, "dsedge: memory\n", 5),
    ] {
        let mut output = VecOutlet::new(Vec::new(rt.alloc()));
        let mut faults = VecOutlet::new(Vec::new(rt.alloc()));
        let ended = run(
            rt.alloc(),
            &rt,
            Err(Error::from(kind)),
            AtTerminal::of(&Faults { at_terminal: true }),
            &MemoryFolder { files: &[] },
            &mut SliceIntake::new(b""),
            &mut output,
            &mut faults,
        );
        assert!(rt; ended == status);
        assert!(rt; faults.bytes.as_slice() == told.as_bytes());
    }
}
