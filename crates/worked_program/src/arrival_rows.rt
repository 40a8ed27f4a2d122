use crate::mark_rows::{HEADING, OTHER, TAGGED, capture};
use crate::rows::{expect_done, run_on_table};
use std::alloc::Global;
use std::process::Abort;
use std::sync::Wait;
use std::test::Fail;
use std::thread::Threads;
use worked_texts::{POLICED, TWO_RATES, U, UDP, V, over_way};

/// The tagged record, with its second and its microseconds below 65,536, the size, the code point and the protocol of its
/// packet.
fn record(second: u8, micros: [u8; 4], total: u8, dscp: u8, protocol: u8) -> [u8; 54] {
    let mut record = TAGGED;
    record[0] = second;
    record[4] = micros[0];
    record[5] = micros[1];
    record[6] = micros[2];
    record[7] = micros[3];
    record[35] = dscp << 2;
    record[37] = total;
    record[43] = protocol;
    record
}

/// `arrivals` with words on four packets: at 1.5 s 115 bytes of UDP with code point 0, at 1.2 s 128 bytes of TCP with AF22,
/// at 2.000001 s 120 bytes of UDP with AF13, at 3.000002 s 121 of UDP with AF11, and a record among them that is of no
/// packet; the domain has the contracts `u` of UDP, of the first class, and `v` of TCP, of the second, at the port `p`.
fn expect_of_arrivals(
    rt: &(impl Abort + Wait + Threads + Sync),
    alloc: Global,
    words: &str,
    behind: &[u8],
    (output, told, status): (&str, &str, u8),
) -> Result<(), Fail> {
    let contracts = [
        POLICED,
        U,
        TWO_RATES,
        UDP,
        POLICED,
        V,
        TWO_RATES,
        "protocol = 6\n",
    ];
    let domain = over_way(alloc, &contracts)?;
    let first = TAGGED;
    let second = record(1, [0x40, 0x0d, 0x03, 0], 128, 20, 6);
    let third = record(2, [1, 0, 0, 0], 120, 14, 17);
    let fourth = record(3, [2, 0, 0, 0], 121, 10, 17);
    let parts: &[&[u8]] = &[&HEADING, &first, &second, &OTHER, &third, &fourth, behind];
    let given = capture(alloc, parts)?;
    let done = run_on_table(rt, alloc, words, domain.as_str(), b"", given.as_slice())?;
    expect_done(rt, (words, ""), &done, (output, told, status));
    Ok(())
}

#[test]
fn every_packet_arrives(rt: HostRuntime) -> Result<(), Fail> {
    let lines = "1500000000 115\n1500000000 128\n2000001000 120\n3000002000 121\n";
    expect_of_arrivals(&rt, rt.alloc(), "arrivals", &[], (lines, "", 0))?;
    let coloured = "1500000000 115 g\n1500000000 128 y\n2000001000 120 r\n3000002000 121 g\n";
    expect_of_arrivals(
        &rt,
        rt.alloc(),
        "arrivals --colours",
        &[],
        (coloured, "", 0),
    )
}

#[test]
fn packets_of_a_port_and_of_one_contract(rt: HostRuntime) -> Result<(), Fail> {
    let all = "1500000000 115 r\n1500000000 128 y\n2000001000 120 r\n3000002000 121 g\n";
    let words = "arrivals domain.toml --port p --colours";
    expect_of_arrivals(&rt, rt.alloc(), words, &[], (all, "", 0))?;
    let words = "arrivals domain.toml --port p --contract u";
    let first = "1500000000 115\n2000001000 120\n3000002000 121\n";
    expect_of_arrivals(&rt, rt.alloc(), words, &[], (first, "", 0))?;
    let words = "arrivals domain.toml --port p --contract v --colours";
    expect_of_arrivals(&rt, rt.alloc(), words, &[], ("1500000000 128 y\n", "", 0))
}

/// A section of the newer format, an interface of Ethernet, and a packet's block before that packet: at 1.5 s, 38 bytes of
/// 133.
const BLOCKS: [u8; 76] = [
    0x0a, 0x0d, 0x0d, 0x0a, 0x1c, 0x00, 0x00, 0x00, 0x4d, 0x3c, 0x2b, 0x1a, 0x01, 0x00, 0x00, 0x00,
    0xff, 0xff, 0xff, 0xff, 0xff, 0xff, 0xff, 0xff, 0x1c, 0x00, 0x00, 0x00, 0x01, 0x00, 0x00, 0x00,
    0x14, 0x00, 0x00, 0x00, 0x01, 0x00, 0x00, 0x00, 0x00, 0x00, 0x00, 0x00, 0x14, 0x00, 0x00, 0x00,
    0x06, 0x00, 0x00, 0x00, 0x48, 0x00, 0x00, 0x00, 0x00, 0x00, 0x00, 0x00, 0x00, 0x00, 0x00, 0x00,
    0x60, 0xe3, 0x16, 0x00, 0x26, 0x00, 0x00, 0x00, 0x85, 0x00, 0x00, 0x00,
];

#[test]
fn packets_of_blocks_arrive(rt: HostRuntime) -> Result<(), Fail> {
    let behind: &[u8] = &[0x00, 0x00, 0x48, 0x00, 0x00, 0x00];
    let given = capture(rt.alloc(), &[&BLOCKS, &TAGGED[16..], behind])?;
    let done = run_on_table(&rt, rt.alloc(), "arrivals", "", b"", given.as_slice())?;
    expect_done(&rt, ("arrivals", ""), &done, ("1500000000 115\n", "", 0));
    Ok(())
}

#[test]
fn arrivals_before_a_fault(rt: HostRuntime) -> Result<(), Fail> {
    let lines = "1500000000 115\n1500000000 128\n2000001000 120\n3000002000 121\n";
    let told = "dsedge: capture 6 Truncated\n";
    expect_of_arrivals(&rt, rt.alloc(), "arrivals", &TAGGED[..40], (lines, told, 3))
}

#[test]
fn arrivals_that_are_refused(rt: HostRuntime) -> Result<(), Fail> {
    for (words, told, status) in [
        (
            "arrivals domain.toml --port q --contract x",
            "dsedge: port q\n",
            3,
        ),
        (
            "arrivals domain.toml --port p --contract x",
            "dsedge: contract x\n",
            3,
        ),
        ("arrivals none.toml --port p", "dsedge: file none.toml\n", 4),
        ("arrivals domain.toml", "dsedge: usage\n", 2),
        ("arrivals --port p", "dsedge: usage\n", 2),
        ("arrivals --contract u", "dsedge: usage\n", 2),
        ("arrivals domain.toml --contract u", "dsedge: usage\n", 2),
    ] {
        expect_of_arrivals(&rt, rt.alloc(), words, &[], ("", told, status))?;
    }
    Ok(())
}
