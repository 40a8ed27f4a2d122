//! Runs of many packets of each contract, of which the last is sent first.
use crate::tables::accepted;
use af_marker::Dscp;
use ds_checker::Accepted;
use ds_conductor::{Step, conduct};
use moment_core::{Column, Moment, PacketSize};
use run_audit::{Verdict, audit};
use std::alloc::Global;
use std::process::Abort;
use std::test::Fail;
use worked_texts::{A, B, SHARE, TRUSTED};

/// The least certificate of two trusted contracts of 8 Mbit/s and 3,000 bytes.
const LEAST_OF_TWO: &str = "dscert 1\na 0 3000 3000\na 1 4000 4000\nb 0 3000 3000\nb 1 4000 4000\n";

/// How many packets each contract sends.
const EACH: u32 = 20;

/// The number of the packet that a contract sends after so many others.
fn number(flow: u32, before: u32) -> u64 {
    u64::from(flow) * u64::from(EACH) + u64::from((EACH - 1).saturating_sub(before))
}

/// The moment of a packet before which so many others were sent, each so many nanoseconds after the one before it.
fn moment(before: u32, apart: u32) -> Result<Moment, Fail> {
    Ok(Moment::new(u64::from(before) * u64::from(apart))?)
}

/// The green code points of the contracts' classes (RFC 2597 section 6): AF11 and AF21.
const GREEN: [u8; 2] = [10, 18];

/// The beginning of a green packet of 1,500 bytes.
fn send(flow: u32, before: u32, apart: u32) -> Result<Step, Fail> {
    Ok(Step::Send {
        flow,
        packet: number(flow, before),
        size: PacketSize::new(1500)?,
        dscp: Dscp::new(if flow == 0 { GREEN[0] } else { GREEN[1] })?,
        moment: moment(before, apart)?,
    })
}

/// The same packet at its meter, at once.
fn visit(flow: u32, before: u32, apart: u32) -> Result<Step, Fail> {
    Ok(Step::Visit {
        packet: number(flow, before),
        moment: moment(before, apart)?,
    })
}

/// The packets of two contracts, each of which sends them so many nanoseconds apart.
fn steps(alloc: Global, apart: [u32; 2]) -> Result<Vec<Step>, Fail> {
    let mut steps = Vec::new(alloc);
    for before in 0..EACH {
        steps.push(send(0, before, apart[0])?)?;
        steps.push(send(1, before, apart[1])?)?;
        steps.push(visit(0, before, apart[0])?)?;
        steps.push(visit(1, before, apart[1])?)?;
    }
    Ok(steps)
}

/// Expects the verdict on the run of these packets.
fn expect_verdict(
    rt: &impl Abort,
    alloc: Global,
    accepted: &Accepted,
    apart: [u32; 2],
    expected: Verdict,
) -> Result<(), Fail> {
    let steps = steps(alloc, apart)?;
    let run = conduct(alloc, accepted, steps.as_slice())?;
    assert_eq!(rt; audit(alloc, &run)?, expected);
    Ok(())
}

// of so many packets a contract, groups and links are made once for each contract
#[test]
fn many_packets_of_each_contract(rt: HostRuntime) -> Result<(), Fail> {
    let accepted = accepted(
        rt.alloc(),
        &[TRUSTED, A, SHARE, TRUSTED, B, SHARE],
        LEAST_OF_TWO,
    )?;
    let rates = [1_500_000, 1_500_000];
    expect_verdict(&rt, rt.alloc(), &accepted, rates, Verdict::Kept)?;
    // 16 packets of 1,500 bytes are within 3,000 bytes and 15 times 1,400, and 17 are not within 16 times that
    let over = Verdict::SourceOver {
        flow: 1,
        column: Column::Green,
        packet: 23,
    };
    let rates = [1_500_000, 1_400_000];
    expect_verdict(&rt, rt.alloc(), &accepted, rates, over)
}
