use crate::tables::{accepted, two_rates};
use af_marker::Dscp;
use ds_checker::Accepted;
use meter_book::{Journal, MeterBook};
use meter_fabric_base::{Trail, Traveller, Ways};
use moment_core::{Gap, Mode, Moment, PacketSize};
use run_audit::{AssembleFault, Ground, Run};
use std::alloc::Global;
use std::process::Abort;
use std::test::Fail;
use worked_texts::{POLICED, U};

/// A meter of 24 Mbit/s and 1,500 bytes, committed and peak, which polices a contract at its edge.
const EDGE: &str = "kind = \"trtcm\"\ncir = 24000000\ncbs = 1500\npir = 24000000\npbs = 1500\n";

/// The least certificate of that contract.
const LEAST: &str = "dscert 1\nu 0 1501 1501\nu 1 4501 4501\n";

/// A book of its edge.
fn edge_book(alloc: Global) -> Result<MeterBook, Fail> {
    let meter = two_rates((24_000_000, 1500), (24_000_000, 1500), Mode::Blind)?;
    Ok(MeterBook::new(alloc, meter, Gap::NONE, 2))
}

/// A book of the meter behind it.
fn meter_book(alloc: Global) -> Result<MeterBook, Fail> {
    let meter = two_rates((24_000_000, 13_500), (24_000_000, 13_500), Mode::Aware)?;
    Ok(MeterBook::new(alloc, meter, Gap::new(500_000)?, 2))
}

/// A packet of 1,000 bytes that begins at moment 10.
fn begun(alloc: Global, accepted: &Accepted, number: u64) -> Result<Traveller, Fail> {
    let size = PacketSize::new(1000)?;
    let dscp = Dscp::new(10)?;
    let moment = Moment::new(10)?;
    let ways = Ways::of(alloc, accepted)?;
    Ok(Traveller::begin(alloc, &ways, 0, number, size, dscp, moment)?)
}

/// Lets a packet visit a book at moment 10.
fn visit(packet: &mut Traveller, book: &mut MeterBook) -> Result<(), Fail> {
    packet.advance(book, Moment::new(10)?)?;
    Ok(())
}

/// Such a packet that visits its edge and its meter then.
fn sent(
    alloc: Global,
    accepted: &Accepted,
    number: u64,
    edge: &mut MeterBook,
    meter: &mut MeterBook,
) -> Result<Trail, Fail> {
    let mut packet = begun(alloc, accepted, number)?;
    visit(&mut packet, edge)?;
    visit(&mut packet, meter)?;
    Ok(packet.into_trail())
}

/// The trails of two packets of these numbers.
fn trails(
    alloc: Global,
    accepted: &Accepted,
    numbers: [u64; 2],
    edge: &mut MeterBook,
    meter: &mut MeterBook,
) -> Result<Vec<Trail>, Fail> {
    let mut trails = Vec::new(alloc);
    for number in numbers {
        trails.push(sent(alloc, accepted, number, edge, meter)?)?;
    }
    Ok(trails)
}

/// The journal of a site's book, of which nothing was cut off.
fn journal(book: MeterBook, site: u32) -> Result<Journal, Fail> {
    if book.opening().place != 0 {
        return Err(Fail::from("a book that was cut"));
    }
    Ok(book.into_journal().at(site))
}

/// The journals of an edge and a meter, that of the edge first.
fn journals(alloc: Global, edge: MeterBook, meter: MeterBook) -> Result<Vec<Journal>, Fail> {
    let mut journals = Vec::with_capacity(alloc, 2)?;
    journals.push(journal(edge, 1)?)?;
    journals.push(journal(meter, 0)?)?;
    Ok(journals)
}

/// Journals and trails.
type Parts = (Vec<Journal>, Vec<Trail>);

/// What two packets of these numbers leave behind.
fn parts(alloc: Global, accepted: &Accepted, numbers: [u64; 2]) -> Result<Parts, Fail> {
    let mut edge = edge_book(alloc)?;
    let mut meter = meter_book(alloc)?;
    let trails = trails(alloc, accepted, numbers, &mut edge, &mut meter)?;
    let journals = journals(alloc, edge, meter)?;
    Ok((journals, trails))
}

/// What is answered to journals and trails: the number of the fault, 0 where they are a run.
fn answer(alloc: Global, accepted: &Accepted, parts: Parts) -> u8 {
    match Run::assemble(alloc, Ground::Table(accepted), parts.0, parts.1) {
        Ok(_) => 0,
        Err((_, _, fault)) => fault.code(),
    }
}

/// The same without the last trail.
fn untold(mut parts: Parts) -> Parts {
    parts.1.pop();
    parts
}

/// The same without the last journal.
fn unkept(mut parts: Parts) -> Parts {
    parts.0.pop();
    parts
}

/// The same with another place in the first receipt of the first trail.
fn misplaced(mut parts: Parts) -> Parts {
    if let Some(trail) = parts.1.first_mut() {
        if let Some(receipt) = trail.receipts.first_mut() {
            receipt.row.place = 1;
        }
    }
    parts
}

/// Expects what is answered to what two packets leave behind.
fn expect_parts(rt: &impl Abort, alloc: Global, accepted: &Accepted) -> Result<(), Fail> {
    let whole = parts(alloc, accepted, [7, 3])?;
    assert_eq!(rt; answer(alloc, accepted, whole), 0);
    let doubled = parts(alloc, accepted, [7, 7])?;
    assert_eq!(rt;
        answer(alloc, accepted, doubled),
        AssembleFault::Doubled.code()
    );
    Ok(())
}

#[test]
fn what_two_packets_leave_behind_is_a_run(rt: HostRuntime) -> Result<(), Fail> {
    let accepted = accepted(rt.alloc(), &[POLICED, U, EDGE], LEAST)?;
    expect_parts(&rt, rt.alloc(), &accepted)
}

/// Expects what is answered where a trail is left out, a journal, or a place is another.
fn expect_changed(rt: &impl Abort, alloc: Global, accepted: &Accepted) -> Result<(), Fail> {
    let untold = untold(parts(alloc, accepted, [7, 3])?);
    assert_eq!(rt; answer(alloc, accepted, untold), 2);
    let unkept = unkept(parts(alloc, accepted, [7, 3])?);
    assert_eq!(rt; answer(alloc, accepted, unkept), 1);
    let misplaced = misplaced(parts(alloc, accepted, [7, 3])?);
    assert_eq!(rt; answer(alloc, accepted, misplaced), 1);
    Ok(())
}

#[test]
fn other_parts_are_no_run(rt: HostRuntime) -> Result<(), Fail> {
    let accepted = accepted(rt.alloc(), &[POLICED, U, EDGE], LEAST)?;
    expect_changed(&rt, rt.alloc(), &accepted)
}
