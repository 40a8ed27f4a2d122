ghost use Rattle.std.specs.Prelude.{◌≤◌};

use crate::tables::{accepted, two_rates};
use af_marker::Dscp;
use meter_book::MeterBook;
use meter_fabric_base::{BeginFault, Receipt, Traveller, Ways};
use moment_core::{Colour, Gap, Mode, Moment, PacketSize};
use std::alloc::Global;
use std::process::Abort;
use std::test::Fail;
use worked_texts::{LEAST_OF_POLICED, POLICED, TWO_RATES, U};

/// A packet of 1,500 bytes at moment 10, sent green, of the contract of a number: contract 0, which is policed at its
/// edge, is the only one.
fn begin(alloc: Global, flow: u32, number: u64) -> Result<Result<Traveller, BeginFault>, Fail> {
    let size = PacketSize::new(1500)?;
    let dscp = Dscp::new(10)?;
    let begun = Moment::new(10)?;
    let accepted = accepted(alloc, &[POLICED, U, TWO_RATES], LEAST_OF_POLICED)?;
    let ways = Ways::of(alloc, &accepted)?;
    Ok(Traveller::begin(alloc, &ways, flow, number, size, dscp, begun))
}

/// Such a packet of contract 0.
fn sent(alloc: Global, number: u64) -> Result<Traveller, Fail> {
    Ok(begin(alloc, 0, number)??)
}

/// The number of the fault of a packet of a contract; 0 where it begins.
fn begin_code(alloc: Global, flow: u32) -> Result<u8, Fail> {
    match begin(alloc, flow, 1)? {
        Ok(_) => Ok(0),
        Err(fault) => Ok(fault.code()),
    }
}

#[test]
fn a_contract_that_is_not_there_has_no_packets(rt: HostRuntime) -> Result<(), Fail> {
    for (flow, code) in [(0, 0), (1, 1), (u32::MAX, 1)] {
        assert_eq!(rt; begin_code(rt.alloc(), flow)?, code, "of {flow}");
    }
    Ok(())
}

/// A book of the meter at the edge, with room for two rows.
fn edge_book(alloc: Global) -> Result<MeterBook, Fail> {
    let meter = two_rates((8_000_000, 1500), (16_000_000, 3000), Mode::Blind)?;
    Ok(MeterBook::new(alloc, meter, Gap::NONE, 2))
}

/// A book of the meter behind it, with room for as many rows.
fn meter_book(alloc: Global, capacity: u32) -> Result<MeterBook, Fail>
    requires least { 1 ≤ capacity }
    requires most { capacity ≤ 2 }
{
    let meter = two_rates((24_000_000, 13_500), (24_000_000, 13_500), Mode::Aware)?;
    Ok(MeterBook::new(alloc, meter, Gap::NONE, capacity))
}

/// The traveller behind a step that nothing stands against.
fn stepped(traveller: Traveller, book: &mut MeterBook, moment: u64) -> Result<Traveller, Fail> {
    match traveller.step(book, Moment::new(moment)?) {
        Ok(traveller) => Ok(traveller),
        Err((_, fault)) => Err(fault.into()),
    }
}

/// The site of a receipt, and the colour that the packet left it with.
fn told(receipt: Option<&Receipt>) -> Option<(u32, Colour)> {
    receipt.map(|receipt| (receipt.site, receipt.row.left))
}

/// Expects what a packet carries away that visits two books at moment 10: a colour at the edge and one at the meter.
fn expect_ends(
    rt: &impl Abort,
    sent: Traveller,
    edge: &mut MeterBook,
    meter: &mut MeterBook,
    left: Colour,
) -> Result<(), Fail> {
    let within = stepped(sent, edge, 10)?;
    let trail = stepped(within, meter, 10)?.into_trail();
    assert_eq!(rt; told(trail.receipts.first()), Some((1, left)));
    assert_eq!(rt; told(trail.receipts.last()), Some((0, left)));
    Ok(())
}

/// Expects the ends of two packets, one behind the other: green and yellow.
fn expect_two(
    rt: &impl Abort,
    alloc: Global,
    edge: &mut MeterBook,
    meter: &mut MeterBook,
) -> Result<(), Fail> {
    expect_ends(rt, sent(alloc, 1)?, edge, meter, Colour::Green)?;
    expect_ends(rt, sent(alloc, 2)?, edge, meter, Colour::Yellow)
}

#[test]
fn a_policed_packet_comes_to_its_edge_and_then_to_its_meter(rt: HostRuntime) -> Result<(), Fail> {
    let mut edge = edge_book(rt.alloc())?;
    let mut meter = meter_book(rt.alloc(), 2)?;
    expect_two(&rt, rt.alloc(), &mut edge, &mut meter)
}

/// A step at a moment: the traveller behind it, the number of the fault or 0 where there is none, and the next site.
fn visit(
    traveller: Traveller,
    book: &mut MeterBook,
    moment: u64,
) -> Result<(Traveller, u8, Option<u32>), Fail> {
    let (traveller, code) = match traveller.step(book, Moment::new(moment)?) {
        Ok(traveller) => (traveller, 0),
        Err((traveller, fault)) => (traveller, fault.code()),
    };
    let next = traveller.next_site();
    Ok((traveller, code, next))
}

/// Expects the number of a step's fault, 0 where there is none, and the site that is next behind it.
fn expect(
    rt: &impl Abort,
    traveller: Traveller,
    book: &mut MeterBook,
    moment: u64,
    wanted: (u8, Option<u32>),
) -> Result<Traveller, Fail> {
    let (behind, code, next) = visit(traveller, book, moment)?;
    assert_eq!(rt; (code, next), wanted, "at {moment}");
    Ok(behind)
}

/// Expects what a packet's way through one book is, with steps that come too early, and one too many.
fn expect_way(rt: &impl Abort, sent: Traveller, book: &mut MeterBook) -> Result<(), Fail> {
    let sent = expect(rt, sent, book, 9, (4, Some(1)))?;
    let within = expect(rt, sent, book, 10, (0, Some(0)))?;
    let within = expect(rt, within, book, 9, (4, Some(0)))?;
    let ended = expect(rt, within, book, 10, (0, None))?;
    expect(rt, ended, book, 11, (1, None))?;
    Ok(())
}

#[test]
fn refused_steps_leave_a_packet_where_it_is(rt: HostRuntime) -> Result<(), Fail> {
    let mut edge = edge_book(rt.alloc())?;
    let sent = sent(rt.alloc(), 1)?;
    expect_way(&rt, sent, &mut edge)
}

/// The number of a packet, and how many receipts it carries.
fn carried(traveller: Traveller) -> (u64, usize) {
    let trail = traveller.into_trail();
    (trail.packet, trail.receipts.len())
}

/// How many rows a book has, and the number of the packet of the first.
fn noted(book: &MeterBook) -> (usize, Option<u64>) {
    (book.len(), book.row(0).map(|row| row.packet))
}

/// Expects that packet 2 does not come into a book that is full of packet 1, and that both are then as before.
fn expect_full(rt: &impl Abort, sent: Traveller, book: &mut MeterBook) -> Result<(), Fail> {
    let refused = expect(rt, sent, book, 10, (2, Some(1)))?;
    assert_eq!(rt; carried(refused), (2, 0));
    assert_eq!(rt; noted(book), (1, Some(1)));
    Ok(())
}

/// Fills a book of one row with packet 1, and expects that packet 2 finds it full.
fn expect_one(rt: &impl Abort, alloc: Global, book: &mut MeterBook) -> Result<(), Fail> {
    stepped(sent(alloc, 1)?, book, 10)?;
    expect_full(rt, sent(alloc, 2)?, book)
}

#[test]
fn a_full_book_leaves_a_packet_where_it_is(rt: HostRuntime) -> Result<(), Fail> {
    let mut book = meter_book(rt.alloc(), 1)?;
    expect_one(&rt, rt.alloc(), &mut book)
}

/// Expects that a packet does not come into a book at the moment at which that was shut, and does before.
fn expect_shut(rt: &impl Abort, sent: Traveller, book: &mut MeterBook) -> Result<(), Fail> {
    let refused = expect(rt, sent, book, 11, (6, Some(1)))?;
    assert!(rt; book.is_empty());
    expect(rt, refused, book, 10, (0, Some(0)))?;
    Ok(())
}

#[test]
fn a_book_that_is_shut_leaves_a_packet_where_it_is(rt: HostRuntime) -> Result<(), Fail> {
    let mut edge = edge_book(rt.alloc())?;
    let sent = sent(rt.alloc(), 1)?;
    assert_eq!(rt; edge.shut(Moment::new(11)?), Some(Moment::new(11)?));
    expect_shut(&rt, sent, &mut edge)
}
