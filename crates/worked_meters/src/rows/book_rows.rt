ghost use Rattle.std.specs.Prelude.{◌≤◌, ◌^◌};

use crate::rows::meters::{Figures, moment, opened};
use meter_book::{Arrival, Journal, MeterBook, Row};
use moment_core::{Colour, Gap, Mode, PacketSize};
use std::alloc::Global;
use std::process::Abort;

/// A book of a meter of such figures, with room for so many open rows.
pub fn book(rt: &impl Abort, alloc: Global, meter: (Figures, Mode), capacity: u32) -> MeterBook
    requires least { 1 ≤ capacity }
    requires most { capacity ≤ 2 ^ 20 }
{
    let meter = opened(rt, meter.0, meter.1);
    MeterBook::new(alloc, meter, Gap::NONE, capacity)
}

/// The figures of a meter of 8,000 bit/s and 1,500 bytes, and 16,000 bit/s and 3,000 bytes.
const SLOW: Figures = Figures::Two(8_000, 1_500, 16_000, 3_000);

/// A packet of a number, as it arrives at a moment.
pub fn arrival(
    rt: &impl Abort,
    packet: u64,
    nanoseconds: u64,
    bytes: u64,
    came: Colour,
) -> Arrival {
    let size = PacketSize::new(bytes).expect(rt, "a size");
    Arrival {
        flow: 0,
        packet,
        hop: 1,
        moment: moment(rt, nanoseconds),
        size,
        came,
    }
}

/// The row of a packet of a number, a moment and a size that comes in with a colour.
fn noted(
    rt: &impl Abort,
    book: &mut MeterBook,
    (number, moment, size): (u64, u64, u64),
    came: Colour,
) -> Row {
    let packet = arrival(rt, number, moment, size, came);
    book.note(packet).expect(rt, "a book with room")
}

/// Green packets by their numbers, moments and sizes, and the colour that each leaves a book with.
static FIVE: [((u64, u64, u64), Colour); 5] = [
    ((0, 0, 1_500), Colour::Green),
    ((1, 0, 1_500), Colour::Yellow),
    ((2, 0, 100), Colour::Red),
    ((3, 500_000_000, 500), Colour::Green),
    ((4, 1_000_000_000, 1_000), Colour::Yellow),
];

/// Expects of each packet the colour that it leaves a book with, and that its place is its number.
fn expect_five(rt: &impl Abort, book: &mut MeterBook) {
    for (packet, left) in &FIVE {
        let row = noted(rt, book, *packet, Colour::Green);
        assert_eq!(rt;
            ("of five packets", (row.place, row.left)),
            ("of five packets", (packet.0, *left))
        );
    }
}

/// Expects of a book how many packets and bytes left with each colour.
fn expect_accounts(rt: &impl Abort, book: &MeterBook, packets: [u64; 3], bytes: [u64; 3]) {
    let accounts = book.accounts();
    assert!(rt; accounts.packets == packets);
    assert!(rt; accounts.bytes == bytes);
}

/// Expects of the journal of site 7 five rows, the last of packet 4.
fn expect_journal(rt: &impl Abort, journal: &Journal) {
    assert!(rt; journal.site() == 7);
    assert!(rt; journal.len() == 5);
    assert!(rt; journal.row(4).map(|row| row.packet) == Some(4));
    assert!(rt; journal.row(5).is_none());
}

/// Expects of a book what these packets leave behind.
fn expect_bursts(rt: &impl Abort, alloc: Global) {
    let mut book = book(rt, alloc, (SLOW, Mode::Blind), 5);
    expect_five(rt, &mut book);
    expect_accounts(rt, &book, [2, 2, 1], [2_000, 2_500, 100]);
    assert_eq!(rt; book.opening().place, 0);
    let journal = book.into_journal().at(7);
    expect_journal(rt, &journal);
    drop(journal);
}

#[test]
fn committed_burst_of_one_packet_and_peak_burst_of_two(rt: HostRuntime) {
    expect_bursts(&rt, rt.alloc());
}

/// Expects that a book of two packets refuses a third and stays as it was.
fn expect_full(rt: &impl Abort, alloc: Global) {
    let mut book = book(rt, alloc, (SLOW, Mode::Aware), 2);
    noted(rt, &mut book, (0, 10, 100), Colour::Yellow);
    noted(rt, &mut book, (1, 10, 100), Colour::Yellow);
    let third = arrival(rt, 2, 10, 100, Colour::Green);
    let refused = book.note(third).err();
    assert!(rt; refused.map(|fault| fault.code()) == Some(1));
    assert_eq!(rt; book.len(), 2);
    expect_accounts(rt, &book, [0, 2, 0], [0, 200, 0]);
    drop(book);
}

#[test]
fn a_full_book_refuses_and_stays_as_it_was(rt: HostRuntime) {
    expect_full(&rt, rt.alloc());
}

/// Expects of a packet that comes 60 ns before the newest one that it is metered with it, in the book's second row.
fn expect_late(rt: &impl Abort, book: &mut MeterBook) {
    let row = noted(rt, book, (1, 40, 100), Colour::Green);
    assert!(rt; (row.used.get(), row.late.get()) == (100, 60));
    assert!(rt; book.row(1) == Some(row));
}

/// Expects that of a book with a packet.
fn expect_past(rt: &impl Abort, alloc: Global) {
    let mut book = book(rt, alloc, (SLOW, Mode::Blind), 2);
    noted(rt, &mut book, (0, 100, 100), Colour::Green);
    expect_late(rt, &mut book);
    assert!(rt; !book.is_empty());
    drop(book);
}

#[test]
fn an_arrival_from_the_past_is_metered_late(rt: HostRuntime) {
    expect_past(&rt, rt.alloc());
}
