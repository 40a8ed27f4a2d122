ghost use Rattle.std.specs.Prelude.{◌≤◌};

use crate::rows::book_rows::{arrival, book};
use crate::rows::meters::{Figures, moment};
use meter_book::{Chapter, JoinFault, Journal, MeterBook, NoteFault, Row};
use moment_core::{Colour, Mode};
use std::alloc::Global;
use std::process::Abort;

/// The meter at the edge of a contract that is policed to 8 Mbit/s and 1,500 bytes, and 16 Mbit/s and 3,000 bytes.
const EDGE: (Figures, Mode) = (
    Figures::Two(8_000_000, 1_500, 16_000_000, 3_000),
    Mode::Blind,
);

/// What a book answers to a green packet of a number, of so many bytes, at a moment.
fn noted(
    rt: &impl Abort,
    book: &mut MeterBook,
    (packet, moment): (u64, u64),
    size: u64,
) -> Result<Row, NoteFault> {
    book.note(arrival(rt, packet, moment, size, Colour::Green))
}

/// The place of the row that a book gives a green packet of a number, of 1,500 bytes, at a moment in milliseconds; the
/// number of its fault where it refuses it.
fn place(rt: &impl Abort, book: &mut MeterBook, packet: u64, milliseconds: u64) -> Result<u64, u8>
    requires { milliseconds ≤ 1000 }
{
    match noted(rt, book, (packet, milliseconds * 1_000_000), 1_500) {
        Ok(row) => Ok(row.place),
        Err(fault) => Err(fault.code()),
    }
}

/// A book with room for two that has refused the third of three arrivals.
fn full(rt: &impl Abort, alloc: Global) -> MeterBook {
    let mut book = book(rt, alloc, EDGE, 2);
    assert!(rt; place(rt, &mut book, 0, 0) == Ok(0));
    assert!(rt; place(rt, &mut book, 1, 1) == Ok(1));
    assert!(rt; place(rt, &mut book, 2, 2) == Err(1));
    book
}

/// The first two of three arrivals, as a chapter, of a book that takes the third then.
fn cut(rt: &impl Abort, book: &mut MeterBook) -> Chapter {
    let chapter = book.cut();
    assert!(rt; book.len() == 0);
    assert!(rt; place(rt, book, 2, 2) == Ok(2));
    chapter
}

/// The journal of a book with room for three, of the same arrivals.
fn whole(rt: &impl Abort, alloc: Global) -> Journal {
    let mut book = book(rt, alloc, EDGE, 3);
    for packet in 0..3 {
        assert_eq!(rt;
            ("of three packets", place(rt, &mut book, packet, packet)),
            ("of three packets", Ok(packet))
        );
    }
    assert!(rt; book.opening().place == 0);
    book.into_journal()
}

/// Expects that two journals of three rows are the same.
fn expect_same_journals(rt: &impl Abort, journal: &Journal, other: &Journal) {
    assert!(rt; journal.site() == other.site() && journal.len() == 3);
    assert!(rt; journal.opening() == other.opening() && journal.skew() == other.skew());
    assert!(rt; journal.accounts() == other.accounts());
    for place in 0..4 {
        assert_eq!(rt;
            ("of three rows", journal.row(place)),
            ("of three rows", other.row(place))
        );
    }
}

/// Expects two chapters, of two rows and of a third.
fn expect_chapters(rt: &impl Abort, first: &Chapter, last: &Chapter) {
    assert!(rt; first.len() == 2);
    assert!(rt; (first.opening().place, first.closing().place) == (0, 2));
    assert!(rt; last.len() == 1);
    assert!(rt; last.row(0).map(|row| row.place) == Some(2));
    assert!(rt; last.row(1).is_none());
    assert!(rt; last.opening() == first.closing());
}

/// Two chapters.
fn both(rt: &impl Abort, alloc: Global, first: Chapter, last: Chapter) -> Vec<Chapter> {
    Vec::from_array(alloc, [first, last]).expect(rt, "memory")
}

/// The journal of two chapters.
fn joined(rt: &impl Abort, alloc: Global, first: Chapter, last: Chapter) -> Option<Journal> {
    match Journal::join(alloc, both(rt, alloc, first, last)) {
        Ok(journal) => Some(journal),
        Err(_refused) => None,
    }
}

/// Expects that the chapters of a book join to the journal of another of the same arrivals.
fn expect_joined(rt: &impl Abort, alloc: Global) {
    let mut book = full(rt, alloc);
    let first = cut(rt, &mut book);
    let last = book.into_chapter();
    expect_chapters(rt, &first, &last);
    let journal = joined(rt, alloc, first, last).expect(rt, "a journal");
    let whole = whole(rt, alloc);
    expect_same_journals(rt, &journal, &whole);
    drop(whole);
    drop(journal);
}

#[test]
fn chapters_of_a_book_join_to_its_journal(rt: HostRuntime) {
    expect_joined(&rt, rt.alloc());
}

/// How many chapters are handed back that do not join, and why; None where they do.
fn gap_in(alloc: Global, chapters: Vec<Chapter>) -> Option<(usize, JoinFault)> {
    match Journal::join(alloc, chapters) {
        Ok(_journal) => None,
        Err((chapters, fault)) => Some((chapters.len(), fault)),
    }
}

/// Expects of two chapters that they do not join, with a gap at an index.
fn expect_gap(rt: &impl Abort, alloc: Global, (first, last): (Chapter, Chapter), index: usize) {
    let gap = gap_in(alloc, both(rt, alloc, first, last));
    assert_eq!(rt; gap, Some((2, JoinFault::Gap(index))));
}

/// The chapter of the first two of three arrivals, and the one of the third.
fn chapters(rt: &impl Abort, alloc: Global) -> (Chapter, Chapter) {
    let mut book = full(rt, alloc);
    let first = cut(rt, &mut book);
    (first, book.into_chapter())
}

/// Expects a gap of two chapters in the wrong order, of two of which the second is of another site, of two first ones,
/// and of none.
fn expect_gaps(rt: &impl Abort, alloc: Global) {
    let (first, last) = chapters(rt, alloc);
    expect_gap(rt, alloc, (last, first), 0);
    let (first, last) = chapters(rt, alloc);
    expect_gap(rt, alloc, (first, last.at(1)), 1);
    let (first, _) = chapters(rt, alloc);
    let (other, _) = chapters(rt, alloc);
    expect_gap(rt, alloc, (first, other), 1);
    let none = gap_in(alloc, Vec::new(alloc));
    assert_eq!(rt; none, Some((0, JoinFault::Gap(0))));
    assert_eq!(rt; JoinFault::Gap(1).code(), 1);
}

#[test]
fn chapters_with_a_gap_do_not_join(rt: HostRuntime) {
    expect_gaps(&rt, rt.alloc());
}

/// The moment at which a book is shut that is to be shut at a moment.
fn shut(rt: &impl Abort, book: &mut MeterBook, nanoseconds: u64) -> Option<u64> {
    book.shut(moment(rt, nanoseconds)).map(|end| end.get())
}

/// Expects of a book why it refuses a green packet.
fn expect_refused(rt: &impl Abort, book: &mut MeterBook, packet: (u64, u64), wanted: NoteFault) {
    assert_eq!(rt; noted(rt, book, packet, 115).err(), Some(wanted));
}

/// Expects of a book that it notes a green packet, in the row of its number.
fn expect_noted(rt: &impl Abort, book: &mut MeterBook, packet: (u64, u64)) {
    let row = noted(rt, book, packet, 115).expect(rt, "room for a row");
    assert_eq!(rt; row.place, packet.0);
}

/// Expects that a book of two rows is shut behind its first one, and what it refuses from then on.
fn expect_shut(rt: &impl Abort, book: &mut MeterBook) {
    expect_noted(rt, book, (0, 1_000));
    assert!(rt; shut(rt, book, 500) == Some(1_001));
    expect_refused(rt, book, (1, 1_001), NoteFault::Shut);
    expect_noted(rt, book, (1, 1_000));
    expect_refused(rt, book, (2, 1_001), NoteFault::Shut);
    expect_refused(rt, book, (2, 1_000), NoteFault::JournalFull);
    assert!(rt; shut(rt, book, 5_000) == Some(1_001));
    assert!(rt; NoteFault::Shut.code() == 3);
}

/// Expects that of a book, and that it stays shut behind a cut.
fn expect_shut_book(rt: &impl Abort, alloc: Global) {
    let mut book = book(rt, alloc, EDGE, 2);
    expect_shut(rt, &mut book);
    let chapter = book.cut();
    assert!(rt; chapter.opening().shut.is_none());
    assert!(rt; chapter.closing().shut == Some(moment(rt, 1_001)));
    drop(chapter);
    expect_refused(rt, &mut book, (2, 1_001), NoteFault::Shut);
    drop(book);
}

#[test]
fn a_book_that_is_shut_refuses_from_then_on(rt: HostRuntime) {
    expect_shut_book(&rt, rt.alloc());
}

/// Expects of a packet of the most bytes at a moment that it leaves green, so much later.
fn expect_green(rt: &impl Abort, book: &mut MeterBook, packet: (u64, u64), late: u64) {
    let row = noted(rt, book, packet, 65_535).expect(rt, "room for a row");
    assert!(rt; row.left == Colour::Green);
    assert!(rt; row.late.get() == late);
}

/// Expects that a book that metered at the last moment is not shut.
fn expect_last_moment(rt: &impl Abort, alloc: Global) {
    let last = 9_223_372_036_854_775_807;
    let figures = Figures::Two(10_000_000_000_000, u32::MAX, 10_000_000_000_000, u32::MAX);
    let mut book = book(rt, alloc, (figures, Mode::Blind), 3);
    expect_green(rt, &mut book, (0, last), 0);
    expect_green(rt, &mut book, (1, 0), last);
    assert!(rt; shut(rt, &mut book, 0).is_none());
    expect_green(rt, &mut book, (2, last), 0);
    drop(book);
}

#[test]
fn a_book_that_metered_at_the_last_moment_is_not_shut(rt: HostRuntime) {
    expect_last_moment(&rt, rt.alloc());
}

/// Expects of a book that has taken one packet that it is in its chapter alone from then on.
fn expect_room(rt: &impl Abort, book: &mut MeterBook) {
    let chapter = book.cut();
    assert!(rt; (chapter.len(), book.room()) == (1, 5));
    assert!(rt; book.accounts() == chapter.closing().accounts);
    assert!(rt; book.accounts().packets == [1, 0, 0]);
    drop(chapter);
}

/// Expects of a book for five what room it has.
fn expect_room_left(rt: &impl Abort, alloc: Global) {
    let mut book = book(rt, alloc, EDGE, 5);
    assert!(rt; book.room() == 5);
    assert!(rt; place(rt, &mut book, 0, 0) == Ok(0));
    assert!(rt; book.room() == 4);
    expect_room(rt, &mut book);
    drop(book);
}

#[test]
fn room_is_what_a_book_can_still_take(rt: HostRuntime) {
    expect_room_left(&rt, rt.alloc());
}
