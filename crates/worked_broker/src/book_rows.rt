use crate::books::{Opened, Step, Why, book_over, expect_steps, limits};
use ds_broker::{Book, BrokerRefusal, Entry, Limits};
use ds_domain_base::Name;
use std::alloc::Global;
use std::process::Abort;
use worked_texts::{
    A, B, LINK, LOW_METER, METER, PEAKED, PLAIN, PORT, SHARE, SINGLE_RATE, TRUSTED,
};

/// Two contracts over a meter that has room for the burst of one.
const TIGHT: &[&str] = &[LOW_METER, PORT, LINK, TRUSTED, A, SHARE, TRUSTED, B, SHARE];

/// The same over a meter that has room for both.
const WIDE: &[&str] = &[METER, PORT, LINK, TRUSTED, A, SHARE, TRUSTED, B, SHARE];

/// That meter, a contract without a peak, and one with a peak.
const EXCESS: &[&str] = &[SINGLE_RATE, TRUSTED, A, PLAIN, TRUSTED, B, PEAKED];

/// What a row is about, the parts of a domain, how many contracts and commands its book takes, and what it is asked.
type Asked = (
    &'static str,
    &'static [&'static str],
    (u32, u32),
    &'static [Step],
);

static BOOKS: [Asked; 5] = [
    (
        "commands_that_name_nothing_are_refused",
        WIDE,
        (4096, 65_536),
        &[
            Step::Reserve(0, Ok((1, 1, 0))),
            Step::Release(1, 5, Ok(2)),
            Step::Release(1, 7, Err(Why::AlreadyReleased)),
            Step::Release(9, 7, Err(Why::UnknownId)),
            Step::Reserve(0, Err(Why::Twice)),
        ],
    ),
    (
        "a_full_table_takes_no_contract",
        WIDE,
        (1, 65_536),
        &[
            Step::Reserve(0, Ok((1, 1, 0))),
            Step::Reserve(1, Err(Why::TableFull)),
        ],
    ),
    // Unknown ids are told first.
    (
        "a_full_history_takes_no_command",
        WIDE,
        (4096, 1),
        &[
            Step::Reserve(0, Ok((1, 1, 0))),
            Step::Release(1, 5, Err(Why::HistoryFull)),
            Step::Release(9, 5, Err(Why::UnknownId)),
            Step::Reserve(1, Err(Why::HistoryFull)),
        ],
    ),
    // With one contract that may send yellow packets, all are held against the excess bucket.
    (
        "yellow_packets_of_one_are_counted_with_green_ones_of_all",
        EXCESS,
        (4096, 65_536),
        &[
            Step::Reserve(0, Ok((1, 1, 0))),
            Step::Reserve(1, Err(Why::NoRoom(1101, 1000))),
        ],
    ),
    // What is granted behind a release at the last moment begins then.
    (
        "the_last_moment_is_kept",
        WIDE,
        (4096, 65_536),
        &[
            Step::Reserve(0, Ok((1, 1, 0))),
            Step::Release(1, 9_223_372_036_854_775_807, Ok(2)),
            Step::Reserve(1, Ok((2, 3, 9_223_372_036_854_775_807))),
        ],
    ),
];

/// Expects of a row what its book answers to each step.
fn expect_asked(rt: &impl Abort, alloc: Global, (name, parts, most, steps): &Asked) {
    let mut opened = book_over(rt, alloc, parts, limits(rt, most.0, most.1));
    expect_steps(rt, alloc, name, &mut opened, steps);
    drop(opened);
}

#[test]
fn what_books_answer_to_commands(rt: HostRuntime) {
    for row in &BOOKS {
        expect_asked(&rt, rt.alloc(), row);
    }
}

/// The book of the domain that has room for the burst of one contract.
pub fn tight(rt: &impl Abort, alloc: Global) -> Opened {
    book_over(rt, alloc, TIGHT, limits(rt, 4096, 65_536))
}

/// A released share stays held until its hold has passed, and is sold anew then.
static SOLD_ANEW: [Step; 8] = [
    Step::Reserve(0, Ok((1, 1, 0))),
    Step::Release(1, 1_000_000_000, Ok(2)),
    Step::Reserve(1, Err(Why::NoGreenRoom(9000, 4500))),
    Step::Retire(1, 1_005_999_999, Err(Why::HoldLeft(1))),
    Step::Retire(1, 1_006_000_000, Ok(3)),
    Step::Reserve(1, Ok((2, 4, 1_006_000_000))),
    Step::Retire(1, 0, Err(Why::UnknownId)),
    Step::Retire(2, 0, Err(Why::NotReleased)),
];

/// Expects the entry of the second contract.
fn expect_entry(rt: &impl Abort, entry: &Entry) {
    assert!(rt; entry.id == 2);
    assert!(rt; entry.name == Name::new("b").expect(rt, "a name"));
    assert!(rt; entry.since.get() == 1_006_000_000);
    assert!(rt; entry.until.is_none());
}

/// Expects that a book lists the second contract alone.
fn expect_listed(rt: &impl Abort, alloc: Global, book: &Book) {
    let list = book.list(alloc).expect(rt, "memory");
    assert!(rt; list.len() == 1);
    expect_entry(rt, &list[0]);
    assert!(rt; book.entry(2) == Some(list[0]));
    drop(list);
    assert!(rt; book.entry(1).is_none());
}

/// Expects that a book has accepted four commands, and holds one contract.
fn expect_sums(rt: &impl Abort, book: &Book) {
    assert!(rt; book.serial().get() == 4);
    assert!(rt; book.history().len() == 4);
    assert!(rt; book.table().contracts().len() == 1);
    assert!(rt; book.room().table == 4095);
    assert!(rt; book.room().history == 65_532);
}

/// Expects of that book what comes of a share that is sold anew.
fn expect_sold_anew(rt: &impl Abort, alloc: Global) {
    let mut opened = tight(rt, alloc);
    expect_steps(rt, alloc, "sold anew", &mut opened, &SOLD_ANEW);
    expect_listed(rt, alloc, &opened.book);
    expect_sums(rt, &opened.book);
    drop(opened);
}

#[test]
fn a_share_is_sold_anew_when_its_hold_has_passed(rt: HostRuntime) {
    expect_sold_anew(&rt, rt.alloc());
}

#[test]
fn limits_stay_within_a_book(rt: HostRuntime) {
    assert!(rt; Limits::new(0, 1).is_err());
    assert!(rt; Limits::new(1, 0).is_err());
    assert!(rt; Limits::new(65_537, 1).is_err());
    assert!(rt; Limits::new(1, 16_777_217).is_err());
    let limits = limits(&rt, 65_536, 16_777_216);
    assert!(rt; limits.table() == 65_536);
    assert!(rt; limits.history() == 16_777_216);
    assert!(rt; BrokerRefusal::HoldLeft(1).code() == 9);
}
