use ds_broker::{Book, BrokerRefusal, Limits};
use ds_checker::Refusal;
use ds_domain::parse;
use ds_domain_base::{BoxedContract, Contract, DomainFault, Field, Kind, Name, Section};
use moment_core::Moment;
use std::alloc::Global;
use std::process::Abort;
use worked_texts::joined;

/// A book, and the contracts that may be reserved in it.
#[derive(Drop)]
pub struct Opened {
    /// The book.
    pub book: Book,
    /// The contracts.
    pub contracts: Vec<BoxedContract>,
}

/// Limits of so many contracts and so many commands.
pub fn limits(rt: &impl Abort, table: u32, history: u32) -> Limits {
    Limits::new(table, history).expect(rt, "limits of a book")
}

/// The book of the domain of a text, with nothing in it, and the contracts of the text.
fn opened_text(rt: &impl Abort, alloc: Global, text: &str, limits: Limits) -> Opened {
    let (domain, contracts) = parse(alloc, text.as_bytes()).expect(rt, text);
    match Book::new(alloc, domain, limits) {
        Ok(book) => Opened { book, contracts },
        Err(_refused) => panic!(rt; "no book"),
    }
}

/// The book of the domain of the text of these parts, and the contracts of the text.
pub fn book_over(rt: &impl Abort, alloc: Global, parts: &[&str], limits: Limits) -> Opened {
    let text = joined(alloc, parts).expect(rt, "memory");
    let opened = opened_text(rt, alloc, text.as_str(), limits);
    drop(text);
    opened
}

/// What a contract is granted as: its id, the command's serial, and its beginning.
pub type Granted = (u32, u32, u64);

/// Why a book refuses.
pub enum Why {
    /// The name of a contract in the book is given again.
    Twice,
    /// The table is full.
    TableFull,
    /// The green bytes that are needed at the meter `m`, and those that there are.
    NoGreenRoom(u128, u128),
    /// The same of green and yellow bytes.
    NoRoom(u128, u128),
    /// The id is unknown.
    UnknownId,
    /// The contract is released already.
    AlreadyReleased,
    /// The history is full.
    HistoryFull,
    /// The contract is not released.
    NotReleased,
    /// So much is left of its hold.
    HoldLeft(u128),
}

/// What is asked of a book, and what it answers: what it grants, or the command's serial, or why it refuses.
pub enum Step {
    /// A contract of the text is reserved.
    Reserve(usize, Result<Granted, Why>),
    /// An id is released at a moment.
    Release(u32, u64, Result<u32, Why>),
    /// An id is retired at a moment.
    Retire(u32, u64, Result<u32, Why>),
}

/// What a contract of a text is granted as, or why it is refused.
fn granted(book: &mut Book, contract: Contract) -> Result<Granted, BrokerRefusal> {
    match book.reserve(contract) {
        Ok(grant) => Ok((grant.id, grant.serial.get(), grant.since.get())),
        Err((contract, refusal)) => {
            drop(contract);
            Err(refusal)
        }
    }
}

/// What a copy of a contract is granted as, or why it is refused.
fn reserved(
    rt: &impl Abort,
    alloc: Global,
    book: &mut Book,
    contract: &Contract,
) -> Result<Granted, BrokerRefusal> {
    granted(book, contract.copy(alloc).expect(rt, "memory"))
}

/// A moment.
fn moment(rt: &impl Abort, nanoseconds: u64) -> Moment {
    Moment::new(nanoseconds).expect(rt, "a moment")
}

/// The serial of a release at a moment, or why it is refused.
fn released(book: &mut Book, id: u32, at: Moment) -> Result<u32, BrokerRefusal> {
    match book.release(id, at) {
        Ok(serial) => Ok(serial.get()),
        Err(refusal) => Err(refusal),
    }
}

/// The serial of a retire at a moment, or why it is refused.
fn retired(book: &mut Book, id: u32, at: Moment) -> Result<u32, BrokerRefusal> {
    match book.retire(id, at) {
        Ok(serial) => Ok(serial.get()),
        Err(refusal) => Err(refusal),
    }
}

/// The meter `m`.
fn meter(rt: &impl Abort) -> Name {
    Name::new("m").expect(rt, "a name")
}

/// The refusal of a contract whose name is given again.
const TWICE: BrokerRefusal = BrokerRefusal::Contract(DomainFault {
    kind: Kind::Twice,
    section: Section::Contract,
    index: 0,
    field: Field::Name,
});

/// The checker's refusal of green bytes at the meter `m`.
fn no_green_room(rt: &impl Abort, needed: u128, available: u128) -> BrokerRefusal {
    BrokerRefusal::Checker(Refusal::GreenBurst {
        meter: meter(rt),
        needed,
        available,
    })
}

/// The checker's refusal of green and yellow bytes there.
fn no_room(rt: &impl Abort, needed: u128, available: u128) -> BrokerRefusal {
    BrokerRefusal::Checker(Refusal::AllBurst {
        meter: meter(rt),
        needed,
        available,
    })
}

/// The refusal that a row names.
fn refusal(rt: &impl Abort, why: &Why) -> BrokerRefusal {
    match *why {
        Why::Twice => TWICE,
        Why::TableFull => BrokerRefusal::TableFull,
        Why::NoGreenRoom(needed, available) => no_green_room(rt, needed, available),
        Why::NoRoom(needed, available) => no_room(rt, needed, available),
        Why::UnknownId => BrokerRefusal::UnknownId,
        Why::AlreadyReleased => BrokerRefusal::AlreadyReleased,
        Why::HistoryFull => BrokerRefusal::HistoryFull,
        Why::NotReleased => BrokerRefusal::NotReleased,
        Why::HoldLeft(nanoseconds) => BrokerRefusal::HoldLeft(nanoseconds),
    }
}

/// The answer that a row names.
fn wanted<T: Copy>(rt: &impl Abort, answer: &Result<T, Why>) -> Result<T, BrokerRefusal> {
    match answer {
        Ok(answer) => Ok(*answer),
        Err(why) => Err(refusal(rt, why)),
    }
}

/// Expects what a book answers to a step.
fn expect_step(
    rt: &impl Abort,
    alloc: Global,
    (name, book, contracts): (&str, &mut Book, &[BoxedContract]),
    step: &Step,
) {
    match step {
        Step::Reserve(place, answer) => {
            let contract = contracts.get(*place).expect(rt, name);
            let found = reserved(rt, alloc, book, contract.contract());
            assert_eq!(rt; (name, found), (name, wanted(rt, answer)));
        }
        Step::Release(id, at, answer) => {
            let found = released(book, *id, moment(rt, *at));
            assert_eq!(rt; (name, found), (name, wanted(rt, answer)));
        }
        Step::Retire(id, at, answer) => {
            let found = retired(book, *id, moment(rt, *at));
            assert_eq!(rt; (name, found), (name, wanted(rt, answer)));
        }
    }
}

/// Expects what a book answers to each step.
pub fn expect_steps(
    rt: &impl Abort,
    alloc: Global,
    name: &str,
    opened: &mut Opened,
    steps: &[Step],
) {
    for step in steps {
        let asked = (name, &mut opened.book, opened.contracts.as_slice());
        expect_step(rt, alloc, asked, step);
    }
}
