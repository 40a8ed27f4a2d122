//! The log of a desk: the commands that it tried and kept. The log exists in the proofs alone; what stands here is its
//! length, and tokens of beginnings that were seen.
ghost use Rattle.std.specs.Prelude.{◌≡◌, ◌+◌, ◌≤◌, ◌⊎◌, ◌++◌, ◌∷◌, [], None, IfSome, MatchBool, length, nat_le};
ghost use mathlib.Core.List.{IsPrefix};
ghost use Rattle.ds_broker.specs.Requests.{AreUnrefused};
ghost use Rattle.ds_desk.specs.Acts.{history_in};
ghost use Rattle.ds_desk.specs.Histories.{book_behind};
ghost use Rattle.ds_desk.specs.Rules.{head_of};

use ds_broker::{Command, Serial};
use logbook::{Gain, Offer, Plain, Play, Rule, Seen, Start, Word};
use std::marker::{Brand, Model, PhantomData};

/// What a desk does to its log.
pub enum Act {
    /// A command that is to be kept next.
    Tried(Command),
    /// The command that was tried last is accepted.
    Kept,
}

/// The rule of a log.
pub struct Law;

impl Rule<Act, u64> for Law {
    ghost use Rattle.std.specs.Prelude.{[]};
    ghost use base.Fml.{ftrue};
    ghost use Rattle.ds_desk.specs.Rules.{IsCounted, IsKeptAt};

    ghost holds = { λ cells log. IsCounted cells log };

    ghost first = { [] };

    ghost hinted = { IsKeptAt };

    ghost shows = { λ log. [] };

    ghost keeps = { λ names log. ftrue };

    ghost moves = { λ ask before after answer. Unit {0} };
}

/// A step trades nothing.
struct Nothing;

impl Gain<Act, u64> for Nothing {
    ghost use base.Fml.{ftrue};

    ghost after = { λ names about answer. ftrue };
}

/// A step that adds an act.
struct Add;

impl Play<Act, u64> for Add {
    ghost use Rattle.ds_desk.specs.Rules.{Adds};

    ghost then = { Adds };
}

/// The act that tries a command.
pub struct Trying;

impl Plain<Command, Act, u64> for Trying {
    ghost use Rattle.std.specs.Prelude.{None};
    ghost use Rattle.ds_desk.specs.declared.log.Act.TheVariants.{Tried};

    ghost ask = { λ command. Tried command };

    ghost state = { λ command. None };
}

/// The act that keeps what was tried.
pub struct Keeping;

impl Plain<(), Act, u64> for Keeping {
    ghost use Rattle.std.specs.Prelude.{None};
    ghost use Rattle.ds_desk.specs.declared.log.Act.TheVariants.{Kept};

    ghost ask = { λ nothing. Kept };

    ghost state = { λ nothing. None };
}

/// Which desk it is: the log of its history, and the book that it opened with. The call that opens a desk picks it.
pub trait Naming {
    ghost use Rattle.logbook.specs.Pages as pages;
    ghost use Rattle.ds_broker.specs.Books as books;

    ghost log: { pages.Book };

    ghost opening: { books.Book };
}

impl Naming for Brand {
    ghost use Rattle.std.specs.Prelude.{[]};
    ghost use Rattle.ds_domain_base.specs.Domains.{bare};
    ghost use Rattle.ds_domain_base.specs.declared.parts.Version.TheVariants.{One};

    ghost log = { record { number = 0; log_name = 0; cells_name = 0 } };

    ghost opening = { record { domain = bare One; limits = record { table = 1; history = 1 }; history = [] } };
}

/// An empty log, for a desk that is to be opened. Contracts see which one it is.
#[derive(Drop)]
pub struct Opened {
    head: Word<Act, u64, Law>,
    end: End,
}

impl Model for Opened {
    ghost use Rattle.std.specs.Prelude.{◌≡◌, []};
    ghost use Rattle.logbook.specs.Pages as pages;
    ghost use Rattle.ds_desk.specs.Rules.{head_of};

    ghost Value = { pages.Book };

    ghost view = { λ o. o.end.seen.book };

    ghost invariant = { λ o. (o.end.seen.log ≡ []) × (o.head ≡ head_of o.end.seen.book) };
}

impl Opened {
    /// An empty log. It takes no memory.
    pub fn new() -> Self {
        let (seen, mut first, _second) = Seen::open(Start::alone(), 0, 0);
        Opened {
            head: Word::tracked(0, &mut first),
            end: End { acts: 0, seen },
        }
    }

    /// The log under the name of its desk, and its end.
    pub(crate) fn named<J: Naming>(self) -> (Log<J>, End)
        requires { self ≡ J.log }
        ensures { (result.1.seen.log ≡ []) × (result.1.seen.book ≡ J.log) }
    {
        let Opened { head, end } = self;
        (
            Log {
                head,
                of: PhantomData,
            },
            end,
        )
    }
}

/// The length of a desk's log.
#[derive(Drop)]
pub(crate) struct Log<J: Naming> {
    head: Word<Act, u64, Law>,
    of: PhantomData<J>,
    ghost head_is: { head ≡ head_of J.log },
}

/// All acts of a log, as far as they were seen.
#[derive(Drop)]
pub struct End {
    pub(crate) acts: u64,
    pub(crate) seen: Seen<Act, u64, Law>,
    pub ghost whole: { acts ≡ length seen.log },
}

impl End {
    /// A copy.
    pub(crate) fn again(&self) -> End
        ensures { result ≡ self.now }
    {
        End {
            acts: self.acts,
            seen: self.seen.again(),
        }
    }
}

impl<J: Naming> Log<J> {
    /// Adds an act to all that was seen. `None` where the log is longer, or full.
    pub(crate) fn add<X, M: Plain<X, Act, u64>>(&self, end: &End, about: &X) -> Option<End>
        requires log { end.now.seen.book ≡ J.log }
        requires plain { M.state about.now ≡ None }
        ensures { IfSome result (λ longer. (longer.seen.log ≡ end.now.seen.log ++ M.ask about.now ∷ [])
            × (longer.seen.book ≡ J.log)) }
    {
        if end.acts >= 1 << 62 {
            return None;
        }
        let mut seen = end.seen.again();
        let mut offer: Offer<Act, u64, Law, Nothing> = seen.plain::<Nothing, X, M>(about);
        let mut pen = seen.no_pen();
        let found = self
            .head
            .compare_exchange::<Add, Nothing>(
                end.acts,
                end.acts + 1,
                &mut seen,
                &mut offer,
                &mut pen,
            );
        if found == end.acts {
            Some(End {
                acts: end.acts + 1,
                seen,
            })
        } else {
            None
        }
    }
}

/// A beginning of a desk's history: what an answer rests on, or what a feed saw. Contracts see it as the commands in
/// it. Nothing stood against any of them when its turn came.
///
/// Of two fronts of a desk the one begins the other.
#[derive(Drop)]
pub struct Front<J: Naming> {
    pub(crate) acts: u64,
    pub(crate) serial: Serial,
    pub(crate) seen: Seen<Act, u64, Law>,
    pub(crate) of: PhantomData<J>,
}

impl<J: Naming> Model for Front<J> {
    ghost use Rattle.std.specs.Prelude.{◌≡◌, ◌≤◌, List, [], length, take};
    ghost use Rattle.ds_broker.specs.Requests.{AreUnrefused};
    ghost use Rattle.ds_broker.specs.declared.command.Command.{Command};
    ghost use Rattle.ds_desk.specs.Acts.{history_in};
    ghost use Rattle.ds_desk.specs.Histories.{book_behind};

    ghost Value = { List Command };

    ghost view = { λ f. history_in (take f.acts f.seen.log) };

    ghost invariant = { λ f. (f.acts ≤ length f.seen.log) × (f.serial ≡ length (history_in (take f.acts f.seen.log)))
        × (f.seen.book ≡ J.log)
        × AreUnrefused (book_behind J.opening []) (history_in (take f.acts f.seen.log)) };
}

impl<J: Naming> Front<J> {
    /// All that was seen, whose history has a number.
    pub(crate) fn at(end: &End, serial: Serial) -> Self
        requires log { end.now.seen.book ≡ J.log }
        requires serial { serial ≡ length (history_in end.now.seen.log) }
        requires unrefused { AreUnrefused (book_behind J.opening []) (history_in end.now.seen.log) }
        ensures { result ≡ history_in end.now.seen.log }
    {
        Front {
            acts: end.acts,
            serial,
            seen: end.seen.again(),
            of: PhantomData,
        }
    }

    /// How many commands were accepted up to there: those against which nothing stood.
    pub fn serial(&self) -> Serial
        ensures count { result ≡ length self.now }
        ensures unrefused { AreUnrefused (book_behind J.opening []) self.now }
    {
        self.serial
    }

    /// A copy.
    pub fn again(&self) -> Front<J>
        ensures { result ≡ self.now }
    {
        Front {
            acts: self.acts,
            serial: self.serial,
            seen: self.seen.again(),
            of: PhantomData,
        }
    }

    /// Whether it goes at least as far as another: whether it has as many accepted commands. Acts do not count: of two
    /// fronts with one history the one may have a tried command more, which was not kept.
    pub(crate) fn covers(&self, other: &Front<J>) -> bool
        ensures far { result ≡ nat_le (length other.now) (length self.now) }
        ensures begins { MatchBool result (IsPrefix other.now self.now) (IsPrefix self.now other.now) }
    {
        let mut both = self.seen.again();
        both.learn(&other.seen);
        other.serial.get() <= self.serial.get()
    }

    /// The longer of two, which the other begins.
    pub fn longer(&self, other: &Front<J>) -> Front<J>
        ensures one { (result ≡ self.now) ⊎ (result ≡ other.now) }
        ensures this { IsPrefix self.now result }
        ensures that { IsPrefix other.now result }
    {
        if self.covers(other) {
            self.again()
        } else {
            other.again()
        }
    }
}
