//! The feeds of a desk.
ghost use Rattle.std.specs.Prelude.{◌≡◌, MatchResult, length};
ghost use mathlib.Core.List.{IsPrefix};
ghost use Rattle.ds_checker.specs.Acceptance.{IsAcceptable};
ghost use Rattle.ds_desk.specs.Histories.{flows_behind, table_behind};

use crate::fault::LookFault;
use crate::log::{Front, Naming};
use crate::page::{OneDesk, Sees, Shown};
use ds_broker::Serial;
use ds_checker::Accepted;
use left_right::reader::{Reader, Reading};
use meter_fabric_base::Numbered;
use std::marker::Model;

/// A reader of a desk's tables, in any thread. It waits for nobody, and takes no memory. Contracts see it as the
/// commands that it knows of: those behind the tables that it saw, and behind the answers that it learned.
#[derive(Drop)]
pub struct Feed<J: Naming> {
    reader: Reader<Shown, (), OneDesk<J>>,
    known: Front<J>,
}

impl<J: Naming> Model for Feed<J> {
    ghost use Rattle.std.specs.Prelude.{List};
    ghost use Rattle.ds_broker.specs.declared.command.Command.{Command};

    ghost Value = { List Command };

    ghost view = { λ f. f.known };
}

/// A look at a desk's table. It is not `Drop`: `end` gives the feed back. Contracts see it as the history behind that
/// table, a beginning of the desk's.
pub struct Seen<J: Naming> {
    reading: Reading<Shown, (), OneDesk<J>>,
    front: Front<J>,
}

impl<J: Naming> Model for Seen<J> {
    ghost use Rattle.std.specs.Prelude.{◌≡◌, List};
    ghost use Rattle.std.specs.Arc.{arc_value};
    ghost use Rattle.ds_broker.specs.declared.command.Command.{Command};
    ghost use Rattle.ds_desk.specs.Acts.{story_in};

    ghost Value = { List Command };

    ghost view = { λ s. s.front };

    ghost invariant = { λ s. ((arc_value s.reading.part.value.page).table.domain ≡ J.opening.domain)
        × (s.front ≡ story_in (arc_value s.reading.part.value.page).tried.seen.log) };
}

impl<J: Naming> Feed<J> {
    /// A feed that knows of no command but those of a front.
    pub(crate) fn new(reader: Reader<Shown, (), OneDesk<J>>, known: Front<J>) -> Self
        ensures { result ≡ known }
    {
        Feed { reader, known }
    }

    /// What it knows of.
    pub fn known(&self) -> &Front<J>
        ensures { result.now ≡ self.now }
    {
        &self.known
    }

    /// Takes in what an answer rests on: the history behind each later look has it.
    pub fn learn(self, front: &Front<J>) -> Self
        ensures seen { IsPrefix self result }
        ensures learned { IsPrefix front.now result }
    {
        let Feed { reader, known } = self;
        let known = known.longer(front);
        Feed { reader, known }
    }

    /// Looks at the newest table. Its history has all that the feed knows of.
    ///
    /// Else the feed comes back, as it was: with `DeskGone` where the desk is gone; with `PageBehind` where the page
    /// that is shown does not go as far as what the feed knows of.
    pub fn look(self) -> Result<Seen<J>, (Self, LookFault)>
        ensures { MatchResult result (λ seen. IsPrefix self seen) (λ unseen. unseen.0 ≡ self) }
    {
        let Feed { reader, known } = self;
        let reading = match reader.enter_as::<Sees<J>>() {
            Ok(reading) => reading,
            Err(reader) => return Err((Feed { reader, known }, LookFault::DeskGone)),
        };
        let front: Option<Front<J>> = reading.get().page.front();
        if let Some(front) = front {
            if front.covers(&known) {
                return Ok(Seen { reading, front });
            }
        }
        let reader = reading.leave();
        Err((Feed { reader, known }, LookFault::PageBehind))
    }
}

impl<J: Naming> Seen<J> {
    /// How many commands are behind the table.
    pub fn serial(&self) -> Serial
        ensures { result ≡ length self.now }
    {
        self.front.serial()
    }

    /// The table: what those commands hold, with the least certificate.
    pub fn table(&self) -> &Accepted
        ensures value { result.now ≡ table_behind J.opening.domain self.now }
        ensures acceptable { IsAcceptable result.now }
    {
        self.reading.get().page.table.accepted()
    }

    /// The flows of its contracts, in order: each is the contract's id less 1.
    pub fn flows(&self) -> &[u32]
        ensures { result.now ≡ flows_behind self.now }
    {
        self.reading.get().page.flows.as_slice()
    }

    /// The table with the flows of its contracts, by which packets of them begin.
    pub fn numbered(&self) -> Numbered<'_>
        ensures table { result.accepted.now ≡ table_behind J.opening.domain self.now }
        ensures flows { result.flows.now ≡ flows_behind self.now }
    {
        Numbered {
            accepted: self.table(),
            flows: self.flows(),
        }
    }

    /// The history behind the table, to be compared with others of the desk.
    pub fn front(&self) -> &Front<J>
        ensures { result.now ≡ self.now }
    {
        &self.front
    }

    /// Ends the look. The feed knows what was seen.
    pub fn end(self) -> Feed<J>
        ensures { result ≡ self }
    {
        let Seen { reading, front } = self;
        Feed {
            reader: reading.leave(),
            known: front,
        }
    }
}
