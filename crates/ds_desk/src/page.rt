//! The pages that feeds see, each with a whole table.
ghost use Rattle.std.specs.Prelude.{◌≡◌, ◌∷◌, ◌++◌, [], IfSome, false, length};
ghost use Rattle.std.specs.Arc.{arc_value};
ghost use Rattle.ds_broker.specs.Requests.{AreUnrefused};
ghost use Rattle.ds_desk.specs.declared.log.Act.TheVariants.{Kept};
ghost use Rattle.ds_desk.specs.Acts.{story_in};
ghost use Rattle.ds_desk.specs.Histories.{book_behind, flows_behind, table_behind};

use crate::log::{Act, End, Front, Law, Naming};
use crossbeam_utils::rule::{Outcome, Protocol};
use ds_broker::{Next, Serial, SharedTable};
use left_right::Absorb;
use logbook::Word;
use std::alloc::{AllocError, Global};
use std::marker::{Model, PhantomData};
use std::sync::Arc;

/// A table, and which commands it stands for: those that are accepted once the one that was tried last is kept.
#[derive(Drop)]
pub struct Page {
    pub(crate) table: SharedTable,
    pub(crate) flows: Vec<u32>,
    pub(crate) serial: Serial,
    pub(crate) tried: End,
    /// How many acts end with the one that kept it; 0 as long as none has.
    kept: Word<Act, u64, Law>,
    pub ghost table_is: { table ≡ table_behind table.domain (story_in tried.seen.log) },
    pub ghost flows_are: { flows.items ≡ flows_behind (story_in tried.seen.log) },
    pub ghost counted: { serial ≡ length (story_in tried.seen.log) },
    pub ghost hint: { (kept.tracked ≡ false) × (kept.book ≡ tried.seen.book) },
}

impl Page {
    /// A page that is not kept yet.
    pub(crate) fn new(table: SharedTable, flows: Vec<u32>, serial: Serial, tried: End) -> Page
        requires table { table ≡ table_behind table.domain (story_in tried.seen.log) }
        requires flows { flows.items ≡ flows_behind (story_in tried.seen.log) }
        requires serial { serial ≡ length (story_in tried.seen.log) }
        ensures { (result.table ≡ table) × (result.tried ≡ tried) × (result.flows ≡ flows) }
    {
        let kept = Word::hint(&tried.seen);
        Page {
            table,
            flows,
            serial,
            tried,
            kept,
        }
    }

    /// What it shows.
    pub(crate) fn into_next(self) -> Next
        ensures { (result.table ≡ self.table) × (result.flows ≡ self.flows) }
    {
        let Page {
            table,
            flows,
            serial,
            tried: _tried,
            kept: _kept,
        } = self;
        Next {
            table,
            flows,
            serial,
        }
    }

    /// Notes that the next act kept it.
    pub(crate) fn keep(&self, end: &End)
        requires book { end.now.seen.book ≡ self.now.tried.seen.book }
        requires kept { end.now.seen.log ≡ self.now.tried.seen.log ++ Kept ∷ [] }
    {
        self.kept.compare_exchange_hint(0, end.acts, &end.seen);
    }

    /// What it stands for, if it was kept.
    pub(crate) fn front<J: Naming>(&self) -> Option<Front<J>>
        requires book { self.now.tried.seen.book ≡ J.log }
        requires unrefused { AreUnrefused (book_behind J.opening []) (story_in self.now.tried.seen.log) }
        ensures { IfSome result (λ front. front ≡ story_in self.now.tried.seen.log) }
    {
        let mut seen = self.tried.seen.again();
        let acts = self.kept.load_hint(&mut seen);
        if acts > 0 && acts - 1 == self.tried.acts {
            Some(Front {
                acts,
                serial: self.serial,
                seen,
                of: PhantomData,
            })
        } else {
            None
        }
    }
}

/// What is shown: the newest page.
#[derive(Drop)]
pub struct Shown {
    pub(crate) page: Arc<Page, Global>,
}

impl Absorb<Shown> for Shown {
    type State = Page;

    ghost use Rattle.std.specs.Arc.{arc_value};

    ghost state = { λ shown. arc_value shown.page };

    ghost applied = { λ page next. arc_value next.page };

    fn absorb_first(&mut self, operation: &Shown, _other: &Shown) -> Result<(), AllocError> {
        self.page = Arc::try_clone(&operation.page)?;
        Ok(())
    }
}

/// The rule of what is shown: each page is of one desk, and stands for commands against which nothing stood.
pub struct OneDesk<J: Naming> {
    of: PhantomData<J>,
}

impl<J: Naming> Protocol<Shown, ()> for OneDesk<J> {
    ghost use Rattle.std.specs.Arc.{arc_value};
    ghost use Rattle.ds_desk.specs.Pages.{IsOfDesk};

    ghost holds = { λ shown views. IsOfDesk J.log J.opening (arc_value shown.page) };

    ghost first = { tt };
}

/// What a look, and a turn to another page, tells: of which desk the page was.
pub struct Sees<J: Naming> {
    of: PhantomData<J>,
}

impl<J: Naming> Outcome<Shown, ()> for Sees<J> {
    ghost use Rattle.std.specs.Arc.{arc_value};
    ghost use Rattle.ds_desk.specs.Pages.{IsOfDesk};

    ghost then = { λ before shown next after. IsOfDesk J.log J.opening (arc_value shown.page) };
}
