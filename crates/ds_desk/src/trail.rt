//! Pages that are no longer shown. The earlier of them is brought up to date in the time of a few commands, in place of
//! a copy of the whole table.
ghost use Rattle.std.specs.Prelude.{◌≡◌, None, IfOk, IfSome};
ghost use Rattle.std.specs.Arc.{arc_value};
ghost use Rattle.ds_broker.specs.Books.{table_of};
ghost use Rattle.ds_broker.specs.Changes.{Applies, flows_changed, table_changed};
ghost use Rattle.ds_broker.specs.Entries.{flows_of};
ghost use Rattle.ds_desk.specs.Pages.{LeadsOn, LeadsTo, LeadsToOlder};
ghost use Rattle.ds_desk.specs.declared.page.Page.{Page as PageRecord};

use crate::page::Page;
use ds_broker::{Book, Change, Next};
use std::alloc::{AllocError, Global};
use std::sync::Arc;

/// A page that was shown, and the change that leads from it to the one that was shown next.
#[derive(Drop)]
pub(crate) struct Older {
    pub(crate) page: Arc<Page, Global>,
    pub(crate) change: Change,
}

/// What a book would hold with a change: the earlier of two older pages with the changes behind it, or else a copy.
pub(crate) fn next(
    alloc: Global,
    book: &Book,
    oldest: &mut Option<Older>,
    older: &Option<Older>,
    change: &Change,
) -> Result<Next, AllocError>
    requires shown { (shown : PageRecord) × (shown.table ≡ table_of book.now) × (shown.flows.items ≡ flows_of book.now)
        × LeadsTo older.now shown × LeadsToOlder oldest.old older.now }
    requires applies { Applies change.now.step (table_of book.now) (flows_of book.now) }
    ensures taken { oldest.new ≡ None }
    ensures table { IfOk result (λ next. next.table ≡ table_changed change.now.step (table_of book.now)) }
    ensures flows { IfOk result (λ next. next.flows.items ≡ flows_changed change.now.step (flows_of book.now)) }
    ensures serial { IfOk result (λ next. next.serial ≡ change.now.serial) }
{
    match reused(alloc, oldest, older, change) {
        Some(next) => Ok(next),
        None => book.with_change(alloc, change),
    }
}

/// The earlier of two older pages, with the changes behind it and one more. None where nobody left it, and where it is
/// of no use: where another has it, where memory runs out, or where it keeps far more room than it needs.
fn reused(
    alloc: Global,
    oldest: &mut Option<Older>,
    older: &Option<Older>,
    change: &Change,
) -> Option<Next>
    requires { (shown : PageRecord) × LeadsTo older.now shown × LeadsToOlder oldest.old older.now
        × Applies change.now.step shown.table shown.flows.items }
    ensures taken { oldest.new ≡ None }
    ensures table { (shown : PageRecord) → LeadsTo older.now shown
        → IfSome result (λ next. next.table ≡ table_changed change.now.step shown.table) }
    ensures flows { (shown : PageRecord) → LeadsTo older.now shown
        → IfSome result (λ next. next.flows.items ≡ flows_changed change.now.step shown.flows.items) }
    ensures serial { IfSome result (λ next. next.serial ≡ change.now.serial) }
{
    let taken = oldest.take();
    match older {
        Some(older) => match taken {
            Some(oldest) => brought_up(alloc, oldest, older, change),
            None => None,
        },
        None => None,
    }
}

/// A page with its change, and with those of the page behind it and of one more.
fn brought_up(alloc: Global, oldest: Older, older: &Older, change: &Change) -> Option<Next>
    requires { (shown : PageRecord) × LeadsOn older.now.change.step (arc_value older.now.page) shown
        × LeadsOn oldest.change.step (arc_value oldest.page) (arc_value older.now.page)
        × Applies change.now.step shown.table shown.flows.items }
    ensures table { (shown : PageRecord) → LeadsOn older.now.change.step (arc_value older.now.page) shown
        → IfSome result (λ next. next.table ≡ table_changed change.now.step shown.table) }
    ensures flows { (shown : PageRecord) → LeadsOn older.now.change.step (arc_value older.now.page) shown
        → IfSome result (λ next. next.flows.items ≡ flows_changed change.now.step shown.flows.items) }
    ensures serial { IfSome result (λ next. next.serial ≡ change.now.serial) }
{
    let Older {
        page,
        change: first,
    } = oldest;
    let Ok(page) = Arc::try_unwrap(page) else {
        return None;
    };
    let next = page.into_next();
    if next.table.accepted().is_roomy() {
        return None;
    }
    match taken_in(alloc, next, &first, &older.change, change) {
        Ok(next) => Some(next),
        Err(_) => None,
    }
}

/// What is held with three changes, one after the other; `AllocError` where memory runs out.
fn taken_in(
    alloc: Global,
    next: Next,
    first: &Change,
    second: &Change,
    third: &Change,
) -> Result<Next, AllocError>
    requires first { Applies first.now.step next.table next.flows.items }
    requires second { Applies second.now.step (table_changed first.now.step next.table)
        (flows_changed first.now.step next.flows.items) }
    requires third { Applies third.now.step (table_changed second.now.step (table_changed first.now.step next.table))
        (flows_changed second.now.step (flows_changed first.now.step next.flows.items)) }
    ensures table { IfOk result (λ taken. taken.table
        ≡ table_changed third.now.step (table_changed second.now.step (table_changed first.now.step next.table))) }
    ensures flows { IfOk result (λ taken. taken.flows.items ≡ flows_changed third.now.step
        (flows_changed second.now.step (flows_changed first.now.step next.flows.items))) }
    ensures serial { IfOk result (λ taken. taken.serial ≡ third.now.serial) }
{
    let mut next = next;
    next.take(alloc, first)?;
    next.take(alloc, second)?;
    next.take(alloc, third)?;
    Ok(next)
}

/// The page once more, for another owner; None where it can have no owner more.
pub(crate) fn again(page: &Arc<Page, Global>) -> Option<Arc<Page, Global>>
    ensures { IfSome result (λ again. arc_value again ≡ arc_value page.now) }
{
    match Arc::try_clone(page) {
        Ok(again) => Some(again),
        Err(_) => None,
    }
}

/// Notes which page is no longer shown, if it is to be kept, and the change that leads from it.
pub(crate) fn turn(
    oldest: &mut Option<Older>,
    older: &mut Option<Older>,
    page: Option<Arc<Page, Global>>,
    change: Change,
)
    requires { IfSome page (λ page. LeadsTo older.old (arc_value page)) }
    ensures { (shown : PageRecord) → IfSome page (λ page. LeadsOn change.step (arc_value page) shown)
        → LeadsTo older.new shown × LeadsToOlder oldest.new older.new }
{
    match page {
        Some(page) => {
            *oldest = older.take();
            *older = Some(Older { page, change });
        }
        None => {
            *oldest = None;
            *older = None;
        }
    }
}
