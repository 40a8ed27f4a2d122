ghost use Rattle.std.specs.Prelude.{◌≡◌, ◌⊎◌, Err, IfErr, IfOk, Ok};
ghost use Rattle.ds_domain.specs.DomainTexts.{parse_of};
ghost use Rattle.ds_ledger_base.specs.Replays.{replay};
ghost use Rattle.dsedge_drive.specs.Driven.{opening_book};
ghost use Rattle.dsedge_book.specs.Held.{IsHeldText, IsRefused, IsReplayed, IsUnmade, IsUnsaid, IsUntold, Says, domain_in, roomy};

use crate::fault::HeldFault;
use ds_broker::{Book, BrokerRefusal, Command, Limits};
use ds_domain::{Domain, DomainFault, Kind, parse};
use ds_domain_writing::write;
use ds_ledger_base::{BookFault, LedgerFault, RefusedReplay, Shelf, replay};
use dsedge_drive::list;
use std::alloc::Global;

/// How what a book holds is told.
#[derive(Clone, Copy, Debug, PartialEq, Eq, Drop)]
pub enum HeldForm {
    /// By a line for each contract, as `list` of `drive` prints them.
    List,
    /// By a domain text, of the book's domain with the contracts that it holds.
    Domain,
}

/// What the book of a domain holds that the ledger of a name keeps. The ledger is not changed.
///
/// Refused with the first fault of the domain's text; then with why the ledger cannot be read, or with the first of its
/// commands that the domain refuses now; then with the fault that a domain text would have with what is held, as where
/// that is more than 4,096 contracts. `NoMemory` where memory runs out.
pub fn held_text<S: Shelf>(
    alloc: Global,
    shelf: &S,
    name: &str,
    text: &[u8],
    form: HeldForm,
) -> Result<Vec<u8>, HeldFault>
    ensures told { IfOk result (λ told.
        IsHeldText (S.stands shelf.now name.now) (domain_in (parse_of text.now)) form told.items) }
    ensures refused { IfErr result
        (IsUntold (S.stands shelf.now name.now) (domain_in (parse_of text.now)) form) }
{
    let domain = domain_of(alloc, text)?;
    let book = book_on(alloc, shelf, name, domain)?;
    text_of(alloc, &book, form)
}

/// The domain of a text.
fn domain_of(alloc: Global, text: &[u8]) -> Result<Domain, HeldFault>
    ensures ok { IfOk result (λ domain. domain_in (parse_of text.now) ≡ Ok domain) }
    ensures refused { IfErr result (λ told. (told ≡ HeldFault.NoMemory)
        ⊎ ((fault : _) × (domain_in (parse_of text.now) ≡ Err fault) × (told ≡ HeldFault.Domain fault))) }
{
    match parse(alloc, text) {
        Ok((domain, _contracts)) => Ok(domain),
        Err(
            DomainFault {
                kind: Kind::NoMemory,
                ..
            },
        ) => Err(HeldFault::NoMemory),
        Err(fault) => Err(HeldFault::Domain(fault)),
    }
}

/// The book that a domain makes of the commands that the ledger of a name keeps.
fn book_on<S: Shelf>(
    alloc: Global,
    shelf: &S,
    name: &str,
    domain: Domain,
) -> Result<Book, HeldFault>
    ensures made { IfOk result (λ book. IsReplayed (S.stands shelf.now name.now) domain (Ok book)) }
    ensures refused { IfErr result (IsUnmade (S.stands shelf.now name.now) domain) }
{
    match shelf.commands(alloc, name) {
        Ok(kept) => book_of(alloc, domain, kept),
        Err(LedgerFault::NoMemory) => Err(HeldFault::NoMemory),
        Err(fault) => Err(HeldFault::Book(BookFault::Ledger(fault))),
    }
}

/// The book that a domain makes of commands.
fn book_of(alloc: Global, domain: Domain, kept: Vec<Command>) -> Result<Book, HeldFault>
    ensures made { IfOk result (λ book. replay (opening_book domain roomy) kept.items ≡ Ok book) }
    ensures refused { IfErr result (IsRefused (replay (opening_book domain roomy) kept.items)) }
{
    let limits = Limits::new(Limits::MOST_CONTRACTS, Limits::MOST_COMMANDS).unwrap();
    let Ok(mut book) = Book::new(alloc, domain, limits) else {
        return Err(HeldFault::NoMemory);
    };
    match replay(&mut book, kept) {
        Ok(()) => Ok(book),
        Err(
            RefusedReplay {
                refusal: BrokerRefusal::NoMemory,
                ..
            },
        ) => Err(HeldFault::NoMemory),
        Err(refused) => Err(HeldFault::Book(BookFault::Command(refused))),
    }
}

/// The text of what a book holds.
fn text_of(alloc: Global, book: &Book, form: HeldForm) -> Result<Vec<u8>, HeldFault>
    ensures says { IfOk result (λ text. Says form book.now text.items) }
    ensures refused { IfErr result (IsUnsaid form book.now) }
{
    match form {
        HeldForm::List => list_of(alloc, book),
        HeldForm::Domain => domain_text_of(alloc, book),
    }
}

/// The lines of what a book holds.
fn list_of(alloc: Global, book: &Book) -> Result<Vec<u8>, HeldFault>
    ensures says { IfOk result (λ text. Says HeldForm.List book.now text.items) }
    ensures refused { IfErr result (λ fault. fault ≡ HeldFault.NoMemory) }
{
    let mut text = Vec::new(alloc);
    match list(alloc, book, &mut text) {
        Ok(()) => Ok(text),
        Err(_) => Err(HeldFault::NoMemory),
    }
}

/// The domain text of what a book holds.
fn domain_text_of(alloc: Global, book: &Book) -> Result<Vec<u8>, HeldFault>
    ensures says { IfOk result (λ text. Says HeldForm.Domain book.now text.items) }
    ensures refused { IfErr result (IsUnsaid HeldForm.Domain book.now) }
{
    match write(alloc, book.domain(), book.table().contracts()) {
        Ok(text) => Ok(text),
        Err(
            DomainFault {
                kind: Kind::NoMemory,
                ..
            },
        ) => Err(HeldFault::NoMemory),
        Err(fault) => Err(HeldFault::Text(fault)),
    }
}
