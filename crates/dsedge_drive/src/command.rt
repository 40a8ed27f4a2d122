ghost use Rattle.std.specs.Prelude.{◌≡◌, ℕ, ◌+◌, ◌<◌, List, [], ◌∷◌, ◌++◌, false, IsTrue, IfErr, IfOk, IfSome, OnErr, OnOk};
ghost use Rattle.std.specs.Prelude.{None, Some, is_some, length, take, option_and_then, option_map, slice_get};
ghost use Rattle.line_text.specs.Lines.{has_byte, lines_of};
ghost use Rattle.dsedge_lines.specs.Answers.{Answers, AnswersAll, AnswersFront, behind};
ghost use Rattle.dsedge_lines.specs.Courses.{StaysOn, left_by, left_front};
ghost use Rattle.dsedge_drive.specs.Again.{AreAnswersFound, FollowsAll, FollowsFront, FollowsLine, StandsIn};
ghost use Rattle.dsedge_drive.specs.Opened.{HasGrown, IsFurtherKept, IsGrown, IsKeptOr, IsOpened, IsUnopened};
ghost use Rattle.dsedge_drive.specs.Opened.{answer_behind};
ghost use Rattle.ds_broker.specs.Entries.{entries_of};
ghost use Rattle.dsedge_drive.specs.Driven.{look_said, offer_of, offered_in, opening_book, quoted, released, replied, reserved};
ghost use Rattle.dsedge_drive.specs.Driven.{retired, said, sold};
ghost use Rattle.dsedge_drive.specs.Kept.{IsFoundAgain, with_reply};
ghost use Rattle.ds_broker.specs.declared.command.Command as commands;
ghost use Rattle.dsedge_sold.specs.Said.{list_said};
ghost use Rattle.dsedge_sold.specs.Sold.{list_text};

use crate::keeper::{Keeper, MOST_AT_ONCE};
use crate::offering::{offer, offer_in};
use crate::request::{Request, asked};
use crate::shop::Shop;
use crate::wording::words_on;
use ds_broker::{Book, Limits};
use ds_desk::{Naming, Opened};
use ds_domain_base::{BoxedContract, Contract, Domain, Kind};
use ds_ledger_base::{BookFault, Ledger, LedgerFault};
use ds_offers::Offers;
use ds_quotes::Asked;
use dsedge_lines::{Command, Ending};
use dsedge_saying::Speaker;
use dsedge_sold::{
    push_asked, push_fault, push_list, push_outcome, push_room, push_sale, push_sight,
};
use line_text::cut;
use moment_core::Moment;
use std::alloc::{AllocError, Global};
use std::marker::Model;
use std::sync::Wait;

/// How much text is held back, in bytes, before it is given out.
const MOST_HELD: usize = 65_536;

/// The command `drive`: each line asks something of a broker of a domain, and is answered once what it tells is kept.
///
/// Lines that come in one piece of the input are kept together. It keeps a handle, since the broker waits for feeds that
/// look. Where more is said, for a person, it has words behind what it refuses.
#[derive(Drop)]
pub struct DriveCommand<J: Naming, R: Wait + Drop, L: Ledger + Drop> {
    alloc: Global,
    in_json: bool,
    offers: Offers,
    shop: Shop<J, R>,
    keeper: Keeper<L>,
    /// What is answered and not given out, since not all that it tells is kept yet.
    answers: Vec<u8>,
    /// Whether there are words behind what it refuses, for a person.
    is_explained: bool,
    /// These words, as far as they were not taken.
    words: String,
}

impl<J: Naming, R: Wait + Drop, L: Ledger + Drop> Model for DriveCommand<J, R, L> {
    ghost use Rattle.dsedge_drive.specs.Kept.{IsFold, IsKept, Selling};

    ghost Value = { Selling };

    ghost view = { λ c. record {
      in_json = c.in_json;
      offered = c.offers;
      book = c.shop;
      unsaid = c.answers.items;
      kept = c.keeper.kept;
      fault = c.keeper.fault;
    } };

    ghost invariant = { λ c. IsKept L.Ledger c.keeper.ledger c.keeper.kept c.shop.history × IsFold c.shop };
}

/// What a broker sells: the contracts that are offered of a domain, in a book that takes so much.
#[derive(Drop)]
pub struct Sale {
    /// The domain.
    pub domain: Domain,
    /// How much its book takes.
    pub limits: Limits,
    /// The contracts that are offered before its first line.
    pub contracts: Vec<BoxedContract>,
    /// Whether what is answered is told by objects of JSON.
    pub in_json: bool,
    /// Whether there are words behind what is refused, for a person.
    pub is_explained: bool,
}

impl<J: Naming, R: Wait + Drop, L: Ledger + Drop> DriveCommand<J, R, L> {
    /// The command before its first line, over a book that goes on from the commands that a ledger keeps.
    ///
    /// Refused where the domain refuses one of these now, with its serial; where memory runs out.
    pub fn new(
        alloc: Global,
        rt: R,
        opened: Opened,
        sale: Sale,
        ledger: L,
        kept: Vec<ds_broker::Command>,
    ) -> Result<Self, BookFault>
        requires log { opened ≡ J.log }
        requires opening { J.opening ≡ opening_book sale.domain sale.limits }
        requires kept { L.tells ledger → L.keeps ledger kept.items }
        requires lasting { L.honest ledger → L.recovers ledger
            × ((found : List commands.Command) → L.leaves ledger found → found ≡ kept.items) }
        ensures opened { IfOk result (IsOpened sale kept.items) }
        ensures refused { IfErr result (IsUnopened sale kept.items) }
    {
        let Sale {
            domain,
            limits,
            contracts,
            in_json,
            is_explained,
        } = sale;
        let Ok(offers) = Offers::of(alloc, contracts) else {
            return Err(BookFault::Ledger(LedgerFault::NoMemory));
        };
        let Ok(mut shop) = Shop::open(alloc, rt, opened, domain, limits) else {
            return Err(BookFault::Ledger(LedgerFault::NoMemory));
        };
        if let Err(refused) = shop.replay(kept) {
            return Err(BookFault::Command(refused));
        }
        let keeper = Keeper::new(ledger, shop.book().history().len());
        Ok(DriveCommand {
            alloc,
            in_json,
            offers,
            shop,
            keeper,
            answers: Vec::new(alloc),
            is_explained,
            words: String::new(alloc),
        })
    }

    /// Its ledger. Whatever a crash leaves of it now, the next open finds a beginning of the book's history that has all
    /// commands which the ledger keeps, and so all that were answered; the domain makes of it the book as it was then.
    pub fn ledger(&self) -> &L
        ensures kept { L.tells result.now → L.keeps result.now (take self.now.kept self.now.book.history) }
        ensures recovers { L.honest result.now → L.recovers result.now }
        ensures again { L.honest result.now →
            (found : List commands.Command) → L.leaves result.now found → IsFoundAgain self.now found }
        ensures given { L.honest result.now →
            (found : List commands.Command) → L.leaves result.now found → AreAnswersFound self.now found }
    {
        self.keeper.ledger()
    }

    /// Its ledger, at the end. Whatever a crash leaves of it, the next open finds all again that was given out.
    pub fn into_ledger(self) -> L
        ensures { L.honest result →
            (found : List commands.Command) → L.leaves result found → AreAnswersFound self found }
    {
        let DriveCommand { keeper, .. } = self;
        keeper.into_ledger()
    }

    /// Why its ledger keeps no more, if it does not: then it is of no more use.
    pub fn fault(&self) -> Option<LedgerFault>
        ensures { result ≡ self.now.fault }
    {
        self.keeper.fault()
    }

    /// Offers the contract that a line says, and holds the answer back. Where memory runs out nothing is answered.
    #[tactic(auto, using(crate::proofs::KeepLaws::grown_same))]
    fn offer(&mut self, contract: &[u8]) -> Result<(), AllocError>
        ensures said { OnOk result (self.new ≡ with_reply self.old
            (Some (offer_of self.old.book
            (offered_in self.old.in_json self.old.book.domain self.old.offered contract.now)))) }
        ensures grown { IsGrown self.old self.new }
    {
        offer(
            self.alloc,
            self.shop.book().domain(),
            &mut self.offers,
            &mut self.answers,
            contract,
            self.in_json,
        )
    }

    /// Answers a line, if it offers a contract or asks for something, and holds the answer back. Where memory runs out
    /// nothing is answered.
    #[tactic(auto, using(crate::proofs::KeepLaws::grown_same), unfolding(crate::specs::Driven::replied))]
    fn reply(&mut self, line: &[u8]) -> Result<bool, AllocError>
        ensures known { IfOk result (λ known.
            known ≡ is_some (replied self.old.in_json self.old.offered self.old.book line.now)) }
        ensures said { OnOk result (self.new
            ≡ with_reply self.old (replied self.old.in_json self.old.offered self.old.book line.now)) }
        ensures grown { IsGrown self.old self.new }
    {
        if let Some(contract) = offer_in(line) {
            self.offer(contract)?;
            return Ok(true);
        }
        match asked(&self.offers, line) {
            Some(request) => {
                self.say(request)?;
                self.explain(line);
                Ok(true)
            }
            None => Ok(false),
        }
    }

    /// Does what a line asks for. Where memory runs out nothing is answered.
    fn say(&mut self, request: Request) -> Result<(), AllocError>
        ensures said { OnOk result (self.new ≡ record self.old {
          book = (said self.old.in_json self.old.offered self.old.book request).book;
          unsaid = self.old.unsaid ++ (said self.old.in_json self.old.offered self.old.book request).text;
        }) }
        ensures grown { IsGrown self.old self.new }
    {
        say(
            self.alloc,
            self.offers.contracts(),
            &mut self.shop,
            &mut self.answers,
            request,
            self.in_json,
        )
    }

    /// Puts what more there is to say of what a line asked for, once it is answered, behind the words that it has,
    /// where they are for a person. Where memory runs out nothing is said of it.
    fn explain(&mut self, line: &[u8])
        ensures { self.new ≡ self.old }
    {
        if !self.is_explained {
            return;
        }
        let Some(request) = asked(&self.offers, line) else {
            return;
        };
        let (offered, book) = (self.offers.contracts(), self.shop.book());
        let said = words_on(self.alloc, offered, book, request, line);
        if let Ok(words) = said {
            let _added = self.words.push_str(words.as_str());
        }
    }

    /// Gives out what is answered, once all of it is kept where the next run looks for it; nothing behind a fault.
    fn give(&mut self, out: &mut Vec<u8>) -> Result<(), AllocError>
        ensures given { OnOk result (out.new.items ≡ out.old.items ++ self.old.unsaid) }
        ensures kept { OnOk result (self.new
            ≡ record self.old { unsaid = []; kept = length self.old.book.history }) }
        ensures back { OnErr result (out.new.items ≡ out.old.items) }
        ensures further { OnErr result (IsFurtherKept self.old self.new) }
        ensures sound { OnOk result (self.old.fault ≡ None) }
    {
        self.keeper.settle(self.shop.book().history())?;
        out.extend_from_slice(self.answers.as_slice())?;
        self.answers.clear();
        Ok(())
    }

    /// Whether what is answered is to be given out, where this stands behind the line: no whole line does, or many
    /// commands, or much text, are held back.
    fn is_due(&self, rest: &[u8]) -> bool
        ensures { has_byte 10 rest.now ≡ false → IsTrue result }
    {
        let held = self.shop.book().history().len() - self.keeper.kept();
        held >= MOST_AT_ONCE || self.answers.len() >= MOST_HELD || !has_line_end(rest)
    }
}

/// Whether a line ends in a text.
#[tactic(auto, unfolding(line_text::specs::Lines::has_byte))]
fn has_line_end(text: &[u8]) -> bool
    ensures { result ≡ has_byte 10 text.now }
{
    text.iter().any(|byte| *byte == b'\n')
}

/// Does what a line asks for, and appends the answer. Where memory runs out nothing is answered.
#[tactic(auto, using(crate::proofs::KeepLaws::grown_same))]
fn say<J: Naming, R: Wait + Drop>(
    alloc: Global,
    offered: &[BoxedContract],
    shop: &mut Shop<J, R>,
    text: &mut Vec<u8>,
    request: Request,
    in_json: bool,
) -> Result<(), AllocError>
    ensures text { OnOk result (text.new.items ≡ text.old.items ++ (said in_json offered.now shop.old request).text) }
    ensures book { OnOk result (shop.new ≡ (said in_json offered.now shop.old request).book) }
    ensures grown { HasGrown shop.old shop.new }
{
    match request {
        Request::Reserve(place) => reserve(alloc, shop, text, contract_at(offered, place), in_json),
        Request::Release { id, at } => release(alloc, shop, text, id, at, in_json),
        Request::Retire { id, moment } => retire(alloc, shop, text, id, moment, in_json),
        Request::Quote { place, asked } => {
            let contract = contract_at(offered, place);
            quote(alloc, shop.book(), text, contract, asked, in_json)
        }
        Request::Headroom => push_room(alloc, text, shop.book().table(), in_json),
        Request::List => list_as(alloc, shop.book(), text, in_json),
        Request::Look => look(alloc, shop, text, in_json),
    }
}

/// The contract at a place of those that are offered, if there is one.
fn contract_at(offered: &[BoxedContract], place: Option<usize>) -> Option<&Contract>
    ensures { option_map (λ c. c.now) result ≡ option_and_then (slice_get offered.now) place }
{
    let contract = offered.get(place?)?;
    Some(contract.contract())
}

/// Reserves a contract, and appends the answer; where there is none, its name is unknown.
#[tactic(auto, using(crate::proofs::KeepLaws::grown_same))]
fn reserve<J: Naming, R: Wait + Drop>(
    alloc: Global,
    shop: &mut Shop<J, R>,
    text: &mut Vec<u8>,
    contract: Option<&Contract>,
    in_json: bool,
) -> Result<(), AllocError>
    ensures text { OnOk result (text.new.items
        ≡ text.old.items ++ (reserved in_json shop.old (option_map (λ c. c.now) contract.entry)).text) }
    ensures book { OnOk result (shop.new ≡ (reserved in_json shop.old (option_map (λ c. c.now) contract.entry)).book) }
    ensures grown { HasGrown shop.old shop.new }
{
    match contract {
        None => push_fault(alloc, text, Kind::UnknownName, in_json),
        Some(contract) => match contract.copy(alloc) {
            Ok(own) => sell(alloc, shop, text, own, in_json),
            Err(_) => Err(AllocError),
        },
    }
}

/// Reserves a contract, and appends the answer.
fn sell<J: Naming, R: Wait + Drop>(
    alloc: Global,
    shop: &mut Shop<J, R>,
    text: &mut Vec<u8>,
    contract: Contract,
    in_json: bool,
) -> Result<(), AllocError>
    ensures text { OnOk result (text.new.items ≡ text.old.items ++ (sold in_json shop.old contract).text) }
    ensures book { OnOk result (shop.new ≡ (sold in_json shop.old contract).book) }
    ensures grown { HasGrown shop.old shop.new }
{
    let sale = shop.reserve(contract);
    push_sale(alloc, text, shop.book(), sale, in_json)
}

/// Releases the contract of an id, and appends the answer.
fn release<J: Naming, R: Wait + Drop>(
    alloc: Global,
    shop: &mut Shop<J, R>,
    text: &mut Vec<u8>,
    id: u64,
    at: Moment,
    in_json: bool,
) -> Result<(), AllocError>
    ensures text { OnOk result (text.new.items ≡ text.old.items ++ (released in_json shop.old id at).text) }
    ensures book { OnOk result (shop.new ≡ (released in_json shop.old id at).book) }
    ensures grown { HasGrown shop.old shop.new }
{
    let done = shop.release(id, at);
    push_outcome(alloc, text, shop.book(), ("released", id), done, in_json)
}

/// Retires the contract of an id, and appends the answer.
fn retire<J: Naming, R: Wait + Drop>(
    alloc: Global,
    shop: &mut Shop<J, R>,
    text: &mut Vec<u8>,
    id: u64,
    moment: Moment,
    in_json: bool,
) -> Result<(), AllocError>
    ensures text { OnOk result (text.new.items ≡ text.old.items ++ (retired in_json shop.old id moment).text) }
    ensures book { OnOk result (shop.new ≡ (retired in_json shop.old id moment).book) }
    ensures grown { HasGrown shop.old shop.new }
{
    let done = shop.retire(id, moment);
    push_outcome(alloc, text, shop.book(), ("retired", id), done, in_json)
}

/// Appends what is asked for of a contract, beside what a book holds but the contract of its name; where
/// there is no contract, its name is unknown.
fn quote(
    alloc: Global,
    book: &Book,
    text: &mut Vec<u8>,
    contract: Option<&Contract>,
    asked: Asked,
    in_json: bool,
) -> Result<(), AllocError>
    ensures { OnOk result (text.new.items
        ≡ text.old.items ++ (quoted in_json book.now (option_map (λ c. c.now) contract.entry) asked).text) }
{
    match contract {
        None => push_fault(alloc, text, Kind::UnknownName, in_json),
        Some(contract) => push_asked(alloc, text, book, contract, asked, in_json),
    }
}

/// Appends what a book holds: for each contract a line `ID NAME SINCE UNTIL`, or `none`. `AllocError` where memory runs
/// out.
pub fn list(alloc: Global, book: &Book, text: &mut Vec<u8>) -> Result<(), AllocError>
    ensures { OnOk result (text.new.items ≡ text.old.items ++ list_text (entries_of book.now)) }
{
    list_as(alloc, book, text, false)
}

/// Appends what a book holds: as lines, or as an object.
fn list_as(alloc: Global, book: &Book, text: &mut Vec<u8>, in_json: bool) -> Result<(), AllocError>
    ensures { OnOk result (text.new.items ≡ text.old.items ++ list_said in_json (entries_of book.now)) }
{
    let entries = book.list(alloc)?;
    push_list(alloc, text, entries.as_slice(), in_json)
}

/// Appends what the feed sees. Where it is handed back, which must not happen, nothing is answered.
fn look<J: Naming, R: Wait + Drop>(
    alloc: Global,
    shop: &mut Shop<J, R>,
    text: &mut Vec<u8>,
    in_json: bool,
) -> Result<(), AllocError>
    ensures text { OnOk result (text.new.items ≡ text.old.items ++ look_said in_json shop.old) }
    ensures book { shop.new ≡ shop.old }
{
    match shop.look() {
        Some(sight) => push_sight(alloc, text, sight.serial, sight.contracts, in_json),
        None => Err(AllocError),
    }
}

impl<J: Naming, R: Wait + Drop, L: Ledger + Drop> Command for DriveCommand<J, R, L> {
    ghost answer = { answer_behind };

    ghost stands = { StandsIn };

    ghost stops = { λ _ _ _ _ _ it. (it.0, tt) };

    #[tactic(auto, using(crate::proofs::DriveLaws::given_bad_line, crate::proofs::DriveLaws::given_line))]
    fn line(
        &mut self,
        number: u64,
        line: &[u8],
        out: &mut Vec<u8>,
    ) -> Result<Option<Ending>, AllocError>
        ensures answer { (later : List (List ℕ)) →
            Answers (behind out.old.items (answer_behind self.old number (line.now ∷ later)))
            (behind out.new.items (answer_behind self.new (number + 1) later)) out.new.items result }
        ensures stands { (later : List (List ℕ)) →
            StaysOn StandsIn self.old out.old.items (Some (line.now ∷ later))
            self.new out.new.items (left_by result later) }
        ensures given { OnOk result (self.new.unsaid ≡ []) }
        ensures kept { IsKeptOr (out.new.items ≡ out.old.items) self.new }
        ensures follows { FollowsLine result line.now self.old out.old.items self.new out.new.items }
    {
        let is_known = self.reply(line)?;
        self.give(out)?;
        if is_known {
            Ok(None)
        } else {
            Ok(Some(Ending::BadLine(number)))
        }
    }

    #[tactic(auto, using(crate::proofs::DriveLaws::given_line, crate::proofs::DriveLaws::held_line, crate::proofs::DriveLaws::first_line))]
    fn front_line<'b>(
        &mut self,
        number: u64,
        text: &'b [u8],
        out: &mut Vec<u8>,
    ) -> Result<Option<(Option<Ending>, &'b [u8])>, AllocError>
        ensures shorter { IfOk result (λ front. IfSome front (λ parts. length parts.1.now < length text.now)) }
        ensures answer { (later : List ℕ) → AnswersFront result
            (behind out.old.items (answer_behind self.old number (lines_of (text.now ++ later))))
            (behind out.new.items (answer_behind self.new number (lines_of (text.now ++ later))))
            (λ rest. behind out.new.items (answer_behind self.new (number + 1) (lines_of (rest.now ++ later))))
            out.new.items }
        ensures stands { (later : List ℕ) →
            StaysOn StandsIn self.old out.old.items (Some (lines_of (text.now ++ later)))
            self.new out.new.items
            (left_front result (lines_of (text.now ++ later)) (λ rest. lines_of (rest.now ++ later))) }
        ensures given { IfOk result (λ front. IfSome front (λ parts.
            has_byte 10 parts.1.now ≡ false → self.new.unsaid ≡ [])) }
        ensures kept { IsKeptOr (out.new.items ≡ out.old.items) self.new }
        ensures follows { FollowsFront result text.now (λ it. it.now) self.old out.old.items self.new out.new.items }
    {
        let Some((line, rest)) = cut(text, b'\n') else {
            return Ok(None);
        };
        if !self.reply(line)? {
            return Ok(None);
        }
        if self.is_due(rest) {
            self.give(out)?;
        }
        Ok(Some((None, rest)))
    }

    #[tactic(auto, using(crate::proofs::DriveLaws::given_last_line))]
    fn end(&mut self, number: u64, out: &mut Vec<u8>) -> Result<Ending, AllocError>
        ensures answer { AnswersAll (behind out.old.items (answer_behind self.old number [])) out.new.items result }
        ensures stands { StaysOn StandsIn self.old out.old.items (Some []) self.new out.new.items None }
        ensures kept { IsKeptOr (out.new.items ≡ out.old.items) self.new }
        ensures follows { FollowsAll result self.old out.old.items self.new out.new.items }
    {
        self.give(out)?;
        Ok(Ending::Whole)
    }
}

impl<J: Naming, R: Wait + Drop, L: Ledger + Drop> Speaker for DriveCommand<J, R, L> {
    /// Takes the words behind what it refused, once all that it answered was given out.
    fn take_words(&mut self) -> String
        ensures { self.new ≡ self.old }
    {
        if !self.answers.is_empty() {
            return String::new(self.alloc);
        }
        std::mem::replace(&mut self.words, String::new(self.alloc))
    }
}
