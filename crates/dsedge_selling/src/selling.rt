ghost use Rattle.std.specs.Prelude.{◌≡◌, ◌⊎◌, List, [], Ok, Err, IfErr};
ghost use Rattle.line_text.specs.Lines.{lines_of};
ghost use Rattle.ds_domain.specs.DomainTexts.{parse_of};
ghost use Rattle.ds_broker.specs.declared.command.Command as commands;
ghost use Rattle.ds_ledger_base.specs.Replays.{replay};
ghost use Rattle.dsedge_drive.specs.Again.{IsUnasked, IsWrittenAgain};
ghost use Rattle.dsedge_drive.specs.Driven.{drive_from, opening_book};
ghost use Rattle.pcap_capture.specs.Counts.{IsOfReads};
ghost use Rattle.dsedge_lines.specs.Faults.{is_read_fault, is_write_fault};
ghost use Rattle.dsedge_answers.specs.Replies.{IsOfWrites, IsServed, reply_of};
ghost use Rattle.dsedge_answers.specs.declared.conclusion.Conclusion.{Conclusion};
ghost use Rattle.dsedge_lines.specs.declared.fault.PumpFault.{PumpFault};
ghost use Rattle.dsedge_saying.specs.Saying.{HasSaid};
ghost use Rattle.dsedge_selling.specs.Sales.{concluded_as, unkept_as, unledgered_as, unopened_as};
ghost use Rattle.dsedge_selling.specs.Sold.{IsKeptServed, IsSoldBehind, IsSoldFrom, reply_sold};

use ds_broker::{BrokerRefusal, Command, Limits};
use ds_domain::{DomainFault, Kind, parse};
use ds_ledger_base::{BookFault, Ledger, LedgerFault, RefusedReplay, Shelf, Unkept};
use dsedge_answers::Conclusion;
use dsedge_drive::{DriveCommand, Naming, Opened, Sale};
use dsedge_lines::{Ending, PumpFault};
use dsedge_saying::pump_saying;
use pcap_capture::{Intake, Outlet};
use std::alloc::Global;
use std::marker::Brand;
use std::sync::Wait;

/// How a broker sells.
#[derive(Clone, Copy)]
pub struct Manner {
    /// How much its book takes.
    pub limits: Limits,
    /// Whether its answers are objects of JSON.
    pub in_json: bool,
    /// Whether more is said behind what it refuses, for a person.
    pub is_explained: bool,
}

/// Where a broker's book is kept, and how it sells.
#[derive(Drop)]
pub struct Place<'a, S> {
    /// Where books stand.
    pub shelf: &'a S,
    /// The name of the book.
    pub name: &'a str,
    /// How it sells.
    pub manner: Manner,
}

/// Sells the contracts of the domain that a text says, by the lines of the input, and says more on `faults`, behind what
/// it refuses, where that is asked for.
#[tactic(auto, using(dsedge_saying::proofs::SayingLaws::unsaid))]
pub fn answer_drive<R: Wait, I: Intake, O: Outlet, F: Outlet>(
    alloc: Global,
    rt: &R,
    manner: Manner,
    text: &[u8],
    intake: &mut I,
    output: &mut O,
    faults: &mut F,
) -> Result<Conclusion, PumpFault>
    ensures served { I.tells intake.old → O.tells output.old →
        IsServed (reply_sold manner.in_json manner.limits (parse_of text.now) (lines_of (I.left intake.old))) result (O.held output.old)
        (O.held output.new) }
    ensures unsound { IfErr (parse_of text.now) (λ fault.
        (result ≡ Ok (Conclusion.Unsound fault)) ⊎ (result ≡ Err PumpFault.NoMemory)) }
    ensures writes { IsOfWrites (is_write_fault result) (O.failed output.old) (O.failed output.new) }
    ensures reads { IsOfReads (is_read_fault result) (I.failed intake.old) (I.failed intake.new) (I.calls intake.new) }
    ensures said { HasSaid F.Outlet manner.is_explained faults.old faults.new }
{
    match parse(alloc, text) {
        Ok((domain, contracts)) => {
            let sale = Sale {
                domain,
                limits: manner.limits,
                contracts,
                in_json: manner.in_json,
                is_explained: manner.is_explained,
            };
            let nothing = (Unkept, Vec::new(alloc));
            let sold = sell::<Brand, R, Unkept, I, O, F>(
                alloc,
                rt,
                Opened::new(),
                sale,
                nothing,
                intake,
                output,
                faults,
            );
            unledgered(sold)
        }
        Err(
            DomainFault {
                kind: Kind::NoMemory,
                ..
            },
        ) => Err(PumpFault::NoMemory),
        Err(fault) => Ok(Conclusion::Unsound(fault)),
    }
}

/// Sells the contracts of the domain that a text says, by the lines of the input, from the commands on that a ledger
/// keeps, and says more likewise.
#[tactic(auto, using(dsedge_saying::proofs::SayingLaws::unsaid))]
pub fn answer_kept<R: Wait, S: Shelf, I: Intake, O: Outlet, F: Outlet>(
    alloc: Global,
    rt: &R,
    place: &Place<'_, S>,
    text: &[u8],
    intake: &mut I,
    output: &mut O,
    faults: &mut F,
) -> Result<Conclusion, PumpFault>
    ensures served { I.tells intake.old → O.tells output.old →
        IsSoldFrom (S.stands place.now.shelf.now place.now.name.now) place.now.manner.in_json place.now.manner.limits
        (parse_of text.now) (lines_of (I.left intake.old)) result (O.held output.old) (O.held output.new) }
    ensures unsound { IfErr (parse_of text.now) (λ fault.
        (result ≡ Ok (Conclusion.Unsound fault)) ⊎ (result ≡ Err PumpFault.NoMemory)) }
    ensures writes { IsOfWrites (is_write_fault result) (O.failed output.old) (O.failed output.new) }
    ensures reads { IsOfReads (is_read_fault result) (I.failed intake.old) (I.failed intake.new) (I.calls intake.new) }
    ensures said { HasSaid F.Outlet place.now.manner.is_explained faults.old faults.new }
{
    match parse(alloc, text) {
        Ok((domain, contracts)) => {
            let sale = Sale {
                domain,
                limits: place.manner.limits,
                contracts,
                in_json: place.manner.in_json,
                is_explained: place.manner.is_explained,
            };
            match place.shelf.open(alloc, place.name) {
                Ok(kept) => sell::<Brand, R, S::Kept, I, O, F>(
                    alloc,
                    rt,
                    Opened::new(),
                    sale,
                    kept,
                    intake,
                    output,
                    faults,
                ),
                Err(fault) => unkept(fault),
            }
        }
        Err(
            DomainFault {
                kind: Kind::NoMemory,
                ..
            },
        ) => Err(PumpFault::NoMemory),
        Err(fault) => Ok(Conclusion::Unsound(fault)),
    }
}

/// Sells contracts by the lines of the input, from the commands on that a ledger keeps.
#[tactic(auto, using(crate::proofs::SaleLemmas::unopened_sold, crate::proofs::SaleLemmas::unopened_faults, dsedge_saying::proofs::SayingLaws::unsaid))]
fn sell<J: Naming, R: Wait, L: Ledger + Drop, I: Intake, O: Outlet, F: Outlet>(
    alloc: Global,
    rt: &R,
    opened: Opened,
    sale: Sale,
    kept: (L, Vec<Command>),
    intake: &mut I,
    output: &mut O,
    faults: &mut F,
) -> Result<Conclusion, PumpFault>
    requires log { opened ≡ J.log }
    requires opening { J.opening ≡ opening_book sale.domain sale.limits }
    requires kept { L.tells kept.0 → L.keeps kept.0 kept.1.items }
    requires lasting { L.honest kept.0 → L.recovers kept.0
        × ((found : List commands.Command) → L.leaves kept.0 found → found ≡ kept.1.items) }
    ensures served { I.tells intake.old → O.tells output.old →
        IsSoldBehind sale.in_json (replay (opening_book sale.domain sale.limits) kept.1.items) sale.contracts.items
        (lines_of (I.left intake.old)) result (O.held output.old) (O.held output.new) }
    ensures writes { IsOfWrites (is_write_fault result) (O.failed output.old) (O.failed output.new) }
    ensures reads { IsOfReads (is_read_fault result) (I.failed intake.old) (I.failed intake.new) (I.calls intake.new) }
    ensures said { HasSaid F.Outlet sale.is_explained faults.old faults.new }
{
    let (ledger, commands) = kept;
    let is_explained = sale.is_explained;
    match DriveCommand::<J, &R, L>::new(alloc, rt, opened, sale, ledger, commands) {
        Ok(command) => {
            let (sold, _ledger) = sell_by(alloc, command, is_explained, intake, output, faults);
            sold
        }
        Err(fault) => unopened(fault),
    }
}

/// Sells by a command before its first line, and gives its ledger up. Whatever a crash leaves of that then, the next
/// open finds every command that lines had accepted of whose answers anything was written.
#[tactic(auto, using(crate::proofs::SaleLemmas::concluded_served, crate::proofs::SaleLemmas::concluded_faults))]
pub fn sell_by<J: Naming, R: Wait + Drop, L: Ledger + Drop, I: Intake, O: Outlet, F: Outlet>(
    alloc: Global,
    command: DriveCommand<J, R, L>,
    is_explained: bool,
    intake: &mut I,
    output: &mut O,
    faults: &mut F,
) -> (Result<Conclusion, PumpFault>, L)
    requires { IsUnasked command }
    ensures served { I.tells intake.old → O.tells output.old → IsKeptServed
        (reply_of (drive_from command.in_json command.offered command.book 1 (lines_of (I.left intake.old))))
        result.0 (O.held output.old) (O.held output.new) }
    ensures again { I.tells intake.old → O.tells output.old → L.honest result.1 →
        (found : List commands.Command) → L.leaves result.1 found →
        IsWrittenAgain command (lines_of (I.left intake.old)) found (O.held output.old) (O.held output.new) }
    ensures writes { IsOfWrites (is_write_fault result.0) (O.failed output.old) (O.failed output.new) }
    ensures reads { IsOfReads (is_read_fault result.0) (I.failed intake.old) (I.failed intake.new) (I.calls intake.new) }
    ensures said { HasSaid F.Outlet is_explained faults.old faults.new }
{
    let mut command = command;
    let answered = pump_saying(alloc, &mut command, is_explained, intake, output, faults);
    let fault = command.fault();
    (concluded(answered, fault), command.into_ledger())
}

/// How a sale ends whose lines were answered so, by a command that a fault of its ledger ended, if one did.
fn concluded(
    answered: Result<Ending, PumpFault>,
    fault: Option<LedgerFault>,
) -> Result<Conclusion, PumpFault>
    ensures { result ≡ concluded_as answered fault }
{
    match (answered, fault) {
        (Ok(ending), _) => Ok(Conclusion::Ended(ending)),
        (Err(PumpFault::NoMemory), Some(fault)) => unkept(fault),
        (Err(fault), _) => Err(fault),
    }
}

/// How a sale ends that a fault of its ledger ends.
fn unkept(fault: LedgerFault) -> Result<Conclusion, PumpFault>
    ensures { result ≡ unkept_as fault }
{
    match fault {
        LedgerFault::NoMemory => Err(PumpFault::NoMemory),
        fault => Ok(Conclusion::Unkept(BookFault::Ledger(fault))),
    }
}

/// How a sale ends whose book does not go on from its ledger.
fn unopened(fault: BookFault) -> Result<Conclusion, PumpFault>
    ensures { result ≡ unopened_as fault }
{
    match fault {
        BookFault::Ledger(fault) => unkept(fault),
        BookFault::Command(
            RefusedReplay {
                refusal: BrokerRefusal::NoMemory,
                ..
            },
        ) => Err(PumpFault::NoMemory),
        BookFault::Command(refused) => Ok(Conclusion::Unkept(BookFault::Command(refused))),
    }
}

/// How a sale ends that no ledger keeps, and so none ends.
fn unledgered(sold: Result<Conclusion, PumpFault>) -> Result<Conclusion, PumpFault>
    ensures { result ≡ unledgered_as sold }
{
    match sold {
        Ok(Conclusion::Unkept(_)) => Err(PumpFault::NoMemory),
        sold => sold,
    }
}
