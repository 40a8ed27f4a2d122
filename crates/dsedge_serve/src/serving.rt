ghost use Rattle.std.specs.Prelude.{◌≡◌, ◌&&◌, false, length, map, not, true};
ghost use Rattle.dsedge_base.specs.Files.{files_of, in_json_of, names_of};
ghost use Rattle.dsedge_lines.specs.Faults.{is_read_fault, is_write_fault};
ghost use Rattle.dsedge_answers.specs.Replies.{IsOfWrites, IsServed, reply_of};
ghost use Rattle.dsedge_serve.specs.Served.{IsAnswered, IsForeseen, IsRefusedBefore, form_said, is_broken_off, is_input_fault};
ghost use Rattle.dsedge_serve.specs.Served.{IsToldAfter, is_misused, is_output_fault, reply_over, status_after};
ghost use Rattle.dsedge_json_faults.specs.FaultObjects.{IsToldBy};
ghost use Rattle.dsedge_saying.specs.Saying.{HasSaid};
ghost use Rattle.dsedge_serve.specs.Advised.{advice_after};
ghost use Rattle.dsedge_serve.specs.Spoken.{IsToldBehind, is_spoken};
ghost use Rattle.dsedge_serve.specs.Marked.{rule_said};
ghost use Rattle.dsedge_serve.specs.declared.outcome.Outcome.{Outcome};
ghost use Rattle.ds_conductor.specs.Steps.{opened};
ghost use Rattle.dsedge_audit.specs.Audited.{audit_from};
ghost use Rattle.dsedge_texts.specs.Accepted.{accepted_in};
ghost use Rattle.line_text.specs.Lines.{lines_of};
ghost use Rattle.pcap_capture.specs.Counts.{IsOfReads};

use crate::ended::Served;
use crate::exporting::answer_export;
use crate::marking::{
    Marking, answer_mark, capture_fault, marking_advice, marking_status, tell_marking,
};
use crate::outcome::Outcome;
use crate::quoting::answer_quote;
use crate::supplies::Supplies;
use crate::telling::{answer_arrivals, answer_every_arrival, telling_status};
use ds_checker::Accepted;
use ds_conductor::RedRule;
use ds_ledger_base::Shelf;
use dsedge_answers::{
    Conclusion, advice_as, answer_certify, answer_check, answer_draw, answer_headroom,
    answer_lines, answer_lines_by, answer_text, refusal_outcome, status_for, tell_fault,
    tell_outcome,
};
use dsedge_audit::AuditCommand;
use dsedge_base::{Plan, PlanNames};
use dsedge_book::{HeldForm, answer_book};
use dsedge_faults::{Advice, Fault};
use dsedge_lines::{Ending, GivenName, PumpFault};
use dsedge_meter::{EnvelopeCommand, MeterCommand};
use dsedge_selling::{Manner, Place, answer_drive, answer_kept};
use dsedge_texts::accept;
use pcap_capture::{Intake, Outlet};
use std::alloc::Global;
use std::sync::Wait;
use std::thread::Threads;

/// Judges the run that the lines of the input say, over the table that two texts say, and sets words to what more there is
/// to say of the verdict.
fn answer_audit<I: Intake, O: Outlet>(
    alloc: Global,
    domain: &[u8],
    certificate: &[u8],
    in_json: bool,
    intake: &mut I,
    output: &mut O,
    words: &mut String,
) -> Result<Conclusion, PumpFault>
    ensures served { I.tells intake.old → O.tells output.old →
        IsServed (reply_over in_json (accepted_in domain.now certificate.now) (lines_of (I.left intake.old))) result
        (O.held output.old) (O.held output.new) }
    ensures refused { IsRefusedBefore (accepted_in domain.now certificate.now) (Outcome.Answered result) }
    ensures writes { IsOfWrites (is_write_fault result) (O.failed output.old) (O.failed output.new) }
    ensures reads { IsOfReads (is_read_fault result) (I.failed intake.old) (I.failed intake.new) (I.calls intake.new) }
{
    match accept(alloc, domain, certificate) {
        Ok(accepted) => judge_run(alloc, &accepted, in_json, intake, output, words),
        Err(fault) => refusal_outcome(fault),
    }
}

/// Judges the run that the lines of the input say, over an accepted table, likewise.
fn judge_run<I: Intake, O: Outlet>(
    alloc: Global,
    accepted: &Accepted,
    in_json: bool,
    intake: &mut I,
    output: &mut O,
    words: &mut String,
) -> Result<Conclusion, PumpFault>
    ensures served { I.tells intake.old → O.tells output.old →
        IsServed (reply_of (audit_from in_json accepted.now (opened accepted.now) 1 (lines_of (I.left intake.old))))
        result (O.held output.old) (O.held output.new) }
    ensures writes { IsOfWrites (is_write_fault result) (O.failed output.old) (O.failed output.new) }
    ensures reads { IsOfReads (is_read_fault result) (I.failed intake.old) (I.failed intake.new) (I.calls intake.new) }
{
    match AuditCommand::new(alloc, accepted, in_json) {
        Ok(command) => {
            let mut command = command;
            let answered = answer_lines_by(alloc, &mut command, intake, output);
            *words = command.take_words();
            answered
        }
        Err(_) => Err(PumpFault::NoMemory),
    }
}

/// Answers what a plan asks for, on the output, from the texts of its files, and says more beside answers on `faults`,
/// where that is asked for. Words are set to what more there is to say of the verdict on a run.
#[tactic(auto, using(crate::proofs::HeldLemmas::unsound_held, dsedge_saying::proofs::SayingLaws::unsaid))]
fn answer<R: Wait + Threads + Sync, S: Shelf, I: Intake, O: Outlet, F: Outlet>(
    alloc: Global,
    rt: &R,
    plan: &Plan<'_>,
    supplies: &Supplies<'_, S>,
    intake: &mut I,
    output: &mut O,
    faults: &mut F,
    words: &mut String,
) -> Outcome
    requires { length supplies.now.texts.now ≡ length (files_of plan.now) }
    ensures served { I.tells intake.old → O.tells output.old →
        IsAnswered (S.stands supplies.now.shelf.now) plan.now (map (λ text. text.items) supplies.now.texts.now)
        (I.left intake.old) (I.left intake.new) result (O.held output.old) (O.held output.new) }
    ensures foreseen { IsForeseen plan.now (map (λ text. text.items) supplies.now.texts.now) result }
    ensures writes { IsOfWrites (is_output_fault result) (O.failed output.old) (O.failed output.new) }
    ensures reads { is_broken_off result ≡ false
        → IsOfReads (is_input_fault result) (I.failed intake.old) (I.failed intake.new) (I.calls intake.new) }
    ensures misused { is_misused result ≡ true → O.held output.new ≡ O.held output.old }
    ensures said { HasSaid F.Outlet (is_spoken supplies.now.is_asked plan.now) faults.old faults.new }
{
    let texts = supplies.texts;
    match plan {
        Plan::Show(text) => {
            Outcome::Answered(answer_text(text.as_bytes(), Ending::Whole, output))
        }
        Plan::Meter {
            meter,
            has_levels,
            in_json,
        } => {
            let command = MeterCommand::new(alloc, *meter, *has_levels, *in_json);
            Outcome::Answered(answer_lines(alloc, command, intake, output))
        }
        Plan::Envelope {
            rate,
            burst,
            in_json,
        } => {
            let command = EnvelopeCommand::new(alloc, *rate, *burst, *in_json);
            Outcome::Answered(answer_lines(alloc, command, intake, output))
        }
        Plan::Certify { in_json, .. } => {
            Outcome::Answered(answer_certify(alloc, texts[0].as_slice(), *in_json, output))
        }
        Plan::Check { in_json, .. } => {
            let (domain, certificate) = (texts[0].as_slice(), texts[1].as_slice());
            Outcome::Answered(answer_check(alloc, domain, certificate, *in_json, output))
        }
        Plan::Headroom { in_json, .. } => {
            Outcome::Answered(answer_headroom(alloc, texts[0].as_slice(), *in_json, output))
        }
        Plan::Draw { .. } => { Outcome::Answered(answer_draw(alloc, texts[0].as_slice(), output)) }
        Plan::Quote {
            contract,
            asked,
            in_json,
            ..
        } => {
            let domain = texts[0].as_slice();
            answer_quote(alloc, domain, contract.text(), *asked, *in_json, output)
        }
        Plan::Export { meter, device, .. } => {
            answer_export(alloc, texts[0].as_slice(), meter.text(), *device, output)
        }
        Plan::Audit { in_json, .. } => {
            let (domain, certificate) = (texts[0].as_slice(), texts[1].as_slice());
            let judged = answer_audit(alloc, domain, certificate, *in_json, intake, output, words);
            Outcome::Answered(judged)
        }
        Plan::Drive {
            limits,
            book: None,
            in_json,
            ..
        } => {
            let domain = texts[0].as_slice();
            let manner = Manner {
                limits: *limits,
                in_json: *in_json,
                is_explained: speaks(supplies.is_asked, *in_json),
            };
            Outcome::Answered(answer_drive(alloc, rt, manner, domain, intake, output, faults))
        }
        Plan::Drive {
            limits,
            book: Some(name),
            in_json,
            ..
        } => {
            let domain = texts[0].as_slice();
            let manner = Manner {
                limits: *limits,
                in_json: *in_json,
                is_explained: speaks(supplies.is_asked, *in_json),
            };
            let place = Place {
                shelf: supplies.shelf,
                name: name.text(),
                manner,
            };
            Outcome::Answered(answer_kept(alloc, rt, &place, domain, intake, output, faults))
        }
        Plan::Book {
            book,
            to_domain,
            ..
        } => {
            let (domain, form) = (texts[0].as_slice(), form_said(*to_domain));
            let name = book.text();
            Outcome::Answered(answer_book(alloc, supplies.shelf, name, domain, form, output))
        }
        Plan::Arrivals {
            place: None,
            has_colours,
        } => answer_every_arrival(alloc, *has_colours, intake, output),
        Plan::Arrivals {
            place: Some(place),
            has_colours,
        } => {
            let domain = texts[0].as_slice();
            answer_arrivals(alloc, place, *has_colours, domain, intake, output)
        }
        Plan::Mark {
            port,
            workers,
            keeps_red,
            has_verdict,
            in_json,
            ..
        } => {
            let (domain, certificate) = (texts[0].as_slice(), texts[1].as_slice());
            let marking = Marking {
                port: port.text(),
                workers: *workers,
                red: rule_said(*keeps_red),
                has_verdict: *has_verdict,
                in_json: *in_json,
            };
            answer_mark(rt, alloc, domain, certificate, &marking, intake, output)
        }
    }
}

/// Whether more is said behind what a broker refuses: where that is asked for, and no objects are.
fn speaks(is_asked: bool, in_json: bool) -> bool
    ensures { result ≡ is_asked && not in_json }
{
    is_asked && !in_json
}

/// How what a book holds is told, by whether that is asked for as a domain text.
fn form_said(to_domain: bool) -> HeldForm
    ensures { result ≡ form_said to_domain }
{
    if to_domain {
        HeldForm::Domain
    } else {
        HeldForm::List
    }
}

/// The rule that a word says.
fn rule_said(keeps_red: bool) -> RedRule
    ensures { result ≡ rule_said keeps_red }
{
    if keeps_red {
        RedRule::Keep
    } else {
        RedRule::Drop
    }
}

/// The exit status of a plan that went so, by the names that it gives of a port and of a contract.
fn status_after(names: &PlanNames<'_>, outcome: &Outcome) -> u8
    ensures { result ≡ status_after names.now outcome.now }
{
    match outcome {
        Outcome::Answered(outcome) => status_for(outcome),
        Outcome::Unnamed => Fault::Contract(GivenName::new(names.contract)).status(),
        Outcome::Misused => Fault::Usage.status(),
        Outcome::Marked(_, fault, _) => marking_status(*fault, names.port),
        Outcome::Portless => Fault::Port(GivenName::new(names.port)).status(),
        Outcome::Told(fault) => telling_status(*fault),
    }
}

/// Tells how a plan went, where there is anything to tell, by lines or by objects, and gives what there is to say behind it.
/// A failure to write there is passed over.
fn tell_after<F: Outlet>(
    alloc: Global,
    in_json: bool,
    names: &PlanNames<'_>,
    outcome: Outcome,
    faults: &mut F,
) -> Option<Advice>
    ensures still { F.tells faults.old → F.tells faults.new }
    ensures told { F.tells faults.old → IsToldBy (IsToldAfter in_json names.now outcome) (F.held faults.old)
        (F.held faults.new) (F.failed faults.old) (F.failed faults.new) }
    ensures advice { result ≡ advice_after in_json names.now outcome }
{
    match outcome {
        Outcome::Answered(outcome) => tell_outcome(alloc, outcome, in_json, faults),
        Outcome::Unnamed => {
            let fault = Fault::Contract(GivenName::new(names.contract));
            tell_fault(alloc, &fault, in_json, faults)
        }
        Outcome::Misused => tell_fault(alloc, &Fault::Usage, in_json, faults),
        Outcome::Marked(report, fault, told) => {
            let _told = tell_marking(alloc, &report, &told, fault, names.port, faults);
            advice_as(in_json, marking_advice(fault, names.port))
        }
        Outcome::Portless => {
            let fault = Fault::Port(GivenName::new(names.port));
            tell_fault(alloc, &fault, in_json, faults)
        }
        Outcome::Told(None) => None,
        Outcome::Told(Some(fault)) => tell_fault(alloc, &capture_fault(fault), in_json, faults),
    }
}

/// Does what a plan asks for: answers on the output, tells a fault on `faults`, and gives the exit status, with what
/// there is to say behind the fault, and of the verdict on a run. Where more is asked for, it is said on `faults` too,
/// behind what a broker refuses, and nothing beside other answers.
///
/// `drive` keeps `rt`: its broker waits for feeds that look. `mark` starts threads with `rt`.
pub fn serve<R: Wait + Threads + Sync, S: Shelf, I: Intake, O: Outlet, F: Outlet>(
    alloc: Global,
    rt: &R,
    plan: &Plan<'_>,
    supplies: &Supplies<'_, S>,
    intake: &mut I,
    output: &mut O,
    faults: &mut F,
) -> Served
    requires { length supplies.now.texts.now ≡ length (files_of plan.now) }
    ensures still { F.tells faults.old → F.tells faults.new }
    // One outcome stands behind what is written, what is told, the status and the advice.
    ensures outcome { let names = names_of plan.now in
        (outcome : Outcome) × (result.status ≡ status_after names outcome)
        × (I.tells intake.old → O.tells output.old →
        IsAnswered (S.stands supplies.now.shelf.now) plan.now (map (λ text. text.items) supplies.now.texts.now)
        (I.left intake.old) (I.left intake.new) outcome (O.held output.old) (O.held output.new))
        × (F.tells faults.old → IsToldBehind (is_spoken supplies.now.is_asked plan.now)
        (IsToldAfter (in_json_of plan.now) names outcome) (F.held faults.old) (F.held faults.new)
        (F.failed faults.old) (F.failed faults.new))
        × IsOfWrites (is_output_fault outcome) (O.failed output.old) (O.failed output.new)
        × (is_broken_off outcome ≡ false
        → IsOfReads (is_input_fault outcome) (I.failed intake.old) (I.failed intake.new) (I.calls intake.new))
        × IsForeseen plan.now (map (λ text. text.items) supplies.now.texts.now) outcome
        × (result.advice ≡ advice_after (in_json_of plan.now) names outcome)
        × (is_misused outcome ≡ true → O.held output.new ≡ O.held output.old) }
{
    let mut words = String::new(alloc);
    let outcome = answer(
        alloc, rt, plan, supplies, intake, output, faults, &mut words,
    );
    let names = plan.names();
    let status = status_after(&names, &outcome);
    let advice = tell_after(alloc, plan.in_json(), &names, outcome, faults);
    Served {
        status,
        advice,
        verdict: words,
    }
}
