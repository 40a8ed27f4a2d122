ghost use Rattle.std.specs.Prelude.{◌≡◌, ℕ, ◌+◌, List, ◌∷◌, Ok, Some, IfErr, IfOk, OnOk};
ghost use Rattle.meter_fabric_base.specs.Grounds.{ground_of};
ghost use Rattle.ds_runs.specs.Conducting.{run_so_far};
ghost use Rattle.ds_runs.specs.Steps.{opened, refusal_of, stepped};
ghost use Rattle.dsedge_lines.specs.Answers.{Answers, AnswersAll, behind};
ghost use Rattle.dsedge_audit.specs.Audited.{audit_from, audit_of, audit_said, audit_text, ending_by};
ghost use Rattle.dsedge_audit.specs.StepLines.{step_in};

use crate::accounts_text::push_sites;
use crate::flows::Flows;
use crate::objects::audit_object;
use crate::step_line::{front_step, step};
use crate::verdict_text::push_verdict;
use ds_checker::Accepted;
use ds_runs::{Conductor, Step, StepFault};
use dsedge_lines::{Command, Ending};
use dsedge_verdict_words::verdict_said;
use meter_book::Journal;
use meter_fabric_base::contract_of;
use run_audit::{Run, Verdict, audit};
use std::alloc::{AllocError, Global};
use std::marker::Model;

/// The command `audit`: each line is a step, and at the end it answers with the verdict on the run and with the
/// accounts of each site, by lines or by an object of JSON.
///
/// The conductor is handed over at the end of the run; where there is none, no step was made yet. Of a run that broke what
/// its table rests on there is more to say than the answer, once it is given.
#[derive(Drop)]
pub struct AuditCommand<'a> {
    alloc: Global,
    flows: Flows<'a>,
    conductor: Option<Conductor<'a>>,
    in_json: bool,
    words: String,
}

impl<'a> Model for AuditCommand<'a> {
    ghost use Rattle.dsedge_audit.specs.Audited.{Auditing};

    ghost Value = { Auditing };

    ghost use Rattle.dsedge_audit.specs.Kept.{IsCommand, auditing_in};

    ghost view = { auditing_in };

    ghost invariant = { IsCommand };
}

impl<'a> AuditCommand<'a> {
    /// The command before its first line. `AllocError` where memory runs out.
    pub fn new(alloc: Global, accepted: &'a Accepted, in_json: bool) -> Result<Self, AllocError>
        ensures { IfOk result (λ command. command
            ≡ record { table = accepted.now; stage = opened accepted.now; in_json = in_json }) }
    {
        let flows = Flows::new(alloc, accepted)?;
        Ok(AuditCommand {
            alloc,
            flows,
            conductor: None,
            in_json,
            words: String::new(alloc),
        })
    }

    /// What there is to say of the verdict that was answered: which packet broke what the table rests on, and what it would
    /// have had to do. It is given once; nothing where no run was judged, where it was kept, or where memory ran out.
    pub fn take_words(&mut self) -> String {
        std::mem::replace(&mut self.words, String::new(self.alloc))
    }

    /// Makes a step, as `Conductor::step`, which also says what is refused.
    fn make(&mut self, step: Step) -> Result<(), StepFault>
        ensures table { self.new.table ≡ self.old.table }
        ensures asked { self.new.in_json ≡ self.old.in_json }
        ensures done { OnOk result (stepped self.old.table self.old.stage step ≡ Ok self.new.stage) }
        ensures refused { IfErr result (λ fault. fault ≡ refusal_of (stepped self.old.table self.old.stage step)) }
    {
        match &mut self.conductor {
            Some(conductor) => conductor.step(step),
            None => {
                let accepted = self.flows.accepted();
                let Ok(mut conductor) = Conductor::new(self.alloc, accepted) else {
                    return Err(first_refusal(accepted, step));
                };
                let done = conductor.step(step);
                self.conductor = Some(conductor);
                done
            }
        }
    }

    /// Makes the step that a line says, or says how the answer ends before that line.
    #[inline(always)]
    #[tactic(auto, using(crate::proofs::AuditLaws::made_line, crate::proofs::AuditLaws::bad_step, crate::proofs::AuditLaws::full_line))]
    fn take(&mut self, number: u64, step: Step) -> Result<Option<Ending>, AllocError>
        ensures { (line : List ℕ) (later : List (List ℕ)) (out : List ℕ)
            → step_in self.old.table.contracts line ≡ Some step →
            Answers (behind out (audit_from self.old.in_json self.old.table self.old.stage number (line ∷ later)))
            (behind out (audit_from self.new.in_json self.new.table self.new.stage (number + 1) later)) out result }
    {
        match self.make(step) {
            Ok(()) => Ok(None),
            Err(StepFault::BadStep) => Ok(Some(Ending::BadLine(number))),
            Err(StepFault::JournalFull) => Ok(Some(Ending::Full)),
            Err(StepFault::NoMemory) => Err(AllocError),
        }
    }

    /// The run that the steps made; there are none from here on.
    fn finish(&mut self) -> Result<Run<'a>, AllocError>
        ensures { IfOk result
            (λ run. run ≡ record { basis = ground_of self.old.table; run = run_so_far self.old.stage }) }
    {
        let conductor = match self.conductor.take() {
            Some(conductor) => conductor,
            None => Conductor::new(self.alloc, self.flows.accepted())?,
        };
        conductor.finish(self.alloc)
    }
}

/// What the first step is refused with where no memory is there to make it.
#[tactic(auto, using(crate::proofs::AuditLaws::unknown_first, crate::proofs::AuditLaws::visit_first))]
fn first_refusal(accepted: &Accepted, step: Step) -> StepFault
    ensures { result ≡ refusal_of (stepped accepted.now (opened accepted.now) step) }
{
    match step {
        Step::Send { flow, .. } => match contract_of(accepted, flow) {
            Some(_) => StepFault::NoMemory,
            None => StepFault::BadStep,
        },
        Step::Visit { .. } => StepFault::BadStep,
    }
}

/// The line of a verdict, then the accounts of each site.
fn audit_text(
    alloc: Global,
    accepted: &Accepted,
    verdict: &Verdict,
    journals: &[Journal],
) -> Result<Vec<u8>, AllocError>
    ensures { IfOk result (λ text. text.items ≡ audit_text accepted.now verdict.now journals.now) }
{
    let mut text = Vec::new(alloc);
    push_verdict(&mut text, accepted, verdict)?;
    push_sites(&mut text, accepted, journals)?;
    Ok(text)
}

/// A verdict and the accounts of each site, as lines, or as the line of an object.
fn audit_said(
    alloc: Global,
    accepted: &Accepted,
    verdict: &Verdict,
    journals: &[Journal],
    in_json: bool,
) -> Result<Vec<u8>, AllocError>
    ensures { IfOk result (λ text. text.items ≡ audit_said in_json accepted.now verdict.now journals.now) }
{
    if in_json {
        audit_object(alloc, accepted, verdict, journals)
    } else {
        audit_text(alloc, accepted, verdict, journals)
    }
}

/// How the answer ends with a verdict.
fn ending(verdict: &Verdict) -> Ending
    ensures { result ≡ ending_by verdict.now }
{
    match verdict {
        Verdict::Kept => Ending::Whole,
        _ => Ending::Refused,
    }
}

/// Sets words to what there is to say of a verdict on a run. Where memory runs out they stay as they are.
fn say(alloc: Global, run: &Run<'_>, verdict: &Verdict, words: &mut String) {
    if let Ok(said) = verdict_said(alloc, run, verdict) {
        *words = said;
    }
}

/// Judges a run of a table, answers behind `out`, and says how the answer ends. Where memory runs out, `out` is as it
/// was. What more there is to say of it is put into words.
fn judge(
    alloc: Global,
    accepted: &Accepted,
    run: &Run<'_>,
    in_json: bool,
    words: &mut String,
    out: &mut Vec<u8>,
) -> Result<Ending, AllocError>
    requires { run.now.basis ≡ ground_of accepted.now }
    ensures { AnswersAll (behind out.old.items (audit_of in_json accepted.now run.now.run)) out.new.items result }
{
    let verdict = audit(alloc, run)?;
    let text = audit_said(alloc, accepted, &verdict, run.journals(), in_json)?;
    out.extend_from_slice(text.as_slice())?;
    say(alloc, run, &verdict, words);
    Ok(ending(&verdict))
}

impl<'a> Command for AuditCommand<'a> {
    ghost answer = { λ c number lines. audit_from c.in_json c.table c.stage number lines };

    ghost stops = { λ _ _ _ _ _ it. it };

    #[tactic(auto, using(crate::proofs::AuditLaws::bad_line))]
    fn line(
        &mut self,
        number: u64,
        line: &[u8],
        _out: &mut Vec<u8>,
    ) -> Result<Option<Ending>, AllocError> {
        match step(&self.flows, line) {
            Some(step) => self.take(number, step),
            None => Ok(Some(Ending::BadLine(number))),
        }
    }

    #[inline(always)]
    fn front_line<'b>(
        &mut self,
        number: u64,
        text: &'b [u8],
        _out: &mut Vec<u8>,
    ) -> Result<Option<(Option<Ending>, &'b [u8])>, AllocError> {
        let Some((step, rest)) = front_step(&self.flows, text) else {
            return Ok(None);
        };
        let ended = self.take(number, step)?;
        Ok(Some((ended, rest)))
    }

    fn end(&mut self, _number: u64, out: &mut Vec<u8>) -> Result<Ending, AllocError> {
        let accepted = self.flows.accepted();
        let in_json = self.in_json;
        let run = self.finish()?;
        judge(self.alloc, accepted, &run, in_json, &mut self.words, out)
    }
}
