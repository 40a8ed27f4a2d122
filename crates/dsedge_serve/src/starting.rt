ghost use Rattle.std.specs.Prelude.{◌≡◌, IfErr, IfOk, Ok, bytes_eq, codes, false, length, map, string_bytes};
ghost use Rattle.std.specs.List.{list_any};
ghost use Rattle.pcap_capture.specs.Counts.{IsOfReads};
ghost use Rattle.dsedge_faults.specs.Advised.{advice_on};
ghost use Rattle.dsedge_faults.specs.Faults.{status_of};
ghost use Rattle.dsedge_json_faults.specs.FaultObjects.{IsFaultTold, IsToldBy, advice_as};
ghost use Rattle.dsedge_answers.specs.Replies.{IsOfWrites};
ghost use Rattle.dsedge_serve.specs.Spoken.{IsToldBehind, is_spoken_in};
ghost use Rattle.dsedge_serve.specs.Started.{AreKnown, Course, IsCourseFrom, IsCourseOn, IsCourseWith};
ghost use Rattle.dsedge_serve.specs.Started.{IsWritten, fault_of_line, fault_of_words};
ghost use Rattle.dsedge_serve.specs.Started.{IsCourseOf, IsUnreadable, input_from, is_broken_off, is_unread, is_unwritten};
ghost use Rattle.dsedge_serve.specs.Started.{IsToldIn, advice_in, status_in};
ghost use Rattle.dsedge_base.specs.Files.{files_of};
ghost use Rattle.dsedge_texts.specs.Readable.{texts_of};

use crate::ended::{Ended, Started};
use crate::serving::serve;
use crate::supplies::Supplies;
use ds_ledger_base::Shelf;
use dsedge_answers::tell_fault;
use dsedge_base::{Plan, UsageFault, plan};
use dsedge_explained::Findings;
use dsedge_faults::Fault;
use dsedge_lines::{FirstLineFault, first_line};
use dsedge_texts::{Folder, TextFault, read_texts};
use pcap_capture::{Intake, Outlet};
use std::alloc::Global;
use std::sync::Wait;
use std::thread::Threads;

/// Tells a fault, by its line or by its object, and gives its exit status, with what there is to say behind it. A failure to
/// write it is passed over.
pub fn refuse<F: Outlet>(alloc: Global, fault: &Fault<'_>, in_json: bool, faults: &mut F) -> Ended
    ensures status { result.status ≡ status_of fault.now }
    ensures advice { result.advice ≡ advice_as in_json (advice_on fault.now) }
    ensures still { F.tells faults.old → F.tells faults.new }
    ensures told { F.tells faults.old → IsToldBy (IsFaultTold in_json fault.now) (F.held faults.old) (F.held faults.new)
        (F.failed faults.old) (F.failed faults.new) }
{
    let advice = tell_fault(alloc, fault, in_json, faults);
    Ended {
        status: fault.status(),
        advice,
    }
}

/// The same of a start that read no texts.
fn refuse_start<F: Outlet>(
    alloc: Global,
    fault: &Fault<'_>,
    in_json: bool,
    faults: &mut F,
) -> Started
    ensures status { result.status ≡ status_of fault.now }
    ensures advice { result.advice ≡ advice_as in_json (advice_on fault.now) }
    ensures still { F.tells faults.old → F.tells faults.new }
    ensures told { F.tells faults.old → IsToldBy (IsFaultTold in_json fault.now) (F.held faults.old) (F.held faults.new)
        (F.failed faults.old) (F.failed faults.new) }
{
    let ended = refuse(alloc, fault, in_json, faults);
    Started {
        status: ended.status,
        advice: ended.advice,
        findings: Findings {
            texts: Vec::new(alloc),
            verdict: String::new(alloc),
        },
    }
}

/// Whether objects are asked for by words, whatever else they ask for.
pub(crate) fn asks_json(words: &[String]) -> bool
    ensures { result ≡ list_any (λ word. bytes_eq (string_bytes word) (codes "--json")) words.now }
{
    words.iter().any(|word| word.as_str() == "--json")
}

/// The fault that a first line is refused with.
fn fault_of_line(fault: FirstLineFault) -> Fault<'static>
    ensures { result ≡ fault_of_line fault }
{
    match fault {
        FirstLineFault::Usage => Fault::Usage,
        FirstLineFault::Read => Fault::Read,
        FirstLineFault::NoMemory => Fault::Memory,
    }
}

/// The fault that words are refused with.
fn fault_of_words(fault: UsageFault) -> Fault<'static>
    ensures { result ≡ fault_of_words fault }
{
    match fault {
        UsageFault::Usage => Fault::Usage,
        UsageFault::NoMemory => Fault::Memory,
    }
}

/// The texts of the files that a plan names, or the fault that refuses it.
fn texts_for<'a, D: Folder>(
    alloc: Global,
    folder: &D,
    plan: &Plan<'a>,
) -> Result<Vec<Vec<u8>>, Fault<'a>>
    ensures count { IfOk result (λ texts. length texts.items ≡ length (files_of plan.now)) }
    ensures texts { D.tells folder.now → IfOk result (λ texts.
        texts_of (D.holds folder.now) (files_of plan.now) ≡ Ok (map (λ text. text.items) texts.items)) }
    ensures refused { IfErr result (IsUnreadable (D.tells folder.now) (D.holds folder.now) (files_of plan.now)) }
{
    let Ok(names) = plan.files(alloc) else {
        return Err(Fault::Memory);
    };
    match read_texts(alloc, folder, names.as_slice()) {
        Ok(texts) => Ok(texts),
        Err(TextFault::File(name, reason)) => Err(Fault::File(name, reason)),
        Err(TextFault::NoMemory) => Err(Fault::Memory),
    }
}

/// Serves a plan with the texts of its files.
fn start_with<R: Wait + Threads + Sync, D: Folder + Shelf, I: Intake, O: Outlet, F: Outlet>(
    alloc: Global,
    rt: &R,
    plan: &Plan<'_>,
    is_asked: bool,
    folder: &D,
    intake: &mut I,
    output: &mut O,
    faults: &mut F,
) -> Started
    ensures still { F.tells faults.old → F.tells faults.new }
    ensures course { (course : Course) × (result.status ≡ status_in course)
        × IsCourseWith plan.now course
        × IsCourseOf (D.tells folder.now) (D.holds folder.now) course
        × IsWritten (D.stands folder.now) course (I.tells intake.old × O.tells output.old) (I.left intake.old) (I.left intake.new)
        (O.held output.old) (O.held output.new)
        × (F.tells faults.old → IsToldBehind (is_spoken_in is_asked course) (IsToldIn course) (F.held faults.old)
        (F.held faults.new) (F.failed faults.old) (F.failed faults.new))
        × IsOfWrites (is_unwritten course) (O.failed output.old) (O.failed output.new)
        × (is_broken_off course ≡ false
        → IsOfReads (is_unread course) (I.failed intake.old) (I.failed intake.new) (I.calls intake.new))
        × (result.advice ≡ advice_in course) }
{
    match texts_for(alloc, folder, plan) {
        Ok(texts) => {
            let ended = serve(
                alloc,
                rt,
                plan,
                &Supplies {
                    texts: texts.as_slice(),
                    shelf: folder,
                    is_asked,
                },
                intake,
                output,
                faults,
            );
            Started {
                status: ended.status,
                advice: ended.advice,
                findings: Findings {
                    texts,
                    verdict: ended.verdict,
                },
            }
        }
        Err(fault) => refuse_start(alloc, &fault, plan.in_json(), faults),
    }
}

/// Serves the plan that words ask for.
fn start_on<R: Wait + Threads + Sync, D: Folder + Shelf, I: Intake, O: Outlet, F: Outlet>(
    alloc: Global,
    rt: &R,
    words: &[String],
    is_asked: bool,
    folder: &D,
    intake: &mut I,
    output: &mut O,
    faults: &mut F,
) -> Started
    ensures still { F.tells faults.old → F.tells faults.new }
    ensures course { (course : Course) × (result.status ≡ status_in course)
        × IsCourseOn (map string_bytes words.now) course
        × IsCourseOf (D.tells folder.now) (D.holds folder.now) course
        × IsWritten (D.stands folder.now) course (I.tells intake.old × O.tells output.old) (I.left intake.old) (I.left intake.new)
        (O.held output.old) (O.held output.new)
        × (F.tells faults.old → IsToldBehind (is_spoken_in is_asked course) (IsToldIn course) (F.held faults.old)
        (F.held faults.new) (F.failed faults.old) (F.failed faults.new))
        × IsOfWrites (is_unwritten course) (O.failed output.old) (O.failed output.new)
        × (is_broken_off course ≡ false
        → IsOfReads (is_unread course) (I.failed intake.old) (I.failed intake.new) (I.calls intake.new))
        × (result.advice ≡ advice_in course) }
{
    match plan(alloc, words) {
        Ok(plan) => start_with(alloc, rt, &plan, is_asked, folder, intake, output, faults),
        Err(fault) => refuse_start(alloc, &fault_of_words(fault), asks_json(words), faults),
    }
}

/// Runs the program on its words, the name of the program left out; where there are none, the first line of the input
/// gives them, and the rest is the input. Files that the words name come from `folder`, and books stand there. Gives the
/// exit status, what there is to say behind what was told, and what was found, of which more can be said. What there is
/// to say behind the answers of a broker is said, where that is asked for.
///
/// Refused: `Usage` for a first line of more than 65,536 bytes or one that is not UTF-8, and for words that ask for
/// nothing; `Read` where the first line could not be read, `File` where a file could not, `Memory` where memory ran out.
pub fn start<R: Wait + Threads + Sync, D: Folder + Shelf, I: Intake, O: Outlet, F: Outlet>(
    alloc: Global,
    rt: &R,
    given: &[String],
    is_asked: bool,
    folder: &D,
    intake: &mut I,
    output: &mut O,
    faults: &mut F,
) -> Started
    // Words that are refused leave the output as it was.
    ensures usage { result.status ≡ 2 → O.held output.new ≡ O.held output.old }
    ensures still { F.tells faults.old → F.tells faults.new }
    // One course of things stands behind what is written, what is told, the status and the advice.
    ensures course { let texts = map string_bytes given.now in
        (course : Course) × (result.status ≡ status_in course)
        × (AreKnown texts (I.tells intake.old) → IsCourseFrom texts (I.left intake.old) course)
        × IsCourseOf (D.tells folder.now) (D.holds folder.now) course
        × IsWritten (D.stands folder.now) course (I.tells intake.old × O.tells output.old) (input_from texts (I.left intake.old))
        (I.left intake.new)
        (O.held output.old) (O.held output.new)
        × (F.tells faults.old → IsToldBehind (is_spoken_in is_asked course) (IsToldIn course) (F.held faults.old)
        (F.held faults.new) (F.failed faults.old) (F.failed faults.new))
        × IsOfWrites (is_unwritten course) (O.failed output.old) (O.failed output.new)
        × (is_broken_off course ≡ false
        → IsOfReads (is_unread course) (I.failed intake.old) (I.failed intake.new) (I.calls intake.new))
        × (result.advice ≡ advice_in course) }
{
    if !given.is_empty() {
        return start_on(alloc, rt, given, is_asked, folder, intake, output, faults);
    }
    match first_line(alloc, intake) {
        Ok(words) => start_on(
            alloc,
            rt,
            words.as_slice(),
            is_asked,
            folder,
            intake,
            output,
            faults,
        ),
        Err(fault) => refuse_start(alloc, &fault_of_line(fault), false, faults),
    }
}
