ghost use Rattle.std.specs.Prelude.{◌≡◌, ◌&&◌, IfErr, IfOk, List, ℕ, bytes_eq, codes, false, map, not, string_bytes};
ghost use Rattle.std.specs.List.{list_any};
ghost use Rattle.std.specs.IoError.{error_kind};
ghost use Rattle.dsedge_base.specs.Files.{files_of};
ghost use Rattle.pcap_capture.specs.Counts.{IsOfReads};
ghost use Rattle.dsedge_explained.specs.Asked.{plain_words};
ghost use Rattle.dsedge_faults.specs.Faults.{status_of};
ghost use Rattle.dsedge_json_faults.specs.FaultObjects.{IsFaultTold, IsToldBy};
ghost use Rattle.dsedge_answers.specs.Replies.{IsOfWrites};
ghost use Rattle.dsedge_serve.specs.Explained.{IsToldMore, is_asked};
ghost use Rattle.dsedge_serve.specs.Spoken.{is_spoken_in};
ghost use Rattle.dsedge_serve.specs.Started.{AreKnown, Course, IsCourseFrom, IsCourseOf, IsWritten};
ghost use Rattle.dsedge_serve.specs.Started.{advice_in, behind_name, input_from, is_broken_off, is_unread, is_unwritten};
ghost use Rattle.dsedge_serve.specs.Started.{IsToldIn, status_in, wordless};

use crate::starting::{asks_json, refuse, start};
use crate::terminal::AtTerminal;
use ds_ledger_base::Shelf;
use dsedge_explained::{explain, take_question};
use dsedge_faults::{Fault, advise};
use dsedge_lines::Words;
use dsedge_texts::Folder;
use pcap_capture::{Intake, Outlet};
use std::alloc::Global;
use std::io::{self, ErrorKind};
use std::sync::Wait;
use std::thread::Threads;

/// Runs the program on the words of its command line, the first of which is its own name, and gives its exit status.
/// Where there are no others, the first line of the input gives them, and the rest is the input. Files that the words
/// name come from `folder`. Where faults are read at a terminal, and where one of the words is `--explain`, what there
/// is to say stands behind a fault's line, and behind what a broker refuses, and nowhere else; that word says nothing
/// else.
///
/// Words that could not be had are refused: for want of memory, or since one of them is not UTF-8.
pub fn run<R: Wait + Threads + Sync, D: Folder + Shelf, I: Intake, O: Outlet, F: Outlet>(
    alloc: Global,
    rt: &R,
    line: io::Result<Words>,
    at_terminal: AtTerminal,
    folder: &D,
    intake: &mut I,
    output: &mut O,
    faults: &mut F,
) -> u8
    // Words that could not be had are refused, and nothing is read or written.
    ensures wordless { IfErr line (λ error. let fault = wordless (error_kind error) in
        (result ≡ status_of fault) × (intake.new ≡ intake.old) × (output.new ≡ output.old)
        × (F.tells faults.old → IsToldBy (IsFaultTold false fault) (F.held faults.old) (F.held faults.new)
        (F.failed faults.old) (F.failed faults.new))) }
    // One course of things stands behind what is written, what is told and the status.
    ensures course { IfOk line (λ line. let given = behind_name (map string_bytes line.items) in
        let words = plain_words given in
        (course : Course) × (result ≡ status_in course)
        × (AreKnown words (I.tells intake.old) → IsCourseFrom words (I.left intake.old) course)
        × IsCourseOf (D.tells folder.now) (D.holds folder.now) course
        × IsWritten (D.stands folder.now) course (I.tells intake.old × O.tells output.old) (input_from words (I.left intake.old))
        (I.left intake.new)
        (O.held output.old) (O.held output.new)
        × (F.tells faults.old →
        (text : List ℕ) × IsToldIn course text
        × IsToldMore (is_spoken_in (is_asked at_terminal given) course) (is_asked at_terminal given) words
        (advice_in course) text (F.held faults.old) (F.held faults.new) (F.failed faults.old) (F.failed faults.new))
        × IsOfWrites (is_unwritten course) (O.failed output.old) (O.failed output.new)
        × (is_broken_off course ≡ false
        → IsOfReads (is_unread course) (I.failed intake.old) (I.failed intake.new) (I.calls intake.new))) }
{
    match line {
        Ok(line) => {
            let mut words = behind_name(line);
            let is_asked = take_question(&mut words);
            run_on(
                alloc,
                rt,
                words.as_slice(),
                at_terminal.is_so() || is_asked,
                folder,
                intake,
                output,
                faults,
            )
        }
        Err(error) => refuse(alloc, &wordless(error.kind()), false, faults).status,
    }
}

/// The words behind the program's own name.
fn behind_name(line: Words) -> Words
    ensures { map string_bytes result.items ≡ behind_name (map string_bytes line.items) }
{
    if line.is_empty() {
        return line;
    }
    let mut words = line;
    let _name = words.remove(0);
    words
}

/// Why there are no words, by why the command line could not be had.
fn wordless(kind: ErrorKind) -> Fault<'static>
    ensures { result ≡ wordless kind }
{
    match kind {
        ErrorKind::OutOfMemory => Fault::Memory,
        _ => Fault::Usage,
    }
}

/// Runs the program on its words.
fn run_on<R: Wait + Threads + Sync, D: Folder + Shelf, I: Intake, O: Outlet, F: Outlet>(
    alloc: Global,
    rt: &R,
    words: &[String],
    is_asked: bool,
    folder: &D,
    intake: &mut I,
    output: &mut O,
    faults: &mut F,
) -> u8
    ensures course { let texts = map string_bytes words.now in
        (course : Course) × (result ≡ status_in course)
        × (AreKnown texts (I.tells intake.old) → IsCourseFrom texts (I.left intake.old) course)
        × IsCourseOf (D.tells folder.now) (D.holds folder.now) course
        × IsWritten (D.stands folder.now) course (I.tells intake.old × O.tells output.old) (input_from texts (I.left intake.old))
        (I.left intake.new)
        (O.held output.old) (O.held output.new)
        × (F.tells faults.old →
        (text : List ℕ) × IsToldIn course text
        × IsToldMore (is_spoken_in is_asked course) is_asked texts (advice_in course) text (F.held faults.old)
        (F.held faults.new) (F.failed faults.old) (F.failed faults.new))
        × IsOfWrites (is_unwritten course) (O.failed output.old) (O.failed output.new)
        × (is_broken_off course ≡ false
        → IsOfReads (is_unread course) (I.failed intake.old) (I.failed intake.new) (I.calls intake.new)) }
{
    let ended = start(alloc, rt, words, is_asked, folder, intake, output, faults);
    let status = ended.status;
    let is_explained = is_explained(is_asked, words);
    explain(alloc, words, is_explained, status, &ended.findings, faults);
    advise(alloc, words, is_asked, ended.advice, faults);
    status
}

/// Whether what the texts say is asked for, and no objects are.
fn is_explained(is_asked: bool, words: &[String]) -> bool
    ensures { result ≡ is_asked && not (list_any (λ word. bytes_eq (string_bytes word) (codes "--json")) words.now) }
{
    is_asked && !asks_json(words)
}
