ghost use Rattle.dsedge_saying.specs.Saying.{IsSaid};

use crate::explaining::explained;
use crate::findings::Findings;
use dsedge_base::plan;
use dsedge_words::usage_said;
use pcap_capture::{Outlet, give_all};
use std::alloc::Global;

/// What the texts of the files that words name say of why their plan was not done; where they give no plan, which value
/// of theirs is none. None where memory runs out.
fn said(alloc: Global, words: &[String], texts: &[Vec<u8>]) -> Option<String> {
    match plan(alloc, words) {
        Ok(plan) => explained(alloc, &plan, texts).ok(),
        Err(_) => usage_said(alloc, words).ok(),
    }
}

/// Says what the texts of the files that words name say of why their plan was not done, and where they say nothing what
/// was found in a run, where that is asked for, by the status that it ended with: 1, an answer that is no, 2, usage, or 3,
/// a fault of the input. A failure to write it is passed over.
///
/// `words` are those of the command line, without the program's name.
pub fn explain<F: Outlet>(
    alloc: Global,
    words: &[String],
    is_asked: bool,
    status: u8,
    findings: &Findings,
    faults: &mut F,
)
    ensures still { F.tells faults.old → F.tells faults.new }
    ensures said { F.tells faults.old →
        IsSaid is_asked (F.held faults.old) (F.held faults.new) (F.failed faults.old) (F.failed faults.new) }
{
    if !is_asked || status == 0 || status > 3 {
        return;
    }
    let Some(text) = said(alloc, words, findings.texts.as_slice()) else {
        return;
    };
    let text = if text.is_empty() {
        findings.verdict.as_str()
    } else {
        text.as_str()
    };
    let _told = give_all(faults, text.as_bytes());
}
