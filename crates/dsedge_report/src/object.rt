ghost use Rattle.std.specs.Prelude.{◌≡◌, IfOk};
ghost use Rattle.serde_json.specs.View.{view};
ghost use Rattle.json_lines.specs.JsonLines.{IsLineOf, count_data};
ghost use Rattle.dsedge_report.specs.ReportObjects.{judged_data, mark_lines, mark_lines_in, report_data};

use ds_checker::Accepted;
use ds_conditioner::Report;
use dsedge_audit::verdict_value;
use json_lines::{figure, line_of};
use run_audit::Verdict;
use serde_json::{Value, json};
use std::alloc::{AllocError, Global};

/// The line of the object of a report of a marking over a table, with its verdict.
pub fn report_object(
    alloc: Global,
    accepted: &Accepted,
    report: &Report,
) -> Result<Vec<u8>, AllocError>
    ensures object { IfOk result (λ text. IsLineOf (report_data accepted.now report.now) text.items) }
    // The lines are made of the object, and behind them that of the verdict.
    ensures says { mark_lines_in (report_data accepted.now report.now) ≡ mark_lines accepted.now report.now }
{
    let value = report_value(alloc, accepted, report)?;
    line_of(alloc, &value)
}

/// The object of a report of a marking over a table.
fn report_value(alloc: Global, accepted: &Accepted, report: &Report) -> Result<Value, AllocError>
    ensures { IfOk result (λ value. view value ≡ report_data accepted.now report.now) }
{
    let green = share_value(alloc, report.packets[0], report.bytes[0])?;
    let yellow = share_value(alloc, report.packets[1], report.bytes[1])?;
    let red = share_value(alloc, report.packets[2], report.bytes[2])?;
    let verdict = judged_value(alloc, accepted, &report.verdict)?;
    json!(in alloc; {
        "answer": "mark",
        "dropped": report.dropped,
        "green": green,
        "marked": report.marked,
        "records": report.records,
        "red": red,
        "skipped": report.skipped,
        "unmatched": report.unmatched,
        "unverified": report.unverified,
        "verdict": verdict,
        "yellow": yellow
    })
}

/// The object of a colour's packets and their bytes.
fn share_value(alloc: Global, packets: u64, bytes: u128) -> Result<Value, AllocError>
    ensures { IfOk result (λ value. view value ≡ count_data packets bytes) }
{
    let packets = figure(alloc, u128::from(packets))?;
    let bytes = figure(alloc, bytes)?;
    json!(in alloc; {"bytes": bytes, "packets": packets})
}

/// The object of a verdict on a run of a table; null where there is none.
fn judged_value(
    alloc: Global,
    accepted: &Accepted,
    verdict: &Option<Verdict>,
) -> Result<Value, AllocError>
    ensures { IfOk result (λ value. view value ≡ judged_data accepted.now verdict.now) }
{
    match verdict {
        Some(verdict) => verdict_value(alloc, accepted, verdict),
        None => Ok(Value::Null),
    }
}
