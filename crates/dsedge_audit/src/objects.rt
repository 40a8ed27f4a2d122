ghost use Rattle.std.specs.Prelude.{◌≡◌, IfOk, map, string_bytes};
ghost use Rattle.serde_json.specs.View.{view};
ghost use Rattle.json_lines.specs.JsonLines.{IsLineOf};
ghost use Rattle.dsedge_audit.specs.AuditObjects.{audit_data, audit_lines_in, delay_data, late_data, outside_data};
ghost use Rattle.dsedge_audit.specs.AuditObjects.{site_of, source_data, verdict_data};
ghost use Rattle.dsedge_audit.specs.Audited.{audit_text};
ghost use Rattle.dsedge_audit.specs.SiteNames.{site_name};

use ds_checker::Accepted;
use dsedge_texts::{column_text, contract_text, name_text};
use json_lines::{count, figure, line_of};
use meter_book::{Accounts, Journal};
use moment_core::Column;
use run_audit::Verdict;
use serde_json::{Value, json};
use std::alloc::{AllocError, Global};

/// The line of the object of a verdict on a run of a table, and of the accounts of the sites of these journals.
#[tactic(auto, using(crate::proofs::ObjectLaws::audit_plain, crate::proofs::ObjectLaws::audit_shallow, crate::proofs::ObjectLaws::audit_says))]
pub fn audit_object(
    alloc: Global,
    accepted: &Accepted,
    verdict: &Verdict,
    journals: &[Journal],
) -> Result<Vec<u8>, AllocError>
    ensures object { IfOk result (λ text. IsLineOf (audit_data accepted.now verdict.now journals.now) text.items) }
    // The lines are made of the object.
    ensures says { audit_lines_in (audit_data accepted.now verdict.now journals.now)
        ≡ audit_text accepted.now verdict.now journals.now }
{
    let value = audit_value(alloc, accepted, verdict, journals)?;
    line_of(alloc, &value)
}

/// The object of a verdict on a run of a table, and of the accounts of the sites of these journals.
fn audit_value(
    alloc: Global,
    accepted: &Accepted,
    verdict: &Verdict,
    journals: &[Journal],
) -> Result<Value, AllocError>
    ensures { IfOk result (λ value. view value ≡ audit_data accepted.now verdict.now journals.now) }
{
    let verdict = verdict_value(alloc, accepted, verdict)?;
    let sites = sites_of(alloc, accepted, journals)?;
    json!(in alloc; {"answer": "audit", "sites": sites, "verdict": verdict})
}

/// The objects of the sites of journals.
fn sites_of(
    alloc: Global,
    accepted: &Accepted,
    journals: &[Journal],
) -> Result<Vec<Value>, AllocError>
    ensures { IfOk result (λ sites. map view sites.items ≡ map (site_of accepted.now) journals.now) }
{
    let mut sites = Vec::new(alloc);
    for journal in journals {
        let site = site_value(alloc, accepted, journal)?;
        sites.push(site)?;
    }
    Ok(sites)
}

/// The object of a journal's site: its name, and its accounts.
fn site_value(alloc: Global, accepted: &Accepted, journal: &Journal) -> Result<Value, AllocError>
    ensures { IfOk result (λ value. view value ≡ site_of accepted.now journal.now) }
{
    let Accounts { packets, bytes } = journal.accounts();
    let site = site_text(alloc, accepted, journal.site())?;
    let green = count(alloc, packets[0], bytes[0])?;
    let yellow = count(alloc, packets[1], bytes[1])?;
    let red = count(alloc, packets[2], bytes[2])?;
    json!(in alloc; {"green": green, "red": red, "site": &site, "yellow": yellow})
}

/// The name of a site: the meter's, or behind the meters `edge:` and the name of the contract whose edge it is.
fn site_text(alloc: Global, accepted: &Accepted, site: u32) -> Result<String, AllocError>
    ensures { IfOk result (λ text. string_bytes text ≡ site_name accepted.now site) }
{
    let meters = accepted.domain().meters();
    let place = site as usize;
    match meters.get_index(place) {
        Some((name, _)) => String::from_str(alloc, name_text(name)),
        None => {
            let contract = contract_text(accepted.contracts(), place - meters.len());
            format!(in alloc; "edge:{contract}")
        }
    }
}

/// The object of a verdict on a run of a table.
pub fn verdict_value(
    alloc: Global,
    accepted: &Accepted,
    verdict: &Verdict,
) -> Result<Value, AllocError>
    ensures { IfOk result (λ value. view value ≡ verdict_data accepted.now verdict.now) }
{
    match *verdict {
        Verdict::Kept => json!(in alloc; {"kind": "kept"}),
        Verdict::OutsideContract { packet } => outside_value(alloc, packet),
        Verdict::SourceOver {
            flow,
            column,
            packet,
        } => {
            let contract = contract_text(accepted.contracts(), flow as usize);
            source_value(alloc, contract, column, packet)
        }
        Verdict::DelayOver { packet, hop } => delay_value(alloc, packet, hop),
        Verdict::Late { site, place, late } => {
            let site = site_text(alloc, accepted, site)?;
            late_value(alloc, site.as_str(), place, late.get())
        }
    }
}

/// The object of a packet outside its contract.
fn outside_value(alloc: Global, packet: u64) -> Result<Value, AllocError>
    ensures { IfOk result (λ value. view value ≡ outside_data packet) }
{
    let packet = figure(alloc, u128::from(packet))?;
    json!(in alloc; {"kind": "outside", "packet": packet})
}

/// The object of a contract whose packets in a column are over its envelope, with this packet.
fn source_value(
    alloc: Global,
    contract: &str,
    column: Column,
    packet: u64,
) -> Result<Value, AllocError>
    ensures { IfOk result (λ value. view value ≡ source_data contract.now column packet) }
{
    let packet = figure(alloc, u128::from(packet))?;
    let column = column_text(column);
    json!(in alloc; {"column": column, "contract": contract, "kind": "source-over", "packet": packet})
}

/// The object of a packet that a link held too long before a hop.
fn delay_value(alloc: Global, packet: u64, hop: u8) -> Result<Value, AllocError>
    ensures { IfOk result (λ value. view value ≡ delay_data packet hop) }
{
    let packet = figure(alloc, u128::from(packet))?;
    let hop = figure(alloc, u128::from(hop))?;
    json!(in alloc; {"hop": hop, "kind": "delay-over", "packet": packet})
}

/// The object of a row of a site's journal at a place that was metered so many nanoseconds late.
fn late_value(alloc: Global, site: &str, place: u64, late: u64) -> Result<Value, AllocError>
    ensures { IfOk result (λ value. view value ≡ late_data site.now place late) }
{
    let place = figure(alloc, u128::from(place))?;
    let late = figure(alloc, u128::from(late))?;
    json!(in alloc; {"kind": "late", "late": late, "place": place, "site": site})
}
