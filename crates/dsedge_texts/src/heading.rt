ghost use Rattle.std.specs.Prelude.{◌≡◌, ◌⊎◌, ◌++◌, Err, IfErr, IfOk, Ok, OnOk, true};
ghost use Rattle.std.specs.List.{list_all};
ghost use Rattle.ds_certificate.specs.Bounds.{fits};
ghost use Rattle.dsedge_texts.specs.Headed.{headroom_in, headroom_text, least_in, least_table, lines_at, meter_lines};
ghost use Rattle.dsedge_texts.specs.Headed.{test_line, text_by};
ghost use Rattle.dsedge_texts.specs.Accepted.{judged_on};
ghost use Rattle.ds_checker.specs.Acceptance.{table_of};

use crate::accepting::{TableFault, judge};
use crate::certifying::least_certificate;
use crate::wording::push_wide_figure;
use ds_checker::{Accepted, Candidate, Headroom, Utilization};
use ds_domain::{BoxedContract, Domain, Kind, Name, parse};
use std::alloc::{AllocError, Global};

/// What is taken and what there is at each meter of the domain that a text says, under the least certificate of its
/// contracts: a line for each test of the checker, meter by meter.
///
/// Refused: `Domain` with the first fault of the text, `Refused` with the line of the first test of the checker that
/// fails, in this order; `NoMemory` where memory runs out.
pub fn headroom(alloc: Global, text: &[u8]) -> Result<Vec<u8>, TableFault>
    ensures ok { IfOk result (λ lines. headroom_in text.now ≡ Ok lines.items) }
    ensures refused { IfErr result (λ fault. (fault ≡ TableFault.NoMemory) ⊎ (headroom_in text.now ≡ Err fault)) }
{
    match least_candidate(alloc, text) {
        Ok(candidate) => candidate_headroom(alloc, candidate),
        Err(fault) => Err(fault),
    }
}

/// The domain and the contracts that a text says, with their least certificate, which the checker has not seen.
///
/// Refused: `Domain` with the first fault of the text; `NoMemory` where memory runs out.
pub fn least_candidate(alloc: Global, text: &[u8]) -> Result<Candidate, TableFault>
    ensures ok { IfOk result (λ candidate. least_in text.now ≡ Ok (table_of candidate)) }
    ensures refused { IfErr result (λ fault. (fault ≡ TableFault.NoMemory) ⊎ (least_in text.now ≡ Err fault)) }
{
    match parse(alloc, text) {
        Ok((domain, contracts)) => with_least(alloc, domain, contracts),
        Err(fault) if fault.kind == Kind::NoMemory => Err(TableFault::NoMemory),
        Err(fault) => Err(TableFault::Domain(fault)),
    }
}

/// A domain and contracts that fit it, with their least certificate; `NoMemory` where memory runs out.
fn with_least(
    alloc: Global,
    domain: Domain,
    contracts: Vec<BoxedContract>,
) -> Result<Candidate, TableFault>
    requires { list_all (fits domain) contracts.items ≡ true }
    ensures ok { IfOk result (λ candidate. table_of candidate ≡ least_table (domain, contracts.items)) }
    ensures memory { IfErr result (λ fault. fault ≡ TableFault.NoMemory) }
{
    match least_certificate(alloc, &domain, contracts.as_slice()) {
        Ok(certificate) => Ok(Candidate {
            domain,
            contracts,
            certificate,
        }),
        Err(_) => Err(TableFault::NoMemory),
    }
}

/// The lines of a candidate; `Refused` with the line of the first test of the checker that fails, and `NoMemory` where
/// memory runs out.
fn candidate_headroom(alloc: Global, candidate: Candidate) -> Result<Vec<u8>, TableFault>
    ensures ok { IfOk result (λ lines. text_by (judged_on (Ok (table_of candidate))) ≡ Ok lines.items) }
    ensures refused { IfErr result (λ fault. (fault ≡ TableFault.NoMemory)
        ⊎ (text_by (judged_on (Ok (table_of candidate))) ≡ Err fault)) }
{
    match judge(alloc, candidate) {
        Ok(accepted) => headroom_of(alloc, &accepted),
        Err(fault) => Err(fault),
    }
}

/// The lines of a table.
fn headroom_of(alloc: Global, accepted: &Accepted) -> Result<Vec<u8>, TableFault>
    ensures lines { IfOk result (λ lines. lines.items ≡ headroom_text accepted.now) }
    ensures memory { IfErr result (λ fault. fault ≡ TableFault.NoMemory) }
{
    let mut lines = Vec::new(alloc);
    match push_headroom(&mut lines, accepted) {
        Ok(()) => Ok(lines),
        Err(_) => Err(TableFault::NoMemory),
    }
}

/// Appends what is taken and what there is at each meter of a table, a line for each test of the checker.
pub fn push_headroom(text: &mut Vec<u8>, accepted: &Accepted) -> Result<(), AllocError>
    ensures { OnOk result (text.new.items ≡ text.old.items ++ headroom_text accepted.now) }
{
    for (meter, _) in accepted.domain().meters().iter() {
        push_lines_at(text, accepted, *meter)?;
    }
    Ok(())
}

/// Appends the lines of the meter of a name; nothing where there is none.
fn push_lines_at(text: &mut Vec<u8>, accepted: &Accepted, meter: Name) -> Result<(), AllocError>
    ensures { OnOk result (text.new.items ≡ text.old.items ++ lines_at accepted.now meter) }
{
    match accepted.headroom(meter) {
        Some(headroom) => push_meter_lines(text, meter, headroom),
        None => Ok(()),
    }
}

/// Appends the lines of a meter.
fn push_meter_lines(text: &mut Vec<u8>, meter: Name, headroom: Headroom) -> Result<(), AllocError>
    ensures { OnOk result (text.new.items ≡ text.old.items ++ meter_lines meter headroom) }
{
    push_test_line(text, meter, b" GreenRate", headroom.green_rate)?;
    push_test_line(text, meter, b" GreenBurst", headroom.green_burst)?;
    push_test_line(text, meter, b" AllRate", headroom.all_rate)?;
    push_test_line(text, meter, b" AllBurst", headroom.all_burst)
}

/// Appends the line of a test at a meter: `METER KIND TAKEN AVAILABLE`.
fn push_test_line(
    text: &mut Vec<u8>,
    meter: Name,
    kind: &[u8],
    utilization: Utilization,
) -> Result<(), AllocError>
    ensures { OnOk result (text.new.items ≡ text.old.items ++ test_line meter kind.now utilization) }
{
    text.extend_from_slice(meter.bytes())?;
    text.extend_from_slice(kind)?;
    push_wide_figure(text, utilization.taken)?;
    push_wide_figure(text, utilization.available)?;
    text.push(b'\n')?;
    Ok(())
}
