ghost use Rattle.std.specs.Prelude.{◌≡◌, ◌⊎◌, Err, IfErr, IfOk, Ok, false, true};
ghost use Rattle.ds_checker.specs.Acceptance.{table_of};
ghost use Rattle.dsedge_json.specs.Told.{certified_by, certified_in, check_by, checked_in, headed_in};
ghost use Rattle.dsedge_json.specs.Told.{headroom_by, line_told};
ghost use Rattle.dsedge_json.specs.Objects.{accepted_data, headroom_data, refusal_data};

use crate::certificate::certificate_line;
use crate::headroom::headroom_line;
use crate::refusal::{accepted_line, refusal_object};
use ds_checker::{Accepted, Candidate, Refusal, check};
use dsedge_texts::{TableFault, candidate_in, least_candidate};
use std::alloc::Global;

/// What is answered as a line of JSON.
#[derive(Debug, Drop)]
pub struct Told {
    /// The line.
    pub text: Vec<u8>,
    /// Whether it answers with yes.
    pub is_yes: bool,
}

/// Whether the table that two texts say is acceptable, as an object: `accepted`, or the first test that fails.
///
/// Refused: `Domain` with the first fault of the domain text, `Certificate` with that of the certificate text, in this
/// order; `NoMemory` where memory runs out.
pub fn check_object(alloc: Global, domain: &[u8], certificate: &[u8]) -> Result<Told, TableFault>
    ensures ok { IfOk result (λ told. checked_in domain.now certificate.now ≡ Ok (told.text.items, told.is_yes)) }
    ensures refused { IfErr result (λ fault. (fault ≡ TableFault.NoMemory)
        ⊎ (checked_in domain.now certificate.now ≡ Err fault)) }
{
    match candidate_in(alloc, domain, certificate) {
        Ok(candidate) => check_told(alloc, candidate),
        Err(fault) => Err(fault),
    }
}

/// What is taken and what there is at each meter of the domain that a text says, as an object; where its contracts do not
/// fit, the object of the first test that fails.
///
/// Refused: `Domain` with the first fault of the text; `NoMemory` where memory runs out.
pub fn headroom_object(alloc: Global, text: &[u8]) -> Result<Told, TableFault>
    ensures ok { IfOk result (λ told. headed_in text.now ≡ Ok (told.text.items, told.is_yes)) }
    ensures refused { IfErr result (λ fault. (fault ≡ TableFault.NoMemory) ⊎ (headed_in text.now ≡ Err fault)) }
{
    match least_candidate(alloc, text) {
        Ok(candidate) => headroom_told(alloc, candidate),
        Err(fault) => Err(fault),
    }
}

/// The least certificate of the domain and the contracts that a text says, as an object.
///
/// Refused: `Domain` with the first fault of the text; `NoMemory` where memory runs out.
pub fn certificate_object(alloc: Global, text: &[u8]) -> Result<Told, TableFault>
    ensures ok { IfOk result (λ told. certified_in text.now ≡ Ok (told.text.items, told.is_yes)) }
    ensures refused { IfErr result (λ fault. (fault ≡ TableFault.NoMemory) ⊎ (certified_in text.now ≡ Err fault)) }
{
    match least_candidate(alloc, text) {
        Ok(candidate) => certificate_told(alloc, candidate),
        Err(fault) => Err(fault),
    }
}

/// The certificate of a candidate, which is let go here.
fn certificate_told(alloc: Global, candidate: Candidate) -> Result<Told, TableFault>
    ensures ok { IfOk result (λ told. certified_by (Ok (table_of candidate)) ≡ Ok (told.text.items, told.is_yes)) }
    ensures memory { IfErr result (λ fault. fault ≡ TableFault.NoMemory) }
{
    match certificate_line(
        alloc,
        candidate.contracts.as_slice(),
        &candidate.certificate,
    ) {
        Ok(text) => Ok(Told { text, is_yes: true }),
        Err(_) => Err(TableFault::NoMemory),
    }
}

/// What the checker says of a candidate.
fn check_told(alloc: Global, candidate: Candidate) -> Result<Told, TableFault>
    ensures ok { IfOk result (λ told. check_by (Ok (table_of candidate)) ≡ Ok (told.text.items, told.is_yes)) }
    ensures memory { IfErr result (λ fault. fault ≡ TableFault.NoMemory) }
{
    match check(alloc, candidate) {
        Ok(_accepted) => accepted_told(alloc),
        Err((_, Refusal::NoMemory)) => Err(TableFault::NoMemory),
        Err((candidate, refusal)) => refused_told(alloc, candidate, refusal),
    }
}

/// What there is at the meters of a candidate, or what the checker says of it.
fn headroom_told(alloc: Global, candidate: Candidate) -> Result<Told, TableFault>
    ensures ok { IfOk result (λ told. headroom_by (Ok (table_of candidate)) ≡ Ok (told.text.items, told.is_yes)) }
    ensures memory { IfErr result (λ fault. fault ≡ TableFault.NoMemory) }
{
    match check(alloc, candidate) {
        Ok(accepted) => headed_told(alloc, &accepted),
        Err((_, Refusal::NoMemory)) => Err(TableFault::NoMemory),
        Err((candidate, refusal)) => refused_told(alloc, candidate, refusal),
    }
}

/// That a table is accepted.
fn accepted_told(alloc: Global) -> Result<Told, TableFault>
    ensures ok { IfOk result (λ told. line_told accepted_data true ≡ Ok (told.text.items, told.is_yes)) }
    ensures memory { IfErr result (λ fault. fault ≡ TableFault.NoMemory) }
{
    match accepted_line(alloc) {
        Ok(text) => Ok(Told { text, is_yes: true }),
        Err(_) => Err(TableFault::NoMemory),
    }
}

/// What there is at the meters of a table.
fn headed_told(alloc: Global, accepted: &Accepted) -> Result<Told, TableFault>
    ensures ok { IfOk result (λ told. line_told (headroom_data accepted.now) true ≡ Ok (told.text.items, told.is_yes)) }
    ensures memory { IfErr result (λ fault. fault ≡ TableFault.NoMemory) }
{
    match headroom_line(alloc, accepted) {
        Ok(text) => Ok(Told { text, is_yes: true }),
        Err(_) => Err(TableFault::NoMemory),
    }
}

/// The first test that fails for a candidate, which is let go here.
fn refused_told(alloc: Global, candidate: Candidate, refusal: Refusal) -> Result<Told, TableFault>
    ensures ok { IfOk result (λ told. line_told (refusal_data candidate.contracts.items refusal) false
        ≡ Ok (told.text.items, told.is_yes)) }
    ensures memory { IfErr result (λ fault. fault ≡ TableFault.NoMemory) }
{
    match refusal_object(alloc, candidate.contracts.as_slice(), &refusal) {
        Ok(text) => Ok(Told {
            text,
            is_yes: false,
        }),
        Err(_) => Err(TableFault::NoMemory),
    }
}
