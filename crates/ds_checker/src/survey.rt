//! What stands at the meters of a table that the checker may refuse.
ghost use Rattle.std.specs.Prelude.{◌≡◌, IfOk, length};
ghost use Rattle.ds_certificate.specs.Bounds.{IsCertificate};
ghost use Rattle.ds_checker.specs.Acceptance.{refusal_of, table_of};
ghost use Rattle.ds_checker.specs.Surveys.{headrooms_by, headrooms_of};

use crate::acceptance::bounded;
use crate::candidate::Candidate;
use crate::headroom::{Headroom, headroom_at};
use crate::load::Loads;
use crate::refusal::Refusal;
use crate::table::{gathered, table_refusal};
use ds_domain_base::Domain;
use std::alloc::{AllocError, Global};

/// What stands at the meters of a table, accepted or refused.
#[derive(Debug, Drop)]
pub struct Survey {
    /// What its contracts take at each meter and what it has, in the order of the meters; more may be taken than there
    /// is.
    pub headrooms: Vec<Headroom>,
    /// The first test of `check` that fails, if one does.
    pub refusal: Option<Refusal>,
}

/// What stands at the meters of a candidate whose bounds are none too low, as those of a least certificate: the sums
/// that `check` compares, whether it accepts them or not. `AllocError` where memory runs out.
pub fn survey_of(alloc: Global, candidate: &Candidate) -> Result<Survey, AllocError>
    requires { IsCertificate candidate.now.domain candidate.now.contracts.items candidate.now.certificate }
    ensures headrooms { IfOk result (λ found. found.headrooms.items ≡ headrooms_of (table_of candidate.now)) }
    ensures refusal { IfOk result (λ found. found.refusal ≡ refusal_of (table_of candidate.now)) }
{
    let Ok(routes) = bounded(alloc, candidate) else {
        return Err(AllocError);
    };
    let sums = gathered(alloc, candidate, routes.as_slice())?;
    let refusal = table_refusal(&candidate.domain, sums.as_slice());
    let headrooms = headrooms_by(alloc, &candidate.domain, sums.as_slice())?;
    Ok(Survey { headrooms, refusal })
}

/// What is taken at each meter of a domain, by the sums of what is brought there.
fn headrooms_by(alloc: Global, domain: &Domain, sums: &[Loads]) -> Result<Vec<Headroom>, AllocError>
    requires { length sums.now ≡ length domain.now.meters }
    ensures { IfOk result (λ headrooms. headrooms.items ≡ headrooms_by domain.now.meters sums.now) }
{
    let mut headrooms = Vec::with_capacity(alloc, sums.len())?;
    for ((_, meter), loads) in domain.meters().iter().zip(sums) {
        headrooms.push(headroom_at(meter, loads))?;
    }
    Ok(headrooms)
}
