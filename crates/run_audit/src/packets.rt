//! What is found against packets one by one, in one pass over their trails in whatever order they stand.
ghost use Rattle.std.specs.Prelude.{◌≡◌};
ghost use Rattle.run_audit.specs.Assembled.{passage_of};
ghost use Rattle.run_audit.specs.Bases.{basis_of};
ghost use Rattle.run_audit.specs.Hops.{delayed_hop};
ghost use Rattle.run_audit.specs.Verdicts.{against_sent, link_of_run, outside, time_of};

use crate::basis::Ground;
use crate::least::{lesser, told};
use crate::links::delayed;
use crate::run::Run;
use crate::sending::sent_of;
use crate::times::outside;
use crate::verdict::Verdict;
use meter_fabric_base::Trail;

/// What is found against packets, for each premise that is judged packet by packet.
#[derive(Clone, Copy)]
pub(crate) struct Found {
    /// Against the time of contracts.
    pub(crate) outside: Option<Verdict>,
    /// Against the floors and jitters of links.
    pub(crate) delayed: Option<Verdict>,
}

/// What is found against a trail's packet.
fn found_of(basis: &Ground<'_>, trail: &Trail) -> Found
    ensures outside { result.outside ≡ against_sent (basis_of basis.now) (outside trail.now.packet)
        (passage_of trail.now) }
    ensures delayed { result.delayed
        ≡ against_sent (basis_of basis.now) (delayed_hop (basis_of basis.now).domain trail.now.packet)
        (passage_of trail.now) }
{
    let none = Found {
        outside: None,
        delayed: None,
    };
    let Some(contract) = basis.contract_of(trail.flow) else {
        return none;
    };
    let Some(route) = basis.route(trail.flow) else {
        return none;
    };
    let Some(sent) = sent_of(contract, trail) else {
        return none;
    };
    Found {
        outside: outside(trail.packet, contract, &sent),
        delayed: delayed(route, trail.packet, &sent),
    }
}

/// What is found against the packets of a run: in each case against the one of the least number.
pub(crate) fn found_in(run: &Run<'_>) -> Found
    ensures outside { result.outside ≡ time_of run.now.basis run.now.run }
    ensures delayed { result.delayed ≡ link_of_run run.now.basis run.now.run }
{
    let basis = run.basis();
    let trails = run.trails();
    let mut outside = None;
    let mut delayed = None;
    for trail in trails {
        let found = found_of(&basis, trail);
        outside = lesser(outside, trail.packet, found.outside);
        delayed = lesser(delayed, trail.packet, found.delayed);
    }
    Found {
        outside: told(outside),
        delayed: told(delayed),
    }
}
