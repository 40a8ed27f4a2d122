ghost use Rattle.std.specs.Prelude.{◌≡◌, map};
ghost use Rattle.run_audit.specs.Runs.{IsRun};
ghost use Rattle.run_audit.specs.Assembled.{passage_of, run_of};
ghost use Rattle.run_audit.specs.Bases.{basis_of};

use crate::basis::Ground;
use meter_book::Journal;
use meter_fabric_base::Trail;
use std::marker::Model;

/// A run of contracts over a domain: the journals of its sites, and the trails of its packets, which tell the same rows.
#[derive(Debug, Drop)]
pub struct Run<'a> {
    basis: Ground<'a>,
    journals: Vec<Journal>,
    trails: Vec<Trail>,
}

impl<'a> Model for Run<'a> {
    ghost use Rattle.run_audit.specs.Assembled.{GroundRun};

    ghost Value = { GroundRun };

    ghost use Rattle.run_audit.specs.Kept.{IsKept, ground_run_of};

    ghost view = { ground_run_of };

    ghost invariant = { IsKept };
}

impl<'a> Run<'a> {
    /// The run of journals and trails that are known to be one.
    pub fn of(basis: Ground<'a>, journals: Vec<Journal>, trails: Vec<Trail>) -> Self
        requires { IsRun (basis_of basis) (run_of journals.items trails.items) }
        ensures { result ≡ record { basis = basis_of basis.entry; run = run_of journals.items trails.items } }
    {
        Run {
            basis,
            journals,
            trails,
        }
    }

    /// What it stands on.
    pub fn basis(&self) -> Ground<'a>
        ensures value { basis_of result ≡ self.now.basis }
        ensures run { IsRun self.now.basis self.now.run }
    {
        self.basis
    }

    /// The journals of the sites.
    pub fn journals(&self) -> &[Journal]
        ensures value { result.now ≡ self.now.run.journals }
        ensures run { IsRun self.now.basis self.now.run }
    {
        self.journals.as_slice()
    }

    /// The trails of the packets.
    pub fn trails(&self) -> &[Trail]
        ensures value { map passage_of result.now ≡ self.now.run.passages }
        ensures run { IsRun self.now.basis self.now.run }
    {
        self.trails.as_slice()
    }
}
