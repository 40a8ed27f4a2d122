ghost use Rattle.std.specs.Prelude.{◌≡◌, ◌+◌, ◌<◌, ◌≤◌, ◌^◌, replicate, slice_index, sum};
ghost use Rattle.meter_fabric.specs.Fabrics.{one_more, sites_of};

use crate::ledger::FabricLedger;
use std::marker::Model;
use std::sync::ledger::{Share, Total};

/// The right to visit the sites of a fabric: it counts its visits to each, and has a ticket for each of them. Its value
/// is its counts, by sites.
#[derive(Drop)]
pub struct Pass<L: FabricLedger> {
    counts: Vec<u64>,
    share: Share<L>,
}

impl<L: FabricLedger> Model for Pass<L> {
    ghost use Rattle.std.specs.Prelude.{◌≡◌, ℕ, List, sum, vec_len};
    ghost use Rattle.meter_fabric.specs.Fabrics.{sites_of};

    ghost Value = { List ℕ };

    ghost view = { λ p. p.counts.items };

    ghost invariant = { λ p. (p.share.amount ≡ sum p.counts.items) × (p.share.parts ≡ 1)
        × (vec_len p.counts ≡ sites_of L.fabric) };
}

impl<L: FabricLedger> Pass<L> {
    ghost use Rattle.std.specs.Prelude.{vec_len};

    /// How many visits to a site it counts; 0 for a site that is not there.
    pub fn visits(&self, site: u32) -> u64
        ensures { result ≡ slice_index self.now site }
    {
        self.counts.get(site as usize).copied().unwrap_or(0)
    }

    /// A pass that counts nothing yet.
    pub(crate) fn new(counts: Vec<u64>, share: Share<L>) -> Self
        requires counts { counts.items ≡ replicate (sites_of L.fabric) 0 }
        requires part { share.parts ≡ 1 }
        requires tickets { share.amount ≡ 0 }
        ensures { result ≡ replicate (sites_of L.fabric) 0 }
    {
        Pass { counts, share }
    }

    /// Counts a visit to a site, with a ticket of the site's.
    pub(crate) fn count(&mut self, total: &Total<L>, from: &mut Share<L>, site: usize)
        requires site { site < sites_of L.fabric }
        requires ticket { 1 ≤ from.old.amount }
        requires part { from.old.parts ≡ 1 }
        requires total { total.now.amount < 2 ^ 64 }
        ensures counted { self.new ≡ one_more self.old site }
        ensures taken { from.new.amount + 1 ≡ from.old.amount }
        ensures parts { from.new.parts ≡ 1 }
    {
        from.transfer(&mut self.share, 1);
        total.audit(&mut self.share);
        self.counts[site] += 1;
    }

    /// Its counts, and its tickets.
    pub(crate) fn into_parts(self) -> (Vec<u64>, Share<L>)
        ensures counts { result.0.items ≡ self }
        ensures sites { vec_len result.0 ≡ sites_of L.fabric }
        ensures tickets { result.1.amount ≡ sum self }
        ensures part { result.1.parts ≡ 1 }
    {
        let Pass { counts, share } = self;
        (counts, share)
    }

    /// A pass of counts and the tickets for them.
    pub(crate) fn of(counts: Vec<u64>, share: Share<L>) -> Self
        requires sites { vec_len counts ≡ sites_of L.fabric }
        requires tickets { share.amount ≡ sum counts.items }
        requires part { share.parts ≡ 1 }
        ensures { result ≡ counts.items }
    {
        Pass { counts, share }
    }
}
