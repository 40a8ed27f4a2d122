ghost use Rattle.std.specs.Prelude.{◌≡◌, ◌<◌, IfNone, IfSome, None, Some, length, option_copied, slice_get};
ghost use Rattle.std.specs.List.Sorted.{IsStrictlyIncreasing};
ghost use Rattle.meter_fabric_base.specs.Grounds.{contract_of};
ghost use Rattle.meter_fabric_base.specs.Numbered.{IsPlaceOf, numbered_ground};

use crate::site::MOST_FLOWS;
use ds_checker::Accepted;
use ds_domain_base::Contract;

/// An accepted table beside the flows of its contracts, in their order: as many as there are contracts, and they rise.
/// Where contracts come and go, a contract keeps its flow, while its place in the table may change.
#[derive(Clone, Copy, Debug)]
pub struct Numbered<'a> {
    /// The table.
    pub accepted: &'a Accepted,
    /// The flow of each contract, at the contract's place.
    pub flows: &'a [u32],
    pub ghost rising: { IsStrictlyIncreasing flows.now },
    pub ghost beside: { length flows.now ≡ length accepted.now.contracts },
}

impl<'a> Numbered<'a> {
    /// The contract of a flow, if there is one. None has one from `MOST_FLOWS` on.
    pub fn contract_of(&self, flow: u32) -> Option<&'a Contract>
        ensures { option_copied result
            ≡ contract_of (numbered_ground self.now.accepted.now self.now.flows.now) flow }
    {
        let place = self.place_of(flow)?;
        Some(self.contract_at(place))
    }

    /// The place of the contract of a flow, if there is one: it is found by halves.
    pub(crate) fn place_of(&self, flow: u32) -> Option<usize>
        ensures found { IfSome result (IsPlaceOf flow self.now.flows.now) }
        ensures missing { IfNone result
            (contract_of (numbered_ground self.now.accepted.now self.now.flows.now) flow ≡ None) }
    {
        if flow >= MOST_FLOWS {
            return None;
        }
        self.flows.binary_search(&flow).ok()
    }

    /// The contract at a place.
    pub(crate) fn contract_at(&self, place: usize) -> &'a Contract
        requires { place < length self.now.flows.now }
        ensures { slice_get self.now.accepted.now.contracts place ≡ Some result.now }
    {
        self.accepted.contracts()[place].contract()
    }
}
