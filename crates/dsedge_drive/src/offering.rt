//! Contracts that lines offer.
ghost use Rattle.std.specs.Prelude.{◌≡◌, ◌++◌, OnOk};
ghost use Rattle.std.specs.Option.{option_copied};
ghost use Rattle.dsedge_drive.specs.Driven.{offered_in};
ghost use Rattle.dsedge_drive.specs.Requests.{offer_in};

use crate::request::has_return;
use ds_domain::read_contract;
use ds_domain_base::{BoxedContract, Domain};
use ds_offers::Offers;
use dsedge_sold::{push_offered, push_unoffered};
use std::alloc::{AllocError, Global};

/// The contract that a line offers, `offer CONTRACT`, if it does.
#[tactic(auto, unfolding(crate::specs::Requests::offer_in))]
pub(crate) fn offer_in(line: &[u8]) -> Option<&[u8]>
    ensures { option_copied result ≡ offer_in line.now }
{
    let contract = line.strip_prefix(b"offer ".as_slice())?;
    if has_return(contract) {
        None
    } else {
        Some(contract)
    }
}

/// Offers the contract of a line of TOML behind the others, and appends the answer: `offered NAME`, or `refused 1 KIND
/// FIELD` for its first fault. Want of memory is no answer: `AllocError`.
#[tactic(auto, using(crate::proofs::OfferLaws::offered_text, crate::proofs::OfferLaws::offered_all, crate::proofs::OfferLaws::unoffered_text, crate::proofs::OfferLaws::unoffered_all))]
pub(crate) fn offer(
    alloc: Global,
    domain: &Domain,
    offers: &mut Offers,
    text: &mut Vec<u8>,
    contract: &[u8],
    in_json: bool,
) -> Result<(), AllocError>
    ensures text { OnOk result (text.new.items ≡ text.old.items
        ++ (offered_in in_json domain.now offers.old contract.now).text) }
    ensures offers { OnOk result (offers.new ≡ (offered_in in_json domain.now offers.old contract.now).offered) }
{
    match read_contract(alloc, domain, offers, contract) {
        Ok(contract) => {
            push_offered(alloc, text, contract.name, in_json)?;
            offers.push(BoxedContract::new(alloc, contract)?)
        }
        Err(fault) => push_unoffered(alloc, text, fault, in_json),
    }
}
