ghost use Rattle.std.specs.Prelude.{◌≡◌, ◌++◌, [], ◌∷◌, length, position, IfOk, OnErr, OnOk};
ghost use Rattle.std.specs.Str.{bytes_eq};
ghost use Rattle.ds_offers.specs.Offered.{has_name};

use crate::named::named;
use ds_domain_base::{BoxedContract, Name};
use indexmap::IndexMap;
use std::alloc::{AllocError, Global};
use std::marker::Model;

/// The contracts that are offered, in order. They are looked up by name without a scan.
#[derive(Drop)]
pub struct Offers {
    contracts: Vec<BoxedContract>,
    /// Under each name the place of the first contract that has it.
    places: IndexMap<Name, usize>,
}

impl Model for Offers {
    ghost use Rattle.std.specs.Prelude.{List};
    ghost use Rattle.ds_domain_base.specs.declared.contract.Contract.{Contract};
    ghost use Rattle.ds_offers.specs.Offered.{AreOffered};

    ghost Value = { List Contract };

    ghost view = { λ o. o.contracts.items };

    ghost invariant = { λ o. AreOffered o.places.entries o.contracts.items };
}

impl Offers {
    /// No contracts. It takes no memory.
    pub fn new(alloc: Global) -> Self
        ensures { result ≡ [] }
    {
        Offers {
            contracts: Vec::new(alloc),
            places: IndexMap::new(alloc),
        }
    }

    /// Contracts in their order; `AllocError` where memory runs out.
    pub fn of(alloc: Global, contracts: Vec<BoxedContract>) -> Result<Self, AllocError>
        ensures { IfOk result (λ offers. offers ≡ contracts.items) }
    {
        let mut offers = Offers::new(alloc);
        for contract in contracts {
            offers.push(contract)?;
        }
        Ok(offers)
    }

    /// How many there are.
    pub fn len(&self) -> usize
        ensures { result ≡ length self.now }
    {
        self.contracts.len()
    }

    /// Whether a contract has the name.
    pub fn has_name(&self, name: Name) -> bool
        ensures { result ≡ has_name self.now name }
    {
        self.places.contains_key(&name)
    }

    /// Where the first contract of a name stands, if one has it. A text that is no name is that of none.
    pub fn place(&self, name: &[u8]) -> Option<usize>
        ensures { result ≡ position (λ c. bytes_eq name.now c.name) self.now }
    {
        let own = &self.places;
        let name = named(name)?;
        own.get(&name).copied()
    }

    /// Adds a contract behind the others. Where memory runs out nothing changes.
    pub fn push(&mut self, contract: BoxedContract) -> Result<(), AllocError>
        ensures added { OnOk result (self.new ≡ self.old ++ contract ∷ []) }
        ensures unchanged { OnErr result (self.new ≡ self.old) }
    {
        let place = self.contracts.len();
        let name = contract.contract().name;
        let _named = name.bytes();
        self.contracts.reserve(1)?;
        if !self.places.contains_key(&name) {
            self.places.insert(name, place)?;
        }
        self.contracts.push(contract).unwrap();
        Ok(())
    }

    /// The contracts, in order.
    pub fn contracts(&self) -> &[BoxedContract]
        ensures { result.now ≡ self.now }
    {
        self.contracts.as_slice()
    }

    /// The contracts, in order.
    pub fn into_contracts(self) -> Vec<BoxedContract>
        ensures { result.items ≡ self }
    {
        let Offers {
            contracts,
            places: _,
        } = self;
        contracts
    }
}
