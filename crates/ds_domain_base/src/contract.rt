ghost use Rattle.std.specs.Prelude.{◌≡◌, IfOk, IfErr};
ghost use Rattle.ds_domain_base.specs.Sent.{came, edge_of, shown};
ghost use Rattle.ds_domain_base.specs.Faults.{no_memory};

use crate::fault::DomainFault;
use crate::name::Name;
use crate::path::Path;
use crate::quantity::Lifetime;
use crate::terms::Terms;
use af_marker::{Class, Dscp, colour_of};
use flow_classifier::Rule;
use meter_book_base::AnyMeter;
use moment_core::Colour;
use std::alloc::{AllocError, Global};
use std::marker::Model;

/// A contract: whose traffic, on which way through a domain, and what it is trusted with or held to.
#[derive(Debug, Drop)]
pub struct Contract {
    /// Its name.
    pub name: Name,
    /// What it is trusted with or held to.
    pub terms: Terms,
    /// The name of the port at which its packets enter.
    pub port: Name,
    /// The names of the meters that they pass.
    pub path: Path,
    /// The assured forwarding class of its packets (RFC 2597).
    pub class: Class,
    /// When it may send.
    pub lifetime: Lifetime,
    /// Which packets are its own.
    pub rule: Rule,
}

impl Contract {
    /// The colour that a packet with a code point comes in with: the one that the code point shows in the contract's
    /// class, any other code point being red. Yellow is red for a trusted contract without a peak.
    #[tactic(auto, unfolding(crate::specs::Sent::came))]
    pub fn came(&self, dscp: Dscp) -> Colour
        ensures { result ≡ came self.now dscp }
    {
        match colour_of(self.class, dscp) {
            None => Colour::Red,
            Some(Colour::Yellow) if !self.terms.has_peak() => Colour::Red,
            Some(colour) => colour,
        }
    }

    /// The meter at its edge as it is when the contract begins; None for a trusted contract.
    pub fn edge(&self) -> Option<AnyMeter>
        ensures { result ≡ edge_of self.now.terms self.now.lifetime.since }
    {
        self.terms.edge(self.lifetime.since())
    }

    /// The same contract again; `NoMemory` where memory runs out.
    pub fn copy(&self, alloc: Global) -> Result<Contract, DomainFault>
        ensures copied { IfOk result (λ contract. contract ≡ self.now) }
        ensures refused { IfErr result (λ fault. fault ≡ no_memory) }
    {
        Ok(Contract {
            name: self.name,
            terms: self.terms,
            port: self.port,
            path: self.path.copy(alloc)?,
            class: self.class,
            lifetime: self.lifetime,
            rule: self.rule,
        })
    }
}

/// A contract behind its owner, which is a pointer: a list of these moves little.
#[derive(Debug, Drop)]
pub struct BoxedContract {
    contract: Box<Contract>,
}

impl Model for BoxedContract {
    ghost use Rattle.ds_domain_base.specs.declared.contract.Contract as contracts;

    ghost Value = { contracts.Contract };

    ghost view = { λ b. b.contract.value };
}

impl BoxedContract {
    /// The contract, behind an owner; `AllocError` where memory runs out.
    pub fn new(alloc: Global, contract: Contract) -> Result<Self, AllocError>
        ensures { IfOk result (λ boxed. boxed ≡ contract) }
    {
        match Box::new(alloc, contract) {
            Ok(contract) => Ok(BoxedContract { contract }),
            Err(_) => Err(AllocError),
        }
    }

    /// The contract.
    pub fn contract(&self) -> &Contract
        ensures { result.now ≡ self.now }
    {
        &self.contract
    }

    /// The contract, without its owner.
    pub fn into_contract(self) -> Contract
        ensures { result ≡ self }
    {
        let BoxedContract { contract } = self;
        Box::into_inner(contract)
    }

    /// The same contract again, behind an owner of its own; `NoMemory` where memory runs out.
    pub fn copy(&self, alloc: Global) -> Result<BoxedContract, DomainFault>
        ensures copied { IfOk result (λ boxed. boxed ≡ self.now) }
        ensures refused { IfErr result (λ fault. fault ≡ no_memory) }
    {
        let contract = self.contract.copy(alloc)?;
        Ok(BoxedContract::new(alloc, contract)?)
    }

    /// Gives the contract another lifetime. It takes no memory.
    pub fn set_lifetime(&mut self, lifetime: Lifetime)
        ensures { self.new ≡ record self.old { lifetime = lifetime } }
    {
        self.contract.lifetime = lifetime;
    }

    /// Gives the contract other terms. It takes no memory.
    pub fn set_terms(&mut self, terms: Terms)
        ensures { self.new ≡ record self.old { terms = terms } }
    {
        self.contract.terms = terms;
    }
}
