ghost use Rattle.std.specs.Prelude.{◌≡◌, ◌⊎◌, [], false, map, true};
ghost use Rattle.std.specs.Prelude.{Err, IfErr, IfOk, MatchOption, None, Ok, OnOk, Some};
ghost use Rattle.toml.specs.View.{table_view};
ghost use Rattle.ds_domain_base.specs.Faults.{no_memory};
ghost use Rattle.ds_domain_base.specs.Fitting.{names_unknown, way_fault};
ghost use Rattle.ds_domain.specs.ContractEntries.{contract_in, contract_of, contract_terms};
ghost use Rattle.ds_domain.specs.ContractEntries.{next_contract, with_contract_of};
ghost use Rattle.ds_domain.specs.ContractViews.{text_parts};
ghost use Rattle.ds_domain.specs.Sections.{in_turn, section_in};

use crate::contract_keys::{ContractRest, contract_keys};
use crate::place::Place;
use crate::sections::Entries;
use ds_domain_base::{
    BoxedContract, Contract, Domain, DomainFault, Field, Kind, Lifetime, MOST_HOPS, Name, Path,
    Section, Terms, fits,
};
use ds_offers::Offers;
use std::alloc::Global;
use toml::Table;

/// The greatest number of contracts.
const MOST_CONTRACTS: usize = 4096;

/// The place of the next contract.
fn next_contract(done: &Offers) -> Place
    ensures { result ≡ next_contract done.now }
{
    Place {
        section: Section::Contract,
        index: done.len(),
    }
}

/// The names of meters, `None` where a text is not the name of one.
fn meters_named(
    alloc: Global,
    domain: &Domain,
    texts: &[&str],
) -> Result<Option<Vec<Name>>, DomainFault>
    ensures named { IfOk result (λ named. MatchOption named
        (names_unknown domain.now (map (λ text. text.now) texts.now) ≡ true)
        (λ names. names.items ≡ map (λ text. text.now) texts.now)) }
    ensures refused { IfErr result (λ fault. fault ≡ no_memory) }
{
    let mut names = Vec::new(alloc);
    for text in texts {
        let Some(name) = domain.meter_named(text) else {
            return Ok(None);
        };
        let Ok(()) = names.push(name) else {
            return Err(DomainFault::no_memory());
        };
    }
    Ok(Some(names))
}

/// The port and the path of a contract, by the names that the domain has; refused are names that it lacks, and a path
/// of no meter or of more than 16.
fn way_named(
    alloc: Global,
    domain: &Domain,
    place: Place,
    port: &str,
    path: &[&str],
) -> Result<(Name, Path), DomainFault>
    requires { place.section ≡ Section.Contract }
    ensures named { IfOk result (λ way. (way.0 ≡ port.now) × (way.1 ≡ map (λ text. text.now) path.now)) }
    ensures refused { IfErr result (λ fault. (fault ≡ no_memory)
        ⊎ (way_fault place.index domain.now port.now (map (λ text. text.now) path.now) ≡ Some fault)) }
{
    let Some(port) = domain.port_named(port) else {
        return Err(place.fault(Kind::UnknownName, Field::Port));
    };
    if path.is_empty() || path.len() > MOST_HOPS {
        return Err(place.fault(Kind::PathLength, Field::Path));
    }
    match meters_named(alloc, domain, path)? {
        Some(meters) => Ok((port, Path::new(alloc, meters)?)),
        None => Err(place.fault(Kind::UnknownName, Field::Path)),
    }
}

/// A contract, where it fits the domain; else its first fault at its place.
fn fitting(domain: &Domain, place: Place, contract: Contract) -> Result<Contract, DomainFault>
    ensures fits { IfOk result (λ own. (own ≡ contract)
        × (way_fault place.index domain.now contract.port contract.path ≡ None)) }
    ensures refused { IfErr result (λ fault.
        way_fault place.index domain.now contract.port contract.path ≡ Some fault) }
{
    match fits(domain, &contract) {
        Ok(()) => Ok(contract),
        Err(fault) => Err(DomainFault {
            index: place.index,
            ..fault
        }),
    }
}

/// The terms and the lifetime of the next contract; refused are a name that a contract before has, parameters that are
/// not those of a meter, and an end below the beginning.
#[tactic(auto, unfolding(crate::specs::ContractEntries::contract_terms))]
fn contract_terms(
    done: &Offers,
    name: Name,
    rest: &ContractRest,
) -> Result<(Terms, Lifetime), DomainFault>
    ensures { result ≡ contract_terms done.now name rest.now }
{
    let place = next_contract(done);
    if done.has_name(name) {
        return Err(place.fault(Kind::Twice, Field::Name));
    }
    let terms = rest.claim.terms(place)?;
    let lifetime = Lifetime::new(rest.since, rest.until).map_err(|_| place.fault(
        Kind::Range,
        Field::Until,
    ))?;
    Ok((terms, lifetime))
}

/// The contract of these parts: its terms and lifetime, its port and path, and the rest of what its keys say.
fn assembled(
    name: Name,
    judged: (Terms, Lifetime),
    way: (Name, Path),
    rest: &ContractRest,
) -> Contract
    ensures { result ≡ record {
      name = name;
      terms = judged.0;
      port = way.0;
      path = way.1;
      class = rest.now.class;
      lifetime = judged.1;
      rule = rest.now.rule;
    } }
{
    let (terms, lifetime) = judged;
    let (port, path) = way;
    Contract {
        name,
        terms,
        port,
        path,
        class: rest.class,
        lifetime,
        rule: rest.rule,
    }
}

/// The next contract, judged by the domain and by the contracts before it.
#[tactic(auto, unfolding(crate::specs::ContractEntries::contract_of))]
fn contract_of(
    alloc: Global,
    domain: &Domain,
    done: &Offers,
    name: Name,
    port: &str,
    path: &[&str],
    rest: &ContractRest,
) -> Result<Contract, DomainFault>
    ensures ok { IfOk result (λ contract.
        contract_of domain.now done.now (text_parts name port.now path.now rest.now) ≡ Ok contract) }
    ensures refused { IfErr result (λ fault. (fault ≡ no_memory)
        ⊎ (contract_of domain.now done.now (text_parts name port.now path.now rest.now) ≡ Err fault)) }
{
    let judged = contract_terms(done, name, rest)?;
    let way = way_named(alloc, domain, next_contract(done), port, path)?;
    fitting(
        domain,
        next_contract(done),
        assembled(name, judged, way, rest),
    )
}

/// The next contract, as its table says it, judged by the domain and by the contracts before it.
#[tactic(auto, unfolding(crate::specs::ContractEntries::contract_in))]
pub(crate) fn contract_in(
    alloc: Global,
    domain: &Domain,
    done: &Offers,
    table: &Table,
) -> Result<Contract, DomainFault>
    ensures ok { IfOk result (λ contract. contract_in domain.now done.now (table_view table.now) ≡ Ok contract) }
    ensures refused { IfErr result (λ fault. (fault ≡ no_memory)
        ⊎ (contract_in domain.now done.now (table_view table.now) ≡ Err fault)) }
{
    let keys = contract_keys(alloc, next_contract(done), domain.version(), table)?;
    let path = keys.path.as_slice();
    contract_of(alloc, domain, done, keys.name, keys.port, path, &keys.rest)
}

/// The contracts of a domain.
#[derive(Drop)]
struct Contracts<'a> {
    /// For the names of the contract that is read.
    alloc: Global,
    /// The domain.
    domain: &'a Domain,
}

impl Entries for Contracts<'_> {
    type Whole = Offers;

    ghost with_entry = { λ c. with_contract_of c.domain.now };

    #[tactic(auto, unfolding(crate::specs::ContractEntries::with_contract_of))]
    fn add(&self, done: &mut Offers, table: &Table) -> Result<(), DomainFault> {
        let contract = contract_in(self.alloc, self.domain, done, table)?;
        done.push(BoxedContract::new(self.alloc, contract)?)?;
        Ok(())
    }
}

/// The contracts of a section; `Range` where there are too many, before any is looked at.
pub(crate) fn contracts_of(
    alloc: Global,
    domain: &Domain,
    tables: &[&Table],
) -> Result<Vec<BoxedContract>, DomainFault>
    ensures ok { IfOk result (λ contracts. section_in Field.Contract 4096 (with_contract_of domain.now) []
        (map (λ table. table_view table.now) tables.now) ≡ Ok contracts.items) }
    ensures refused { IfErr result (λ fault. (fault ≡ no_memory)
        ⊎ (section_in Field.Contract 4096 (with_contract_of domain.now) []
        (map (λ table. table_view table.now) tables.now) ≡ Err fault)) }
{
    let mut done = Offers::new(alloc);
    let entries = Contracts { alloc, domain };
    entries.add_section(Field::Contract, MOST_CONTRACTS, &mut done, tables)?;
    Ok(done.into_contracts())
}
