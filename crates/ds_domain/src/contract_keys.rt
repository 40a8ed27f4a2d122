ghost use Rattle.std.specs.Prelude.{◌≡◌, ◌⊎◌, map, Err, IfErr, IfOk, Ok};
ghost use Rattle.toml.specs.View.{table_view};
ghost use Rattle.ds_domain_base.specs.Faults.{no_memory};
ghost use Rattle.ds_domain.specs.Keys.{number_at};
ghost use Rattle.ds_domain.specs.ContractEntries.{contract_head, contract_rest, contract_text, path_at};
ghost use Rattle.ds_domain.specs.ContractViews.{text_of};

use crate::keys::{moment_at, name_at, number_at, only, optional_moment_at, text_at};
use crate::kinds::{ContractKind, contract_kind_at};
use crate::place::Place;
use crate::rules::rule_at;
use crate::terms::Claim;
use af_marker::Class;
use ds_domain_base::{DomainFault, Field, Name, Version};
use ds_domain_text::keys::required_texts;
use flow_classifier::Rule;
use moment_core::Moment;
use std::alloc::Global;
use toml::Table;

/// The keys that contracts of all kinds have.
const CONTRACT_FIELDS: [Field; 13] = [
    Field::Name,
    Field::Kind,
    Field::Port,
    Field::Path,
    Field::Class,
    Field::Since,
    Field::Until,
    Field::Src,
    Field::Dst,
    Field::Protocol,
    Field::Sport,
    Field::Dport,
    Field::Dscp,
];

/// What the keys of a contract say, before it is judged.
#[derive(Drop)]
pub(crate) struct ContractKeys<'a> {
    /// Its name.
    pub(crate) name: Name,
    /// What it names as its port: any text.
    pub(crate) port: &'a str,
    /// What it names as the meters of its path: any texts.
    pub(crate) path: Vec<&'a str>,
    /// What the keys behind the path say.
    pub(crate) rest: ContractRest,
}

/// What the keys of a contract behind its path say.
#[derive(Clone, Copy)]
pub(crate) struct ContractRest {
    /// The assured forwarding class of its packets.
    pub(crate) class: Class,
    /// The first moment at which it may send.
    pub(crate) since: Moment,
    /// The first moment at which it may send no more, if there is one.
    pub(crate) until: Option<Moment>,
    /// What it says of its rates and bursts.
    pub(crate) claim: Claim,
    /// Which packets are its own.
    pub(crate) rule: Rule,
}

/// What the keys of a contract of a version say, key by key.
#[tactic(auto, unfolding(crate::specs::ContractEntries::contract_text))]
pub(crate) fn contract_keys<'a>(
    alloc: Global,
    place: Place,
    version: Version,
    table: &'a Table,
) -> Result<ContractKeys<'a>, DomainFault>
    ensures ok { IfOk result (λ keys. contract_text place version (table_view table.now) ≡ Ok (text_of keys)) }
    ensures refused { IfErr result (λ fault. (fault ≡ no_memory)
        ⊎ (contract_text place version (table_view table.now) ≡ Err fault)) }
{
    let (kind, name) = contract_head(place, version, table)?;
    let port = text_at(place, table, Field::Port)?;
    let path = path_at(alloc, place, table)?;
    let rest = contract_rest(place, version, kind, table)?;
    Ok(ContractKeys {
        name,
        port,
        path,
        rest,
    })
}

/// The kind first, then keys that the kind does not have in the version, then the name.
#[tactic(auto, unfolding(crate::specs::ContractEntries::contract_head))]
fn contract_head(
    place: Place,
    version: Version,
    table: &Table,
) -> Result<(ContractKind, Name), DomainFault>
    ensures { result ≡ contract_head place version (table_view table.now) }
{
    let kind = contract_kind_at(place, table)?;
    only(place, table, &CONTRACT_FIELDS, kind.terms_fields(version))?;
    let name = name_at(place, table)?;
    Ok((kind, name))
}

/// The keys behind the path.
#[tactic(auto, unfolding(crate::specs::ContractEntries::contract_rest))]
fn contract_rest(
    place: Place,
    version: Version,
    kind: ContractKind,
    table: &Table,
) -> Result<ContractRest, DomainFault>
    ensures { result ≡ contract_rest place version kind (table_view table.now) }
{
    let class = class_at(place, table)?;
    let since = moment_at(place, table, Field::Since)?;
    let until = optional_moment_at(place, table, Field::Until)?;
    let claim = kind.claim_at(place, table)?;
    let rule = rule_at(version, place, table)?;
    Ok(ContractRest {
        class,
        since,
        until,
        claim,
        rule,
    })
}

/// The names of a path, any texts.
#[tactic(auto, unfolding(crate::specs::ContractEntries::path_at))]
fn path_at<'a>(alloc: Global, place: Place, table: &'a Table) -> Result<Vec<&'a str>, DomainFault>
    ensures ok { IfOk result (λ path. path_at place (table_view table.now) ≡ Ok (map (λ name. name.now) path.items)) }
    ensures refused { IfErr result (λ fault. (fault ≡ no_memory) ⊎ (path_at place (table_view table.now) ≡ Err fault)) }
{
    required_texts(alloc, table, Field::Path.text()).map_err(|flaw| place.flaw(flaw, Field::Path))
}

/// The assured forwarding class.
fn class_at(place: Place, table: &Table) -> Result<Class, DomainFault>
    ensures { result ≡ number_at place Field.Class 1 4 (table_view table.now) }
{
    let class = number_at(place, table, Field::Class, 1, 4)?;
    Ok(Class::new(class as u8).unwrap())
}
