ghost use Rattle.std.specs.Prelude.{◌≡◌, ◌⊎◌, map, Err, IfErr, IfOk, Ok, OnOk};
ghost use Rattle.std.specs.Str.{IsUtf8};
ghost use Rattle.toml.specs.Errors.{IsMemory};
ghost use Rattle.toml.specs.View.{table_view};
ghost use Rattle.ds_domain_base.specs.Faults.{no_memory};
ghost use Rattle.ds_domain.specs.DomainTexts.{document_of, domain_of, no_text, parse_of, parts_of, with_parts_of};
ghost use Rattle.ds_domain.specs.DomainTexts.{section_of, sections_of, top_of};
ghost use Rattle.ds_domain.specs.SectionViews.{tables_of};

use crate::contracts::contracts_of;
use crate::keys::{only, optional_number_at};
use crate::parts::{Links, Meters, Ports};
use crate::sections::{Entries, top};
use ds_domain_base::{BoxedContract, Domain, DomainFault, Field, Kind, Section, Version};
use ds_domain_text::keys::tables_at;
use std::alloc::Global;
use toml::Table;
use toml::de::Error;

/// The keys at the top.
const TOP_FIELDS: [Field; 5] = [
    Field::Version,
    Field::Meter,
    Field::Port,
    Field::Link,
    Field::Contract,
];

/// The tables of the sections.
#[derive(Drop)]
pub(crate) struct Sections<'a> {
    /// The meters.
    pub(crate) meters: Vec<&'a Table>,
    /// The ports.
    pub(crate) ports: Vec<&'a Table>,
    /// The links.
    pub(crate) links: Vec<&'a Table>,
    /// The contracts.
    pub(crate) contracts: Vec<&'a Table>,
}

/// The domain and the contracts that a domain text says.
///
/// The text is TOML of at most four arrays of tables, `meter`, `port`, `link` and `contract`, and of a `version` that
/// is 1, 2 or 3, and 1 where it is absent. Refused is a text that is not so, with its first fault: first the text as a
/// whole, then its top, then the meters, ports, links and contracts, each in the order of the text. `NoMemory` where
/// memory runs out.
#[tactic(auto, unfolding(crate::specs::DomainTexts::parse_of))]
pub fn parse(alloc: Global, bytes: &[u8]) -> Result<(Domain, Vec<BoxedContract>), DomainFault>
    ensures ok { IfOk result (λ parsed. parse_of bytes.now ≡ Ok (parsed.0, parsed.1.items)) }
    // Bytes that are no text are told without memory.
    ensures refused { IfErr result (λ fault. ((fault ≡ no_memory) × IsUtf8 bytes.now)
        ⊎ (parse_of bytes.now ≡ Err fault)) }
{
    let Ok(text) = std::str::from_utf8(bytes) else {
        return Err(no_text());
    };
    match toml::table_from_str(alloc, text) {
        Ok(table) => document_of(alloc, &table),
        Err(error) => Err(unread(&error)),
    }
}

/// The fault of a text that its parser did not read: want of memory where the parser says that of itself, else that it
/// is not TOML.
pub(crate) fn unread(error: &Error) -> DomainFault
    ensures { (IsMemory error.now × (result ≡ no_memory)) ⊎ ((¬ IsMemory error.now) × (result ≡ no_text)) }
{
    if error.is_memory() {
        DomainFault::no_memory()
    } else {
        no_text()
    }
}

/// The fault of a text that is not UTF-8, or not TOML.
pub(crate) fn no_text() -> DomainFault
    ensures { result ≡ no_text }
{
    DomainFault::new(Kind::Text, Section::Text, 0, Field::Empty)
}

/// The domain and the contracts of a document.
#[tactic(auto, unfolding(crate::specs::DomainTexts::document_of))]
fn document_of(alloc: Global, table: &Table) -> Result<(Domain, Vec<BoxedContract>), DomainFault>
    ensures ok { IfOk result (λ parsed. document_of (table_view table.now) ≡ Ok (parsed.0, parsed.1.items)) }
    ensures refused { IfErr result (λ fault. (fault ≡ no_memory) ⊎ (document_of (table_view table.now) ≡ Err fault)) }
{
    let version = top_of(table)?;
    let sections = sections_of(alloc, table)?;
    parts_of(alloc, version, &sections)
}

/// The domain and the contracts of a version and of sections.
#[tactic(auto, unfolding(crate::specs::DomainTexts::parts_of))]
fn parts_of(
    alloc: Global,
    version: Version,
    sections: &Sections<'_>,
) -> Result<(Domain, Vec<BoxedContract>), DomainFault>
    ensures ok { IfOk result (λ parsed. parts_of version (tables_of sections.now) ≡ Ok (parsed.0, parsed.1.items)) }
    ensures refused { IfErr result (λ fault. (fault ≡ no_memory)
        ⊎ (parts_of version (tables_of sections.now) ≡ Err fault)) }
{
    let domain = domain_of(alloc, version, sections)?;
    let contracts = contracts_of(alloc, &domain, sections.contracts.as_slice())?;
    Ok((domain, contracts))
}

/// The version of the text, the first where it is not told. Refuses an unknown key at the top, and another version than
/// 1, 2 and 3.
#[tactic(auto, unfolding(crate::specs::DomainTexts::top_of))]
fn top_of(table: &Table) -> Result<Version, DomainFault>
    ensures { result ≡ top_of (table_view table.now) }
{
    only(top(), table, &TOP_FIELDS, &[])?;
    match optional_number_at(top(), table, Field::Version, 1, 3)? {
        Some(2) => Ok(Version::Two),
        Some(3) => Ok(Version::Three),
        _ => Ok(Version::One),
    }
}

/// The tables of a section, none where it is absent.
#[tactic(auto, unfolding(crate::specs::DomainTexts::section_of))]
fn section_of<'a>(
    alloc: Global,
    table: &'a Table,
    field: Field,
) -> Result<Vec<&'a Table>, DomainFault>
    ensures ok { IfOk result (λ tables. section_of field (table_view table.now)
        ≡ Ok (map (λ table. table_view table.now) tables.items)) }
    ensures refused { IfErr result (λ fault. (fault ≡ no_memory)
        ⊎ (section_of field (table_view table.now) ≡ Err fault)) }
{
    tables_at(alloc, table, field.text()).map_err(|flaw| top().flaw(flaw, field))
}

/// The tables of all sections.
#[tactic(auto, unfolding(crate::specs::DomainTexts::sections_of))]
fn sections_of<'a>(alloc: Global, table: &'a Table) -> Result<Sections<'a>, DomainFault>
    ensures ok { IfOk result (λ sections. sections_of (table_view table.now) ≡ Ok (tables_of sections)) }
    ensures refused { IfErr result (λ fault. (fault ≡ no_memory) ⊎ (sections_of (table_view table.now) ≡ Err fault)) }
{
    let meters = section_of(alloc, table, Field::Meter)?;
    let ports = section_of(alloc, table, Field::Port)?;
    let links = section_of(alloc, table, Field::Link)?;
    let contracts = section_of(alloc, table, Field::Contract)?;
    Ok(Sections {
        meters,
        ports,
        links,
        contracts,
    })
}

/// The domain of a version: its meters, then its ports, then its links.
#[tactic(auto, unfolding(crate::specs::DomainTexts::domain_of))]
fn domain_of(
    alloc: Global,
    version: Version,
    sections: &Sections<'_>,
) -> Result<Domain, DomainFault>
    ensures ok { IfOk result (λ domain. domain_of version (tables_of sections.now) ≡ Ok domain) }
    ensures refused { IfErr result (λ fault. (fault ≡ no_memory)
        ⊎ (domain_of version (tables_of sections.now) ≡ Err fault)) }
{
    let mut domain = Domain::new(alloc, version);
    add_parts(
        &mut domain,
        sections.meters.as_slice(),
        sections.ports.as_slice(),
        sections.links.as_slice(),
    )?;
    Ok(domain)
}

/// Adds meters, then ports, then links to a domain.
#[tactic(auto, unfolding(crate::specs::DomainTexts::with_parts_of))]
fn add_parts(
    domain: &mut Domain,
    meters: &[&Table],
    ports: &[&Table],
    links: &[&Table],
) -> Result<(), DomainFault>
    ensures added { OnOk result (with_parts_of domain.old (map (λ table. table_view table.now) meters.now)
        (map (λ table. table_view table.now) ports.now) (map (λ table. table_view table.now) links.now)
        ≡ Ok domain.new) }
    ensures refused { IfErr result (λ fault. (fault ≡ no_memory)
        ⊎ (with_parts_of domain.old (map (λ table. table_view table.now) meters.now)
        (map (λ table. table_view table.now) ports.now) (map (λ table. table_view table.now) links.now)
        ≡ Err fault)) }
{
    Meters.add_section(Field::Meter, Domain::MOST_METERS, domain, meters)?;
    Ports.add_section(Field::Port, Domain::MOST_PORTS, domain, ports)?;
    Links.add_section(Field::Link, Domain::MOST_LINKS, domain, links)
}
