ghost use Rattle.std.specs.Prelude.{◌≡◌, ◌⊎◌, option_map, Err, IfErr, IfOk, Ok};
ghost use Rattle.std.specs.Str.{IsUtf8};
ghost use Rattle.toml.specs.View.{table_view, view};
ghost use Rattle.ds_domain_base.specs.Faults.{no_memory};
ghost use Rattle.ds_domain.specs.OfferedTexts.{contract_said, contract_told};

use crate::contracts::contract_in;
use crate::parsing::{no_text, unread};
use crate::sections::top;
use ds_domain_base::{Contract, Domain, DomainFault, Field, Kind};
use ds_offers::Offers;
use std::alloc::Global;
use toml::Value;

/// The contract that a line of TOML says, an inline table with the keys of a contract's entry: as one more entry of the
/// text of its domain, behind those of the contracts that are offered.
///
/// Refused as that text would be, with its first fault at that entry: `Text` where the line is not UTF-8 or no value of
/// TOML, `Field` at `contract` where the value is no table, then what its keys, its name, its terms and its way have
/// against it, in this order. `NoMemory` where memory runs out. How many contracts a text may have is not asked.
#[tactic(auto, unfolding(crate::specs::OfferedTexts::contract_said))]
pub fn read_contract(
    alloc: Global,
    domain: &Domain,
    offers: &Offers,
    line: &[u8],
) -> Result<Contract, DomainFault>
    ensures ok { IfOk result (λ contract. contract_said domain.now offers.now line.now ≡ Ok contract) }
    // Bytes that are no text are told without memory.
    ensures refused { IfErr result (λ fault. ((fault ≡ no_memory) × IsUtf8 line.now)
        ⊎ (contract_said domain.now offers.now line.now ≡ Err fault)) }
{
    let Ok(text) = std::str::from_utf8(line) else {
        return Err(no_text());
    };
    match Value::from_str(alloc, text) {
        Ok(value) => told(alloc, domain, offers, &value),
        Err(error) => Err(unread(&error)),
    }
}

/// The contract that a value says, where it is a table.
#[tactic(auto, unfolding(crate::specs::OfferedTexts::contract_told))]
fn told(
    alloc: Global,
    domain: &Domain,
    offers: &Offers,
    value: &Value,
) -> Result<Contract, DomainFault>
    ensures ok { IfOk result (λ contract. contract_told domain.now offers.now (view value.now) ≡ Ok contract) }
    ensures refused { IfErr result (λ fault. (fault ≡ no_memory)
        ⊎ (contract_told domain.now offers.now (view value.now) ≡ Err fault)) }
{
    match value.as_table() {
        Some(table) => contract_in(alloc, domain, offers, table),
        None => Err(top().fault(Kind::Field, Field::Contract)),
    }
}
