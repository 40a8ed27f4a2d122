ghost use Rattle.std.specs.Prelude.{◌≡◌, ◌≤◌, ◌⊎◌, map, option_map, IfErr, IfOk, IfSome};
ghost use Rattle.toml.specs.Data.{get_member};
ghost use Rattle.toml.specs.View.{table_view, view};
ghost use Rattle.ds_domain_text.specs.Prefixes.{IsLong};
ghost use Rattle.ds_domain_text.specs.Steps.{lent, lent_if_there};
ghost use Rattle.ds_domain_text.specs.Values.{number_in, optional, port_range_in, prefix_in, required, tables_at};
ghost use Rattle.ds_domain_text.specs.Values.{text_in, texts_in};

use crate::flaw::Flaw;
use crate::prefix::AddressPrefix;
use crate::values::{number, port_range, prefix, tables, text, texts};
use std::alloc::Global;
use toml::{Table, Value};

/// The value at a key, if the table has it.
pub fn value_at<'a>(table: &'a Table, key: &str) -> Option<&'a Value>
    ensures { option_map (λ value. view value.now) result ≡ get_member key.now (table_view table.now) }
{
    table.get(key)
}

/// A whole number from `least` to `most`, which must be there.
#[tactic(auto, unfolding(crate::specs::Values::required))]
pub fn required_number(table: &Table, key: &str, least: u64, most: u64) -> Result<u64, Flaw>
    ensures value { result ≡ required (number_in least most) key.now (table_view table.now) }
    ensures range { IfOk result (λ n. (least ≤ n) × (n ≤ most)) }
{
    match value_at(table, key) {
        Some(value) => number(value, least, most),
        None => Err(Flaw::Misfit),
    }
}

/// A whole number from `least` to `most`, which may be absent.
#[tactic(auto, unfolding(crate::specs::Values::optional))]
pub fn optional_number(table: &Table, key: &str, least: u64, most: u64) -> Result<Option<u64>, Flaw>
    ensures value { result ≡ optional (number_in least most) key.now (table_view table.now) }
    ensures range { IfOk result (λ told. IfSome told (λ n. (least ≤ n) × (n ≤ most))) }
{
    match value_at(table, key) {
        Some(value) => Ok(Some(number(value, least, most)?)),
        None => Ok(None),
    }
}

/// A text, which must be there.
#[tactic(auto, unfolding(crate::specs::Values::required))]
pub fn required_text<'a>(table: &'a Table, key: &str) -> Result<&'a str, Flaw>
    ensures { lent result ≡ required text_in key.now (table_view table.now) }
{
    match value_at(table, key) {
        Some(value) => text(value),
        None => Err(Flaw::Misfit),
    }
}

/// A text, which may be absent.
#[tactic(auto, unfolding(crate::specs::Values::optional))]
pub fn optional_text<'a>(table: &'a Table, key: &str) -> Result<Option<&'a str>, Flaw>
    ensures { lent_if_there result ≡ optional text_in key.now (table_view table.now) }
{
    match value_at(table, key) {
        Some(value) => Ok(Some(text(value)?)),
        None => Ok(None),
    }
}

/// An array of texts, which must be there.
#[tactic(auto, unfolding(crate::specs::Values::required))]
pub fn required_texts<'a>(alloc: Global, table: &'a Table, key: &str) -> Result<Vec<&'a str>, Flaw>
    ensures ok { IfOk result (λ v. required texts_in key.now (table_view table.now)
        ≡ Ok (map (λ text. text.now) v.items)) }
    ensures refused { IfErr result
        (λ flaw. (flaw ≡ Flaw.NoMemory) ⊎ (required texts_in key.now (table_view table.now) ≡ Err flaw)) }
{
    match value_at(table, key) {
        Some(value) => texts(alloc, value),
        None => Err(Flaw::Misfit),
    }
}

/// An array of tables; none where it is absent.
#[tactic(auto, unfolding(crate::specs::Values::tables_at))]
pub fn tables_at<'a>(alloc: Global, table: &'a Table, key: &str) -> Result<Vec<&'a Table>, Flaw>
    ensures ok { IfOk result (λ v. tables_at key.now (table_view table.now)
        ≡ Ok (map (λ table. table_view table.now) v.items)) }
    ensures refused { IfErr result
        (λ flaw. (flaw ≡ Flaw.NoMemory) ⊎ (tables_at key.now (table_view table.now) ≡ Err flaw)) }
{
    match value_at(table, key) {
        Some(value) => tables(alloc, value),
        None => Ok(Vec::new(alloc)),
    }
}

/// A prefix of addresses, which may be absent; one of IPv6 only where they may be asked for.
#[tactic(auto, unfolding(crate::specs::Values::optional))]
pub fn optional_prefix(
    with_ipv6: bool,
    table: &Table,
    key: &str,
) -> Result<Option<AddressPrefix>, Flaw>
    ensures value { result ≡ optional (prefix_in with_ipv6) key.now (table_view table.now) }
    ensures range { IfOk result (λ told. IfSome told IsLong) }
{
    match value_at(table, key) {
        Some(value) => Ok(Some(prefix(with_ipv6, value)?)),
        None => Ok(None),
    }
}

/// A range of ports, which may be absent.
#[tactic(auto, unfolding(crate::specs::Values::optional))]
pub fn optional_port_range(table: &Table, key: &str) -> Result<Option<(u16, u16)>, Flaw>
    ensures value { result ≡ optional port_range_in key.now (table_view table.now) }
    ensures range { IfOk result (λ told. IfSome told (λ ends. ends.0 ≤ ends.1)) }
{
    match value_at(table, key) {
        Some(value) => Ok(Some(port_range(value)?)),
        None => Ok(None),
    }
}
