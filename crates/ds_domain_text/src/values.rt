ghost use Rattle.std.specs.Prelude.{◌≡◌, ◌≤◌, ◌⊎◌, map, IfErr, IfOk};
ghost use Rattle.toml.specs.View.{items_view, table_view, view};
ghost use Rattle.ds_domain_text.specs.Prefixes.{IsLong};
ghost use Rattle.ds_domain_text.specs.Steps.{lent};
ghost use Rattle.ds_domain_text.specs.Values.{number_in, port_range_in, prefix_in, tables_in, text_in, texts_in};
ghost use Rattle.ds_domain_text.specs.Values.{two_numbers, within};

use crate::flaw::Flaw;
use crate::prefix::{AddressPrefix, prefix_of};
use std::alloc::Global;
use toml::{Table, Value};

/// A whole number from `least` to `most`.
#[tactic(auto, unfolding(crate::specs::Values::number_in))]
pub fn number(value: &Value, least: u64, most: u64) -> Result<u64, Flaw>
    ensures value { result ≡ number_in least most (view value.now) }
    ensures range { IfOk result (λ n. (least ≤ n) × (n ≤ most)) }
{
    let whole = value.as_integer().ok_or(Flaw::Misfit)?;
    within(whole, least, most)
}

/// A whole number, where it is in a range.
fn within(whole: i64, least: u64, most: u64) -> Result<u64, Flaw>
    ensures value { result ≡ within least most whole }
    ensures range { IfOk result (λ n. (least ≤ n) × (n ≤ most)) }
{
    if whole < 0 {
        return Err(Flaw::OutOfRange);
    }
    let number = whole as u64;
    if least <= number && number <= most {
        Ok(number)
    } else {
        Err(Flaw::OutOfRange)
    }
}

/// A text.
#[tactic(auto, unfolding(crate::specs::Values::text_in))]
pub fn text(value: &Value) -> Result<&str, Flaw>
    ensures { lent result ≡ text_in (view value.now) }
{
    value.as_str().ok_or(Flaw::Misfit)
}

/// An array of texts.
#[tactic(auto, unfolding(crate::specs::Values::texts_in))]
pub fn texts(alloc: Global, value: &Value) -> Result<Vec<&str>, Flaw>
    ensures ok { IfOk result (λ v. texts_in (view value.now) ≡ Ok (map (λ text. text.now) v.items)) }
    ensures refused { IfErr result (λ flaw. (flaw ≡ Flaw.NoMemory) ⊎ (texts_in (view value.now) ≡ Err flaw)) }
{
    let Some(array) = value.as_array() else {
        return Err(Flaw::Misfit);
    };
    let mut texts = Vec::new(alloc);
    for item in array {
        let Some(text) = item.as_str() else {
            return Err(Flaw::Misfit);
        };
        let Ok(()) = texts.push(text) else {
            return Err(Flaw::NoMemory);
        };
    }
    Ok(texts)
}

/// An array of tables.
#[tactic(auto, unfolding(crate::specs::Values::tables_in))]
pub fn tables(alloc: Global, value: &Value) -> Result<Vec<&Table>, Flaw>
    ensures ok { IfOk result (λ v. tables_in (view value.now) ≡ Ok (map (λ table. table_view table.now) v.items)) }
    ensures refused { IfErr result (λ flaw. (flaw ≡ Flaw.NoMemory) ⊎ (tables_in (view value.now) ≡ Err flaw)) }
{
    let Some(array) = value.as_array() else {
        return Err(Flaw::Misfit);
    };
    let mut tables = Vec::new(alloc);
    for item in array {
        let Some(table) = item.as_table() else {
            return Err(Flaw::Misfit);
        };
        let Ok(()) = tables.push(table) else {
            return Err(Flaw::NoMemory);
        };
    }
    Ok(tables)
}

/// A prefix of addresses, as `10.0.1.0/24`, or where addresses of IPv6 may be asked for, as `2001:db8::/32`.
#[tactic(auto, unfolding(crate::specs::Values::prefix_in))]
pub fn prefix(with_ipv6: bool, value: &Value) -> Result<AddressPrefix, Flaw>
    ensures value { result ≡ prefix_in with_ipv6 (view value.now) }
    ensures range { IfOk result IsLong }
{
    let text = text(value)?;
    prefix_of(with_ipv6, text.as_bytes()).ok_or(Flaw::OutOfRange)
}

/// A range of ports: `[low, high]`, each from 0 to 65535, `low` at most `high`.
#[tactic(auto, unfolding(crate::specs::Values::port_range_in))]
pub fn port_range(value: &Value) -> Result<(u16, u16), Flaw>
    ensures value { result ≡ port_range_in (view value.now) }
    ensures range { IfOk result (λ ends. ends.0 ≤ ends.1) }
{
    let array = value.as_array().ok_or(Flaw::Misfit)?;
    let (low, high) = two_numbers(array).ok_or(Flaw::Misfit)?;
    let low = port(low)?;
    let high = port(high)?;
    if low <= high {
        Ok((low, high))
    } else {
        Err(Flaw::OutOfRange)
    }
}

/// Two whole numbers, and nothing else.
fn two_numbers(items: &[Value]) -> Option<(i64, i64)>
    ensures { result ≡ two_numbers (items_view items.now) }
{
    match items {
        [low, high] => Some((low.as_integer()?, high.as_integer()?)),
        _ => None,
    }
}

/// A port: 0 to 65535.
fn port(whole: i64) -> Result<u16, Flaw>
    ensures { result ≡ within 0 65535 whole }
{
    if (0..=65535).contains(&whole) {
        Ok(whole as u16)
    } else {
        Err(Flaw::OutOfRange)
    }
}
