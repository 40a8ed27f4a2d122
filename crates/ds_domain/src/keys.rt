ghost use Rattle.std.specs.Prelude.{◌≡◌, ◌≤◌, ◌++◌, IfOk, IfSome};
ghost use Rattle.toml.specs.View.{table_view};
ghost use Rattle.ds_domain_text.specs.Steps.{lent};
ghost use Rattle.ds_domain.specs.Keys.{burst_at, delay_at, has_only, is_key_of, moment_at, name_at, number_at};
ghost use Rattle.ds_domain.specs.Keys.{only, optional_moment_at, optional_number_at, rate_at, text_at};

use crate::place::Place;
use ds_domain_base::{Delay, DomainFault, Field, Kind, Name};
use ds_domain_text::keys::{optional_number, required_number, required_text};
use moment_core::{Moment, Rate};
use toml::Table;

/// The greatest moment, in nanoseconds.
const MOST_NANOSECONDS: u64 = (1 << 63) - 1;

/// Whether a text is the key of one of the fields.
fn is_key_of(known: &[Field], key: &str) -> bool
    ensures { result ≡ is_key_of known.now key.now }
{
    known.iter().any(|field| field.text() == key)
}

/// Whether a table has no other key than those of the fields.
#[tactic(auto, unfolding(crate::specs::Keys::has_only))]
fn has_only(table: &Table, common: &[Field], own: &[Field]) -> bool
    ensures { result ≡ has_only (common.now ++ own.now) (table_view table.now) }
{
    table.keys().all(|key| is_key_of(common, key.as_str()) || is_key_of(own, key.as_str()))
}

/// Refuses a table with another key than those of the fields.
#[tactic(auto, unfolding(crate::specs::Keys::only))]
pub(crate) fn only(
    place: Place,
    table: &Table,
    common: &[Field],
    own: &[Field],
) -> Result<(), DomainFault>
    ensures { result ≡ only place (common.now ++ own.now) (table_view table.now) }
{
    if has_only(table, common, own) {
        Ok(())
    } else {
        Err(place.fault(Kind::Field, Field::Empty))
    }
}

/// A whole number from `least` to `most`.
#[tactic(auto, unfolding(crate::specs::Keys::number_at))]
pub(crate) fn number_at(
    place: Place,
    table: &Table,
    field: Field,
    least: u64,
    most: u64,
) -> Result<u64, DomainFault>
    ensures value { result ≡ number_at place field least most (table_view table.now) }
    ensures range { IfOk result (λ n. (least ≤ n) × (n ≤ most)) }
{
    required_number(table, field.text(), least, most).map_err(|flaw| place.flaw(flaw, field))
}

/// A whole number from `least` to `most`, which may be absent.
#[tactic(auto, unfolding(crate::specs::Keys::optional_number_at))]
pub(crate) fn optional_number_at(
    place: Place,
    table: &Table,
    field: Field,
    least: u64,
    most: u64,
) -> Result<Option<u64>, DomainFault>
    ensures value { result ≡ optional_number_at place field least most (table_view table.now) }
    ensures range { IfOk result (λ told. IfSome told (λ n. (least ≤ n) × (n ≤ most))) }
{
    optional_number(table, field.text(), least, most).map_err(|flaw| place.flaw(flaw, field))
}

/// A rate in bits per second.
#[tactic(auto, unfolding(crate::specs::Keys::rate_at))]
pub(crate) fn rate_at(place: Place, table: &Table, field: Field) -> Result<Rate, DomainFault>
    ensures { result ≡ rate_at place field (table_view table.now) }
{
    let rate = number_at(place, table, field, 1, Rate::MOST)?;
    Ok(Rate::new(rate).unwrap())
}

/// A burst in bytes.
#[tactic(auto, unfolding(crate::specs::Keys::burst_at))]
pub(crate) fn burst_at(place: Place, table: &Table, field: Field) -> Result<u32, DomainFault>
    ensures { result ≡ burst_at place field (table_view table.now) }
{
    let burst = number_at(place, table, field, 0, u64::from(u32::MAX))?;
    Ok(burst as u32)
}

/// A delay or a skew in nanoseconds.
#[tactic(auto, unfolding(crate::specs::Keys::delay_at))]
pub(crate) fn delay_at(place: Place, table: &Table, field: Field) -> Result<Delay, DomainFault>
    ensures { result ≡ delay_at place field (table_view table.now) }
{
    let delay = number_at(place, table, field, 0, Delay::MOST)?;
    Ok(Delay::new(delay).unwrap())
}

/// A moment in nanoseconds, which may be absent.
#[tactic(auto, unfolding(crate::specs::Keys::optional_moment_at))]
pub(crate) fn optional_moment_at(
    place: Place,
    table: &Table,
    field: Field,
) -> Result<Option<Moment>, DomainFault>
    ensures { result ≡ optional_moment_at place field (table_view table.now) }
{
    match optional_number_at(place, table, field, 0, MOST_NANOSECONDS)? {
        Some(moment) => Ok(Some(Moment::new(moment).unwrap())),
        None => Ok(None),
    }
}

/// A moment in nanoseconds, 0 where it is absent.
#[tactic(auto, unfolding(crate::specs::Keys::moment_at))]
pub(crate) fn moment_at(place: Place, table: &Table, field: Field) -> Result<Moment, DomainFault>
    ensures { result ≡ moment_at place field (table_view table.now) }
{
    match optional_moment_at(place, table, field)? {
        Some(moment) => Ok(moment),
        None => Ok(Moment::new(0).unwrap()),
    }
}

/// Any text.
#[tactic(auto, unfolding(crate::specs::Keys::text_at))]
pub(crate) fn text_at<'a>(
    place: Place,
    table: &'a Table,
    field: Field,
) -> Result<&'a str, DomainFault>
    ensures { lent result ≡ text_at place field (table_view table.now) }
{
    required_text(table, field.text()).map_err(|flaw| place.flaw(flaw, field))
}

/// The name of an entry.
#[tactic(auto, unfolding(crate::specs::Keys::name_at))]
pub(crate) fn name_at(place: Place, table: &Table) -> Result<Name, DomainFault>
    ensures { result ≡ name_at place (table_view table.now) }
{
    let text = text_at(place, table, Field::Name)?;
    Name::new(text).map_err(|_| place.fault(Kind::Range, Field::Name))
}
