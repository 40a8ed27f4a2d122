ghost use Rattle.std.specs.Prelude.{◌≡◌};
ghost use Rattle.toml.specs.View.{table_view};
ghost use Rattle.ds_domain.specs.Kinds.{contract_kind_at, contract_kind_of, meter_kind_at, meter_kind_of};
ghost use Rattle.ds_domain.specs.Kinds.{mode_at, mode_of, optional_mode_at, parameter_fields, terms_fields};
ghost use Rattle.ds_domain.specs.Kinds.{trusted_fields};

use crate::keys::text_at;
use crate::place::Place;
use ds_domain_base::{DomainFault, Field, Kind, Version};
use ds_domain_text::keys::optional_text;
use moment_core::Mode;
use toml::Table;

/// The kinds of meters.
#[derive(Clone, Copy)]
pub(crate) enum MeterKind {
    /// `srtcm`, a single-rate three-colour meter (RFC 2697).
    SrTcm,
    /// `trtcm`, a two-rate three-colour meter (RFC 2698).
    TrTcm,
    /// `rfc4115`, a two-rate three-colour meter with a committed and an excess rate (RFC 4115).
    Rfc4115,
}

/// The kinds of contracts.
#[derive(Clone, Copy)]
pub(crate) enum ContractKind {
    /// `trusted`.
    Trusted,
    /// Policed by a meter of its own, whose kind is the contract's.
    Policed(MeterKind),
}

/// The kind of meter that a text names.
#[tactic(auto, unfolding(crate::specs::Kinds::meter_kind_of))]
fn meter_kind_of(text: &str) -> Option<MeterKind>
    ensures { result ≡ meter_kind_of text.now }
{
    if text == "srtcm" {
        Some(MeterKind::SrTcm)
    } else if text == "trtcm" {
        Some(MeterKind::TrTcm)
    } else if text == "rfc4115" {
        Some(MeterKind::Rfc4115)
    } else {
        None
    }
}

/// The kind of contract that a text names.
#[tactic(auto, unfolding(crate::specs::Kinds::contract_kind_of))]
fn contract_kind_of(text: &str) -> Option<ContractKind>
    ensures { result ≡ contract_kind_of text.now }
{
    if text == "trusted" {
        Some(ContractKind::Trusted)
    } else {
        meter_kind_of(text).map(ContractKind::Policed)
    }
}

/// The mode that a text names.
#[tactic(auto, unfolding(crate::specs::Kinds::mode_of))]
fn mode_of(text: &str) -> Option<Mode>
    ensures { result ≡ mode_of text.now }
{
    if text == "aware" {
        Some(Mode::Aware)
    } else if text == "blind" {
        Some(Mode::Blind)
    } else {
        None
    }
}

/// The kind of a meter.
#[tactic(auto, unfolding(crate::specs::Kinds::meter_kind_at))]
pub(crate) fn meter_kind_at(place: Place, table: &Table) -> Result<MeterKind, DomainFault>
    ensures { result ≡ meter_kind_at place (table_view table.now) }
{
    let text = text_at(place, table, Field::Kind)?;
    meter_kind_of(text).ok_or(place.fault(Kind::Range, Field::Kind))
}

/// The kind of a contract.
#[tactic(auto, unfolding(crate::specs::Kinds::contract_kind_at))]
pub(crate) fn contract_kind_at(place: Place, table: &Table) -> Result<ContractKind, DomainFault>
    ensures { result ≡ contract_kind_at place (table_view table.now) }
{
    let text = text_at(place, table, Field::Kind)?;
    contract_kind_of(text).ok_or(place.fault(Kind::Range, Field::Kind))
}

/// The mode of a policed contract.
#[tactic(auto, unfolding(crate::specs::Kinds::mode_at))]
pub(crate) fn mode_at(place: Place, table: &Table) -> Result<Mode, DomainFault>
    ensures { result ≡ mode_at place (table_view table.now) }
{
    let text = text_at(place, table, Field::Mode)?;
    mode_of(text).ok_or(place.fault(Kind::Range, Field::Mode))
}

/// The mode of a meter, aware where it is absent.
#[tactic(auto, unfolding(crate::specs::Kinds::optional_mode_at))]
pub(crate) fn optional_mode_at(place: Place, table: &Table) -> Result<Mode, DomainFault>
    ensures { result ≡ optional_mode_at place (table_view table.now) }
{
    match optional_text(table, Field::Mode.text()) {
        Ok(Some(text)) => mode_of(text).ok_or(place.fault(Kind::Range, Field::Mode)),
        Ok(None) => Ok(Mode::Aware),
        Err(flaw) => Err(place.flaw(flaw, Field::Mode)),
    }
}

impl MeterKind {
    /// The keys of the parameters of a meter of the kind, in order.
    pub(crate) fn parameter_fields(self) -> &'static [Field]
        ensures { result.now ≡ parameter_fields self }
    {
        match self {
            MeterKind::SrTcm => &[Field::Cir, Field::Cbs, Field::Ebs],
            MeterKind::TrTcm => &[Field::Cir, Field::Cbs, Field::Pir, Field::Pbs],
            MeterKind::Rfc4115 => &[Field::Cir, Field::Cbs, Field::Eir, Field::Ebs],
        }
    }
}

/// The keys of what a trusted contract keeps, in order; the first version has none of those of an excess.
fn trusted_fields(version: Version) -> &'static [Field]
    ensures { result.now ≡ trusted_fields version }
{
    match version {
        Version::One => &[Field::Cir, Field::Cbs, Field::Pir, Field::Pbs],
        Version::Two | Version::Three => &[
            Field::Cir,
            Field::Cbs,
            Field::Pir,
            Field::Pbs,
            Field::Eir,
            Field::Ebs,
        ],
    }
}

impl ContractKind {
    /// The keys of the terms of a contract of the kind in a version, in order.
    pub(crate) fn terms_fields(self, version: Version) -> &'static [Field]
        ensures { result.now ≡ terms_fields version self }
    {
        match self {
            ContractKind::Trusted => trusted_fields(version),
            ContractKind::Policed(MeterKind::SrTcm) => &[
                Field::Mode,
                Field::Cir,
                Field::Cbs,
                Field::Ebs,
            ],
            ContractKind::Policed(MeterKind::TrTcm) => &[
                Field::Mode,
                Field::Cir,
                Field::Cbs,
                Field::Pir,
                Field::Pbs,
            ],
            ContractKind::Policed(MeterKind::Rfc4115) => &[
                Field::Mode,
                Field::Cir,
                Field::Cbs,
                Field::Eir,
                Field::Ebs,
            ],
        }
    }
}
