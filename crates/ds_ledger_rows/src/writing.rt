//! The row of a command.
ghost use Rattle.std.specs.Prelude.{◌≡◌, ◌++◌, ◌∷◌, ◌<◌, ◌^◌, [], All, IfOk, IfSome, OnOk, Some, string_bytes};
ghost use Rattle.flow_classifier.specs.declared.prefix.Prefix.TheVariants.{V4, V6};
ghost use Rattle.sqlite_value.specs.declared.value.Value.TheVariants.{Null, Text};
ghost use Rattle.ds_ledger_rows.specs.Cells.{address_text, cells_of, choice_cell, choice_cells, contract_cells};
ghost use Rattle.ds_ledger_rows.specs.Cells.{head_cells, kind_text, mode_text, no_contract, number_cell};
ghost use Rattle.ds_ledger_rows.specs.Cells.{parameters_cells, path_text};
ghost use Rattle.ds_ledger_rows.specs.Cells.{peak_cells, prefix_cells, profile_cells, range_cells, rule_cells};
ghost use Rattle.ds_ledger_rows.specs.Cells.{terms_cells};
ghost use Rattle.ds_ledger_rows.specs.Sound.{HasNoSlash, IsAddressed, IsSound, IsSoundContract};

use ds_broker::Command;
use ds_domain_base::{Contract, Name, Peak, Profile, Terms};
use flow_classifier::{Ipv4Prefix, Ipv6Prefix, PortRange, Prefix, Rule};
use meter_book_base::Parameters;
use moment_core::{Mode, Rate};
use sqlite_value::row::Row;
use sqlite_value::value::ValueRef;
use std::alloc::{AllocError, Global};
use std::net::Ipv6Addr;

/// How many columns the row of a command has.
pub const COLUMNS: usize = 28;

/// The row of a command that was accepted with this serial and this id; `AllocError` where memory runs out.
pub fn row_of(alloc: Global, serial: u32, id: u32, command: &Command) -> Result<Row, AllocError>
    ensures cells { IfOk result (λ row. row ≡ cells_of serial id command.now) }
    ensures sound { IfOk result (λ row. IsSound command.now) }
{
    let mut row = Row::new(alloc);
    match command {
        Command::Reserve(contract) => {
            push_head(&mut row, serial, b"reserve", id, None)?;
            push_contract(alloc, &mut row, contract)?;
        }
        Command::Release { at, .. } => {
            push_head(&mut row, serial, b"release", id, Some(at.get()))?;
            push_nulls(&mut row)?;
        }
        Command::Retire { moment, .. } => {
            push_head(&mut row, serial, b"retire", id, Some(moment.get()))?;
            push_nulls(&mut row)?;
        }
    }
    Ok(row)
}

/// Appends a number below 2^63.
fn push_count(row: &mut Row, number: u64) -> Result<(), AllocError>
    requires { number < 2 ^ 63 }
    ensures { OnOk result (row.new ≡ row.old ++ number_cell number ∷ []) }
{
    row.push(ValueRef::Int(number as i64))
}

/// Appends a number below 2^63, if there is one.
fn push_choice(row: &mut Row, number: Option<u64>) -> Result<(), AllocError>
    requires { IfSome number (λ n. n < 2 ^ 63) }
    ensures { OnOk result (row.new ≡ row.old ++ choice_cell number ∷ []) }
{
    match number {
        Some(number) => push_count(row, number),
        None => row.push(ValueRef::Null),
    }
}

/// Appends a text.
fn push_text(row: &mut Row, text: &[u8]) -> Result<(), AllocError>
    ensures { OnOk result (row.new ≡ row.old ++ Text text.now ∷ []) }
{
    row.push(ValueRef::Text(text))
}

/// Appends what all commands have.
fn push_head(
    row: &mut Row,
    serial: u32,
    done: &[u8],
    id: u32,
    moment: Option<u64>,
) -> Result<(), AllocError>
    requires { IfSome moment (λ n. n < 2 ^ 63) }
    ensures { OnOk result (row.new ≡ row.old ++ head_cells serial done.now id (choice_cell moment)) }
{
    push_count(row, u64::from(serial))?;
    push_text(row, done)?;
    push_count(row, u64::from(id))?;
    push_choice(row, moment)
}

/// Appends what stands in place of a contract.
fn push_nulls(row: &mut Row) -> Result<(), AllocError>
    ensures { OnOk result (row.new ≡ row.old ++ no_contract) }
{
    for _ in 0..24usize {
        row.push(ValueRef::Null)?;
    }
    Ok(())
}

/// Appends a contract.
fn push_contract(alloc: Global, row: &mut Row, contract: &Contract) -> Result<(), AllocError>
    ensures cells { OnOk result (row.new ≡ row.old ++ contract_cells contract.now) }
    ensures sound { OnOk result (IsSoundContract contract.now) }
{
    push_way(alloc, row, contract)?;
    push_terms(row, &contract.terms)?;
    push_count(row, contract.lifetime.since().get())?;
    push_until(row, contract)?;
    push_rule(alloc, row, &contract.rule)
}

/// Appends the name of a contract, its port, its path and its class.
fn push_way(alloc: Global, row: &mut Row, contract: &Contract) -> Result<(), AllocError>
    ensures cells { OnOk result (row.new ≡ row.old ++ (Text contract.now.name ∷ Text contract.now.port
        ∷ Text (path_text contract.now.path) ∷ number_cell contract.now.class ∷ [])) }
    ensures sound { OnOk result (All HasNoSlash contract.now.path) }
{
    let path = path_text(alloc, contract.path.meters())?;
    push_text(row, contract.name.bytes())?;
    push_text(row, contract.port.bytes())?;
    push_text(row, path.as_slice())?;
    push_count(row, u64::from(contract.class.get()))
}

/// Appends the end of a contract, if it has one.
fn push_until(row: &mut Row, contract: &Contract) -> Result<(), AllocError>
    ensures { OnOk result (row.new ≡ row.old ++ choice_cell contract.now.lifetime.until ∷ []) }
{
    match contract.lifetime.until() {
        Some(until) => push_count(row, until.get()),
        None => row.push(ValueRef::Null),
    }
}

/// The text of a path: each meter behind a slash.
fn path_text(alloc: Global, meters: &[Name]) -> Result<Vec<u8>, AllocError>
    ensures text { IfOk result (λ text. text.items ≡ path_text meters.now) }
    ensures sound { IfOk result (λ text. All HasNoSlash meters.now) }
{
    let mut text = Vec::new(alloc);
    for meter in meters {
        push_meter(&mut text, meter)?;
    }
    Ok(text)
}

/// Appends the name of a meter behind a slash.
#[tactic(auto, using(crate::proofs::SlashLaws::no_slash))]
fn push_meter(text: &mut Vec<u8>, meter: &Name) -> Result<(), AllocError>
    ensures text { OnOk result (text.new.items ≡ text.old.items ++ 47 ∷ meter.now) }
    ensures sound { OnOk result (HasNoSlash meter.now) }
{
    text.push(b'/')?;
    text.extend_from_slice(meter.bytes())
}

/// Appends a rate.
fn push_rate(row: &mut Row, rate: Rate) -> Result<(), AllocError>
    ensures { OnOk result (row.new ≡ row.old ++ number_cell rate ∷ []) }
{
    push_count(row, rate.get())
}

/// Appends a burst.
fn push_burst(row: &mut Row, burst: u32) -> Result<(), AllocError>
    ensures { OnOk result (row.new ≡ row.old ++ number_cell burst ∷ []) }
{
    push_count(row, u64::from(burst))
}

/// Appends a rate and a burst.
fn push_profile(row: &mut Row, profile: Profile) -> Result<(), AllocError>
    ensures { OnOk result (row.new ≡ row.old ++ profile_cells profile) }
{
    push_rate(row, profile.rate)?;
    push_burst(row, profile.burst)
}

/// Appends a rate and a burst, if there are any.
fn push_excess(row: &mut Row, profile: Option<Profile>) -> Result<(), AllocError>
    ensures { OnOk result (row.new ≡ row.old ++ choice_cells profile) }
{
    match profile {
        Some(profile) => push_profile(row, profile),
        None => {
            row.push(ValueRef::Null)?;
            row.push(ValueRef::Null)
        }
    }
}

/// Appends what yellow packets keep, if there may be any.
fn push_peak(row: &mut Row, peak: Option<Peak>) -> Result<(), AllocError>
    ensures { OnOk result (row.new ≡ row.old ++ peak_cells peak) }
{
    match peak {
        Some(peak) => {
            push_profile(row, peak.profile)?;
            push_excess(row, peak.excess)
        }
        None => {
            push_excess(row, None)?;
            push_excess(row, None)
        }
    }
}

/// Appends what a contract is trusted with or held to.
fn push_terms(row: &mut Row, terms: &Terms) -> Result<(), AllocError>
    ensures { OnOk result (row.new ≡ row.old ++ terms_cells terms.now) }
{
    match *terms {
        Terms::Trusted { committed, peak } => {
            push_text(row, b"trusted")?;
            row.push(ValueRef::Null)?;
            push_profile(row, committed)?;
            push_peak(row, peak)
        }
        Terms::Policed { parameters, mode } => {
            let parameters = parameters.get();
            push_text(row, kind_text(&parameters))?;
            push_text(row, mode_text(mode))?;
            push_parameters(row, &parameters)
        }
    }
}

/// The kind of a meter's parameters.
fn kind_text(parameters: &Parameters) -> &'static [u8]
    ensures { result.now ≡ kind_text parameters.now }
{
    match parameters {
        Parameters::SrTcm(_) => "srtcm".as_bytes(),
        Parameters::TrTcm(_) => "trtcm".as_bytes(),
        Parameters::Rfc4115(_) => "rfc4115".as_bytes(),
    }
}

/// How a mode is written.
fn mode_text(mode: Mode) -> &'static [u8]
    ensures { result.now ≡ mode_text mode }
{
    match mode {
        Mode::Blind => "blind".as_bytes(),
        Mode::Aware => "aware".as_bytes(),
    }
}

/// Appends a meter's parameters.
fn push_parameters(row: &mut Row, parameters: &Parameters) -> Result<(), AllocError>
    ensures { OnOk result (row.new ≡ row.old ++ parameters_cells parameters.now) }
{
    match parameters {
        Parameters::SrTcm(own) => {
            push_rate(row, own.committed_rate)?;
            push_burst(row, own.committed_burst)?;
            push_excess(row, None)?;
            row.push(ValueRef::Null)?;
            push_burst(row, own.excess_burst)
        }
        Parameters::TrTcm(own) => {
            push_rate(row, own.committed_rate)?;
            push_burst(row, own.committed_burst)?;
            push_rate(row, own.peak_rate)?;
            push_burst(row, own.peak_burst)?;
            push_excess(row, None)
        }
        Parameters::Rfc4115(own) => {
            push_rate(row, own.committed_rate)?;
            push_burst(row, own.committed_burst)?;
            push_excess(row, None)?;
            push_rate(row, own.excess_rate)?;
            push_burst(row, own.excess_burst)
        }
    }
}

/// An address of IPv6, as it is written.
fn address_text(alloc: Global, address: u128) -> Result<String, AllocError>
    ensures { IfOk result (λ text. string_bytes text ≡ address_text address) }
{
    Ipv6Addr::from_bits(address).to_string(alloc)
}

/// Appends an address of IPv6.
fn push_address(alloc: Global, row: &mut Row, address: u128) -> Result<(), AllocError>
    ensures { OnOk result (row.new ≡ row.old ++ Text (address_text address) ∷ []) }
{
    let text = address_text(alloc, address)?;
    push_text(row, text.as_bytes())
}

/// Appends a prefix of IPv4: its address as a number.
fn push_ipv4(row: &mut Row, prefix: Ipv4Prefix) -> Result<(), AllocError>
    ensures { OnOk result (row.new ≡ row.old ++ prefix_cells (Some (V4 prefix))) }
{
    push_count(row, u64::from(prefix.address()))?;
    push_count(row, u64::from(prefix.length()))
}

/// Appends a prefix of IPv6: its address as a text.
fn push_ipv6(alloc: Global, row: &mut Row, prefix: Ipv6Prefix) -> Result<(), AllocError>
    ensures cells { OnOk result (row.new ≡ row.old ++ prefix_cells (Some (V6 prefix))) }
    ensures sound { OnOk result (prefix.address < 2 ^ 128) }
{
    push_address(alloc, row, prefix.address())?;
    push_count(row, u64::from(prefix.length()))
}

/// Appends a prefix, if there is one.
fn push_prefix(alloc: Global, row: &mut Row, prefix: &Option<Prefix>) -> Result<(), AllocError>
    ensures cells { OnOk result (row.new ≡ row.old ++ prefix_cells prefix.now) }
    ensures sound { OnOk result (IfSome prefix.now IsAddressed) }
{
    match prefix {
        Some(Prefix::V4(prefix)) => push_ipv4(row, *prefix),
        Some(Prefix::V6(prefix)) => push_ipv6(alloc, row, *prefix),
        None => push_excess(row, None),
    }
}

/// Appends ports, if there are any.
fn push_range(row: &mut Row, range: Option<PortRange>) -> Result<(), AllocError>
    ensures { OnOk result (row.new ≡ row.old ++ range_cells range) }
{
    match range {
        Some(range) => {
            push_count(row, u64::from(range.low()))?;
            push_count(row, u64::from(range.high()))
        }
        None => push_excess(row, None),
    }
}

/// Appends a protocol, if there is one.
fn push_protocol(row: &mut Row, protocol: Option<u8>) -> Result<(), AllocError>
    ensures { OnOk result (row.new ≡ row.old ++ choice_cell protocol ∷ []) }
{
    match protocol {
        Some(protocol) => push_count(row, u64::from(protocol)),
        None => row.push(ValueRef::Null),
    }
}

/// Appends a rule.
fn push_rule(alloc: Global, row: &mut Row, rule: &Rule) -> Result<(), AllocError>
    ensures cells { OnOk result (row.new ≡ row.old ++ rule_cells rule.now) }
    ensures source { OnOk result (IfSome rule.now.source IsAddressed) }
    ensures target { OnOk result (IfSome rule.now.target IsAddressed) }
{
    push_prefix(alloc, row, &rule.source)?;
    push_prefix(alloc, row, &rule.target)?;
    push_protocol(row, rule.protocol)?;
    push_range(row, rule.source_ports)?;
    push_range(row, rule.target_ports)?;
    match rule.dscp {
        Some(dscp) => push_count(row, u64::from(dscp.get())),
        None => row.push(ValueRef::Null),
    }
}
