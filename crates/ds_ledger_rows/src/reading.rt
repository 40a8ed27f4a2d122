//! The command of a row.
ghost use Rattle.std.specs.Prelude.{◌≡◌, ◌<◌, IfOk};
ghost use Rattle.ds_broker.specs.declared.command.Command.{Command};
ghost use Rattle.ds_ledger_rows.specs.Cells.{cells_of, id_of};
ghost use Rattle.ds_ledger_rows.specs.Sound.{IsSound};

use crate::writing::row_of;
use af_marker::{Class, Dscp};
use ds_broker::Command;
use ds_domain_base::{Contract, Lifetime, Name, Path, Peak, Profile, SoundParameters, Terms};
use flow_classifier::{Ipv4Prefix, Ipv6Prefix, PortRange, Prefix, Rule};
use meter_book_base::Parameters;
use moment_core::{Mode, Moment, Rate};
use rfc4115_core::Rfc4115Parameters;
use sqlite_value::row::Row;
use sqlite_value::value::ValueRef;
use srtcm_core::SrTcmParameters;
use std::alloc::Global;
use std::net::Ipv6Addr;
use trtcm_core::TrTcmParameters;

/// Why a row gives no command.
#[derive(Clone, Copy, Debug, PartialEq, Eq, Drop)]
pub enum RowFault {
    /// It is not the row of a command that was accepted with this serial and this id.
    NoCommand,
    /// Memory ran out.
    NoMemory,
}

/// The command whose row this is, where it was accepted with this serial, and where it is a reserve, with this id.
///
/// Refused: `NoCommand` where it is the row of none, `NoMemory` where memory runs out.
pub fn read_command(
    alloc: Global,
    serial: u32,
    granted: u32,
    row: &Row,
) -> Result<Command, RowFault>
    ensures cells { IfOk result (λ command. row.now ≡ cells_of serial (id_of granted command) command) }
    ensures sound { IfOk result IsSound }
    ensures same { IfOk result (λ command. (other : Command) → IsSound other →
        row.now ≡ cells_of serial (id_of granted other) other → command ≡ other) }
{
    let command = command_in(alloc, row)?;
    let Ok(own) = row_of(alloc, serial, id_of(granted, &command), &command) else {
        return Err(RowFault::NoMemory);
    };
    if row.is_same(&own) {
        Ok(command)
    } else {
        Err(RowFault::NoCommand)
    }
}

/// The id of a command: that of the contract that it names, or where it grants one, this.
fn id_of(granted: u32, command: &Command) -> u32
    ensures { result ≡ id_of granted command.now }
{
    match command {
        Command::Reserve(_) => granted,
        Command::Release { id, .. } | Command::Retire { id, .. } => *id,
    }
}

/// What the cells of a row say.
fn command_in(alloc: Global, row: &Row) -> Result<Command, RowFault> {
    let ValueRef::Text(done) = row.get(1) else {
        return Err(RowFault::NoCommand);
    };
    match done {
        b"reserve" => Ok(Command::Reserve(contract_in(alloc, row)?)),
        b"release" => Ok(Command::Release {
            id: whole(row, 2)?,
            at: moment(row, 3)?,
        }),
        b"retire" => Ok(Command::Retire {
            id: whole(row, 2)?,
            moment: moment(row, 3)?,
        }),
        _ => Err(RowFault::NoCommand),
    }
}

/// The number in a column.
fn count(row: &Row, at: usize) -> Result<u64, RowFault> {
    match row.get(at) {
        ValueRef::Int(number) => u64::try_from(number).map_err(|_| RowFault::NoCommand),
        _ => Err(RowFault::NoCommand),
    }
}

/// The number of 32 bits in a column.
fn whole(row: &Row, at: usize) -> Result<u32, RowFault> {
    u32::try_from(count(row, at)?).map_err(|_| RowFault::NoCommand)
}

/// The number of 16 bits in a column.
fn short(row: &Row, at: usize) -> Result<u16, RowFault> {
    u16::try_from(count(row, at)?).map_err(|_| RowFault::NoCommand)
}

/// The number of 8 bits in a column.
fn byte(row: &Row, at: usize) -> Result<u8, RowFault> {
    u8::try_from(count(row, at)?).map_err(|_| RowFault::NoCommand)
}

/// Whether a column says something.
fn is_said(row: &Row, at: usize) -> bool {
    !matches!(row.get(at), ValueRef::Null)
}

/// The moment in a column.
fn moment(row: &Row, at: usize) -> Result<Moment, RowFault> {
    Moment::new(count(row, at)?).map_err(|_| RowFault::NoCommand)
}

/// The name that bytes are.
fn name_of(bytes: &[u8]) -> Result<Name, RowFault> {
    match std::str::from_utf8(bytes) {
        Ok(text) => Name::new(text).map_err(|_| RowFault::NoCommand),
        Err(_) => Err(RowFault::NoCommand),
    }
}

/// The bytes of the text in a column.
fn text(row: &Row, at: usize) -> Result<&[u8], RowFault> {
    match row.get(at) {
        ValueRef::Text(bytes) => Ok(bytes),
        _ => Err(RowFault::NoCommand),
    }
}

/// The name in a column.
fn name(row: &Row, at: usize) -> Result<Name, RowFault> {
    match row.get(at) {
        ValueRef::Text(bytes) => name_of(bytes),
        _ => Err(RowFault::NoCommand),
    }
}

/// The contract that a row says.
fn contract_in(alloc: Global, row: &Row) -> Result<Contract, RowFault> {
    let name = name(row, 4)?;
    let port = name_in_port(row)?;
    let class = class(row)?;
    let terms = terms(row)?;
    let lifetime = lifetime(row)?;
    let rule = rule(row)?;
    let path = path(alloc, row)?;
    Ok(Contract {
        name,
        terms,
        port,
        path,
        class,
        lifetime,
        rule,
    })
}

/// The port.
fn name_in_port(row: &Row) -> Result<Name, RowFault> {
    name(row, 5)
}

/// The path: names, each behind a slash.
fn path(alloc: Global, row: &Row) -> Result<Path, RowFault> {
    match row.get(6) {
        ValueRef::Text(bytes) => path_of(alloc, bytes),
        _ => Err(RowFault::NoCommand),
    }
}

/// The path that bytes are.
fn path_of(alloc: Global, bytes: &[u8]) -> Result<Path, RowFault> {
    let mut meters = Vec::new(alloc);
    let mut places = bytes.split(|byte| *byte == b'/');
    let _front = places.next();
    for place in places {
        let meter = name_of(place)?;
        let Ok(()) = meters.push(meter) else {
            return Err(RowFault::NoMemory);
        };
    }
    Path::new(alloc, meters).map_err(|_| RowFault::NoMemory)
}

/// The class.
fn class(row: &Row) -> Result<Class, RowFault> {
    Class::new(byte(row, 7)?).map_err(|_| RowFault::NoCommand)
}

/// A rate.
fn rate(row: &Row, at: usize) -> Result<Rate, RowFault> {
    Rate::new(count(row, at)?).map_err(|_| RowFault::NoCommand)
}

/// A rate and a burst.
fn profile(row: &Row, at: usize) -> Result<Profile, RowFault>
    requires { at < 100 }
{
    Ok(Profile {
        rate: rate(row, at)?,
        burst: whole(row, at + 1)?,
    })
}

/// A rate and a burst, if there are any.
fn optional_profile(row: &Row, at: usize) -> Result<Option<Profile>, RowFault>
    requires { at < 100 }
{
    if is_said(row, at) {
        Ok(Some(profile(row, at)?))
    } else {
        Ok(None)
    }
}

/// What a contract is trusted with or held to.
fn terms(row: &Row) -> Result<Terms, RowFault> {
    match text(row, 8)? {
        b"trusted" => trusted(row),
        b"srtcm" => policed(row, Parameters::SrTcm(single_rate(row)?)),
        b"trtcm" => policed(row, Parameters::TrTcm(two_rate(row)?)),
        b"rfc4115" => policed(row, Parameters::Rfc4115(separate_rates(row)?)),
        _ => Err(RowFault::NoCommand),
    }
}

/// What a trusted contract keeps.
fn trusted(row: &Row) -> Result<Terms, RowFault> {
    let committed = profile(row, 10)?;
    let peak = match optional_profile(row, 12)? {
        Some(profile) => Some(Peak {
            profile,
            excess: optional_profile(row, 14)?,
        }),
        None => None,
    };
    Ok(Terms::Trusted { committed, peak })
}

/// What a policed contract is held to.
fn policed(row: &Row, parameters: Parameters) -> Result<Terms, RowFault> {
    let Ok(parameters) = SoundParameters::new(parameters) else {
        return Err(RowFault::NoCommand);
    };
    let mode = match text(row, 9)? {
        b"blind" => Mode::Blind,
        b"aware" => Mode::Aware,
        _ => return Err(RowFault::NoCommand),
    };
    Ok(Terms::Policed { parameters, mode })
}

/// The parameters of a single-rate meter.
fn single_rate(row: &Row) -> Result<SrTcmParameters, RowFault> {
    Ok(SrTcmParameters {
        committed_rate: rate(row, 10)?,
        committed_burst: whole(row, 11)?,
        excess_burst: whole(row, 15)?,
    })
}

/// The parameters of a two-rate meter.
fn two_rate(row: &Row) -> Result<TrTcmParameters, RowFault> {
    Ok(TrTcmParameters {
        committed_rate: rate(row, 10)?,
        committed_burst: whole(row, 11)?,
        peak_rate: rate(row, 12)?,
        peak_burst: whole(row, 13)?,
    })
}

/// The parameters of a meter of two separate rates.
fn separate_rates(row: &Row) -> Result<Rfc4115Parameters, RowFault> {
    Ok(Rfc4115Parameters {
        committed_rate: rate(row, 10)?,
        committed_burst: whole(row, 11)?,
        excess_rate: rate(row, 14)?,
        excess_burst: whole(row, 15)?,
    })
}

/// The lifetime.
fn lifetime(row: &Row) -> Result<Lifetime, RowFault> {
    let since = moment(row, 16)?;
    let until = if is_said(row, 17) {
        Some(moment(row, 17)?)
    } else {
        None
    };
    Lifetime::new(since, until).map_err(|_| RowFault::NoCommand)
}

/// The rule.
fn rule(row: &Row) -> Result<Rule, RowFault> {
    Ok(Rule {
        source: prefix(row, 18)?,
        target: prefix(row, 20)?,
        protocol: protocol(row)?,
        source_ports: range(row, 23)?,
        target_ports: range(row, 25)?,
        dscp: dscp(row)?,
    })
}

/// A prefix, if there is one.
fn prefix(row: &Row, at: usize) -> Result<Option<Prefix>, RowFault>
    requires { at < 100 }
{
    match row.get(at) {
        ValueRef::Null => Ok(None),
        ValueRef::Text(text) => ipv6_prefix(text, byte(row, at + 1)?),
        _ => ipv4_prefix(whole(row, at)?, byte(row, at + 1)?),
    }
}

/// A prefix of IPv4.
fn ipv4_prefix(address: u32, length: u8) -> Result<Option<Prefix>, RowFault> {
    match Ipv4Prefix::new(address, length) {
        Ok(prefix) => Ok(Some(Prefix::V4(prefix))),
        Err(_) => Err(RowFault::NoCommand),
    }
}

/// A prefix of IPv6, whose address is written.
fn ipv6_prefix(text: &[u8], length: u8) -> Result<Option<Prefix>, RowFault> {
    let Ok(address) = Ipv6Addr::parse_ascii(text) else {
        return Err(RowFault::NoCommand);
    };
    match Ipv6Prefix::new(address.to_bits(), length) {
        Ok(prefix) => Ok(Some(Prefix::V6(prefix))),
        Err(_) => Err(RowFault::NoCommand),
    }
}

/// Ports, if there are any.
fn range(row: &Row, at: usize) -> Result<Option<PortRange>, RowFault>
    requires { at < 100 }
{
    if !is_said(row, at) {
        return Ok(None);
    }
    match PortRange::new(short(row, at)?, short(row, at + 1)?) {
        Ok(range) => Ok(Some(range)),
        Err(_) => Err(RowFault::NoCommand),
    }
}

/// A protocol, if there is one.
fn protocol(row: &Row) -> Result<Option<u8>, RowFault> {
    if is_said(row, 22) {
        Ok(Some(byte(row, 22)?))
    } else {
        Ok(None)
    }
}

/// A code point, if there is one.
fn dscp(row: &Row) -> Result<Option<Dscp>, RowFault> {
    if !is_said(row, 27) {
        return Ok(None);
    }
    match Dscp::new(byte(row, 27)?) {
        Ok(dscp) => Ok(Some(dscp)),
        Err(_) => Err(RowFault::NoCommand),
    }
}
