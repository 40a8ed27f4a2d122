ghost use Rattle.std.specs.Prelude.{◌≡◌, ◌⊎◌, ◌++◌, false, true, Err, IfErr, IfOk, Ok, OnOk, Some};
ghost use Rattle.std.specs.List.{list_all};
ghost use Rattle.ds_certificate.specs.Bounds.{fits};
ghost use Rattle.ds_checker.specs.Acceptance.{refusal_of};
ghost use Rattle.ds_domain_base.specs.Domains.{meter_of};
ghost use Rattle.ds_export.specs.Made.{made_parameters};
ghost use Rattle.ds_export.specs.Remade.{with_parameters};
ghost use Rattle.ds_quotes.specs.Quotes.{with_least};
ghost use Rattle.dsedge_export.specs.Exported.{export_at, export_in, judged, lines_of, told_made, unmade_line};

use crate::words::{push_made, push_words};
use ds_domain::{BoxedContract, Domain, Kind, Name, SoundParameters, parse};
use ds_export::{Device, Unmade, check_with, made_parameters};
use dsedge_texts::{QuoteFault, RefusalLine};
use std::alloc::{AllocError, Global};

/// What is told of an export.
#[derive(Debug, Drop)]
pub struct Exported {
    /// The lines.
    pub text: Vec<u8>,
    /// Whether the device makes the meter, and the checker accepts the domain with it.
    pub is_accepted: bool,
}

/// The words that set a device to the parameters of the meter of a name in a domain text, what the device makes of each
/// rate and burst, and on the last line `accepted`, or what the checker says of the contracts with their least certificate
/// where the meter is as the device makes it. `none`, with what it is, where the device cannot make one.
///
/// Refused: `Domain` with the first fault of the text, `NoField` where it has no such meter, in this order; `NoMemory`
/// where memory runs out.
pub fn export(
    alloc: Global,
    text: &[u8],
    name: &str,
    device: Device,
) -> Result<Exported, QuoteFault>
    ensures ok { IfOk result (λ told. export_in text.now name.now device ≡ Ok (told.text.items, told.is_accepted)) }
    ensures refused { IfErr result (λ fault. (fault ≡ QuoteFault.NoMemory)
        ⊎ (export_in text.now name.now device ≡ Err fault)) }
{
    match parse(alloc, text) {
        Ok((domain, contracts)) => export_named(alloc, &domain, contracts, name, device),
        Err(fault) if fault.kind == Kind::NoMemory => Err(QuoteFault::NoMemory),
        Err(fault) => Err(QuoteFault::Domain(fault)),
    }
}

/// The same of the meter of a name in a domain.
fn export_named(
    alloc: Global,
    domain: &Domain,
    contracts: Vec<BoxedContract>,
    name: &str,
    device: Device,
) -> Result<Exported, QuoteFault>
    requires { list_all (fits domain.now) contracts.items ≡ true }
    ensures ok { IfOk result (λ told. export_at domain.now contracts.items name.now device (meter_of domain.now name.now)
        ≡ Ok (told.text.items, told.is_accepted)) }
    ensures refused { IfErr result (λ fault. (fault ≡ QuoteFault.NoMemory)
        ⊎ (export_at domain.now contracts.items name.now device (meter_of domain.now name.now) ≡ Err fault)) }
{
    let Some(name) = domain.meter_named(name) else {
        return Err(QuoteFault::NoField);
    };
    let Some(meter) = domain.meter(name) else {
        return Err(QuoteFault::NoField);
    };
    match told_made(alloc, domain, contracts, name, device, meter.parameters) {
        Ok(told) => Ok(told),
        Err(_) => Err(QuoteFault::NoMemory),
    }
}

/// What is told of the meter of a name, which has these parameters.
fn told_made(
    alloc: Global,
    domain: &Domain,
    contracts: Vec<BoxedContract>,
    name: Name,
    device: Device,
    parameters: SoundParameters,
) -> Result<Exported, AllocError>
    requires { list_all (fits domain.now) contracts.items ≡ true }
    ensures { IfOk result (λ told. told_made domain.now contracts.items name device parameters
        (made_parameters device parameters) ≡ (told.text.items, told.is_accepted)) }
{
    match made_parameters(device, parameters.get()) {
        Ok(made) => {
            let lines = lines_of(alloc, device, parameters, made)?;
            judged(alloc, domain, contracts, name, made, lines)
        }
        Err(why) => unmade(alloc, why),
    }
}

/// The words that set a device, and what it makes of them.
fn lines_of(
    alloc: Global,
    device: Device,
    wanted: SoundParameters,
    made: SoundParameters,
) -> Result<Vec<u8>, AllocError>
    ensures { IfOk result (λ lines. lines.items ≡ lines_of device wanted made) }
{
    let mut lines = Vec::new(alloc);
    push_words(&mut lines, device, wanted.get())?;
    push_made(&mut lines, wanted.get(), made.get())?;
    Ok(lines)
}

/// What is told where a device makes no meter of the parameters.
fn unmade(alloc: Global, why: Unmade) -> Result<Exported, AllocError>
    ensures { IfOk result (λ told. (told.text.items ≡ unmade_line why) × (told.is_accepted ≡ false)) }
{
    let mut text = Vec::new(alloc);
    text.extend_from_slice(b"none ")?;
    text.extend_from_slice(why.text())?;
    text.push(b'\n')?;
    Ok(Exported {
        text,
        is_accepted: false,
    })
}

/// Lines, and behind them what the checker says of contracts where the meter of a name has other parameters.
fn judged(
    alloc: Global,
    domain: &Domain,
    contracts: Vec<BoxedContract>,
    name: Name,
    made: SoundParameters,
    lines: Vec<u8>,
) -> Result<Exported, AllocError>
    requires { list_all (fits domain.now) contracts.items ≡ true }
    ensures { IfOk result (λ told. judged lines.items contracts.items
        (refusal_of (with_least (with_parameters domain.now name made) contracts.items))
        ≡ (told.text.items, told.is_accepted)) }
{
    let mut text = lines;
    match check_with(alloc, domain, contracts, name, made) {
        Ok(_accepted) => {
            text.extend_from_slice(b"accepted\n")?;
            Ok(Exported {
                text,
                is_accepted: true,
            })
        }
        Err(Some((contracts, refusal))) => {
            text.extend_from_slice(RefusalLine::new(contracts.as_slice(), &refusal).bytes())?;
            Ok(Exported {
                text,
                is_accepted: false,
            })
        }
        Err(None) => Err(AllocError),
    }
}
