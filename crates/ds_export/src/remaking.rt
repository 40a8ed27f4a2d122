ghost use Rattle.std.specs.Prelude.{◌≡◌, ◌++◌, map, IfOk, OnOk};
ghost use Rattle.ds_domain_base.specs.Domains.{with_link};
ghost use Rattle.ds_export.specs.Remade.{changed, with_parameters};

use ds_domain_base::{Domain, Link, Meter, Name, SoundParameters};
use std::alloc::{AllocError, Global};
use std::str::from_utf8;

/// The same domain again, but that the meter of a name has other parameters; `AllocError` where memory runs out.
pub fn remade(
    alloc: Global,
    domain: &Domain,
    name: Name,
    parameters: SoundParameters,
) -> Result<Domain, AllocError>
    ensures { IfOk result (λ other. other ≡ with_parameters domain.now name parameters) }
{
    let mut other = Domain::new(alloc, domain.version());
    add_meters(&mut other, domain, name, parameters)?;
    add_ports(&mut other, domain)?;
    add_links(&mut other, domain)?;
    Ok(other)
}

/// Adds the meters of a domain, that of a name with other parameters.
fn add_meters(
    other: &mut Domain,
    domain: &Domain,
    name: Name,
    parameters: SoundParameters,
) -> Result<(), AllocError>
    ensures { OnOk result (other.new
        ≡ record other.old { meters = other.old.meters ++ map (changed name parameters) domain.now.meters }) }
{
    for (key, meter) in domain.meters().iter() {
        let Ok(()) = other.add_meter(*key, changed(name, parameters, *key, *meter)) else {
            return Err(AllocError);
        };
    }
    Ok(())
}

/// A meter with other parameters where it is that of a name.
fn changed(name: Name, parameters: SoundParameters, key: Name, meter: Meter) -> Meter
    ensures { (key, result) ≡ changed name parameters (key, meter) }
{
    if name == key {
        Meter {
            parameters,
            ..meter
        }
    } else {
        meter
    }
}

/// Adds the ports of a domain.
fn add_ports(other: &mut Domain, domain: &Domain) -> Result<(), AllocError>
    ensures { OnOk result (other.new ≡ record other.old { ports = other.old.ports ++ domain.now.ports }) }
{
    for (key, port) in domain.ports().iter() {
        let Ok(()) = other.add_port(*key, *port) else {
            return Err(AllocError);
        };
    }
    Ok(())
}

/// Adds the links of a domain.
fn add_links(other: &mut Domain, domain: &Domain) -> Result<(), AllocError>
    ensures { OnOk result (other.new ≡ record other.old { links = other.old.links ++ domain.now.links }) }
{
    for (ends, link) in domain.links().iter() {
        add_link(other, ends.0, ends.1, *link)?;
    }
    Ok(())
}

/// Adds a link from a name to a name.
fn add_link(other: &mut Domain, from: Name, to: Name, link: Link) -> Result<(), AllocError>
    ensures { OnOk result (other.new ≡ with_link other.old from to link) }
{
    let (Ok(from), Ok(to)) = (from_utf8(from.bytes()), from_utf8(to.bytes())) else {
        return Err(AllocError);
    };
    match other.add_link(from, to, link) {
        Ok(()) => Ok(()),
        Err(_) => Err(AllocError),
    }
}
