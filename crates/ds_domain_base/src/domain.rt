ghost use Rattle.std.specs.Prelude.{◌≡◌, ◌≤◌, ◌^◌, ◌⊎◌, ◌++◌, None, Some, IfOk, IfErr, OnOk, OnErr};
ghost use Rattle.std.specs.Prelude.{if◌then◌else◌};
ghost use Rattle.ds_domain_base.specs.Domains.{bare, is_meter, is_port, is_taken, link_fault};
ghost use Rattle.ds_domain_base.specs.Domains.{link_of, meter_fault, meter_of, port_fault, port_of, skew_of, with_link};
ghost use Rattle.ds_domain_base.specs.Domains.{with_meter, with_port};
ghost use Rattle.ds_domain_base.specs.Faults.{no_memory};
ghost use Rattle.ds_domain_base.specs.Kept.{IsDomain};

use crate::fault::{DomainFault, Field, Kind, Section};
use crate::name::Name;
use crate::parts::{Link, Meter, Port, Version};
use indexmap::IndexMap;
use moment_core::Gap;
use std::alloc::Global;
use std::hash::Hash;
use std::marker::Model;

/// A domain: the version of its text, and its meters, ports and links.
///
/// Meters and ports have names that all differ. A link goes from a port or a meter to a meter, and there is one at most
/// from a name to a name. There are at most 1,024 meters, 1,024 ports and 65,536 links.
#[derive(Debug, Drop)]
pub struct Domain {
    version: Version,
    meters: IndexMap<Name, Meter>,
    ports: IndexMap<Name, Port>,
    links: IndexMap<(Name, Name), Link>,
}

impl Model for Domain {
    ghost use Rattle.ds_domain_base.specs.Domains.{Domain};

    ghost Value = { Domain };

    ghost use Rattle.ds_domain_base.specs.Kept.{IsDomain};

    ghost view = { λ d. record {
      version = d.version;
      meters = d.meters.entries;
      ports = d.ports.entries;
      links = d.links.entries;
    } };

    ghost invariant = { λ d. IsDomain (record {
      version = d.version;
      meters = d.meters.entries;
      ports = d.ports.entries;
      links = d.links.entries;
    }) };
}

impl Domain {
    /// The greatest number of meters.
    pub const MOST_METERS: usize = 1024;

    /// The greatest number of ports.
    pub const MOST_PORTS: usize = 1024;

    /// The greatest number of links.
    pub const MOST_LINKS: usize = 65_536;

    /// A domain with nothing in it, of a version of the text. It takes no memory.
    pub fn new(alloc: Global, version: Version) -> Self
        ensures { result ≡ bare version }
    {
        Domain {
            version,
            meters: IndexMap::new(alloc),
            ports: IndexMap::new(alloc),
            links: IndexMap::new(alloc),
        }
    }

    /// The version of its text.
    pub fn version(&self) -> Version
        ensures { result ≡ self.now.version }
    {
        self.version
    }

    /// The meter of a name.
    pub fn meter(&self, name: Name) -> Option<Meter>
        ensures { result ≡ meter_of self.now name }
    {
        self.meters.get(&name).copied()
    }

    /// The port of a name.
    pub fn port(&self, name: Name) -> Option<Port>
        ensures { result ≡ port_of self.now name }
    {
        self.ports.get(&name).copied()
    }

    /// The link from a name to a name.
    pub fn link(&self, from: Name, to: Name) -> Option<Link>
        ensures { result ≡ link_of self.now from to }
    {
        self.links.get(&(from, to)).copied()
    }

    /// The skew of the port of a name; none where there is no such port.
    pub fn port_skew(&self, name: Name) -> Gap
        ensures value { result ≡ skew_of (port_of self.now name) }
        ensures range { result ≤ 10 ^ 10 }
    {
        match self.port(name) {
            Some(port) => port.skew.gap(),
            None => Gap::NONE,
        }
    }

    /// Whether a name is that of a meter or a port.
    pub fn is_taken(&self, name: Name) -> bool
        ensures { result ≡ is_taken self.now name }
    {
        self.meter(name).is_some() || self.port(name).is_some()
    }

    /// The name of a meter that is written so, if there is one. A text that is no name is that of none.
    pub fn meter_named(&self, text: &str) -> Option<Name>
        ensures { result ≡ (if is_meter self.now text.now then Some text.now else None) }
    {
        let own = &self.meters;
        let Ok(name) = Name::new(text) else {
            return None;
        };
        own.contains_key(&name).then_some(name)
    }

    /// The name of a port that is written so, if there is one. A text that is no name is that of none.
    pub fn port_named(&self, text: &str) -> Option<Name>
        ensures { result ≡ (if is_port self.now text.now then Some text.now else None) }
    {
        let own = &self.ports;
        let Ok(name) = Name::new(text) else {
            return None;
        };
        own.contains_key(&name).then_some(name)
    }

    /// The name of a meter or a port that is written so, if there is one. A text that is no name is that of none.
    pub fn place_named(&self, text: &str) -> Option<Name>
        ensures { result ≡ (if is_taken self.now text.now then Some text.now else None) }
    {
        match self.meter_named(text) {
            Some(name) => Some(name),
            None => self.port_named(text),
        }
    }

    /// Adds a meter behind the others.
    ///
    /// Refused, and unchanged: `Range` where there are as many as there may be, `Twice` where the name is taken,
    /// `NoMemory` where memory runs out.
    pub fn add_meter(&mut self, name: Name, meter: Meter) -> Result<(), DomainFault>
        ensures added { OnOk result (self.new ≡ with_meter self.old name meter) }
        ensures good { OnOk result (meter_fault self.old name ≡ None) }
        ensures refused { IfErr result (λ fault. (fault ≡ no_memory) ⊎ (meter_fault self.old name ≡ Some fault)) }
        ensures unchanged { OnErr result (self.new ≡ self.old) }
    {
        let place = self.meters.len();
        if place >= Self::MOST_METERS {
            return Err(DomainFault::new(Kind::Range, Section::Top, 0, Field::Meter));
        }
        if self.is_taken(name) {
            return Err(DomainFault::new(Kind::Twice, Section::Meter, place, Field::Name));
        }
        self.meters.insert(name, meter)?;
        Ok(())
    }

    /// Adds a port behind the others.
    ///
    /// Refused, and unchanged: `Range` where there are as many as there may be, `Twice` where the name is taken,
    /// `NoMemory` where memory runs out.
    pub fn add_port(&mut self, name: Name, port: Port) -> Result<(), DomainFault>
        ensures added { OnOk result (self.new ≡ with_port self.old name port) }
        ensures good { OnOk result (port_fault self.old name ≡ None) }
        ensures refused { IfErr result (λ fault. (fault ≡ no_memory) ⊎ (port_fault self.old name ≡ Some fault)) }
        ensures unchanged { OnErr result (self.new ≡ self.old) }
    {
        let place = self.ports.len();
        if place >= Self::MOST_PORTS {
            return Err(DomainFault::new(Kind::Range, Section::Top, 0, Field::Port));
        }
        if self.is_taken(name) {
            return Err(DomainFault::new(Kind::Twice, Section::Port, place, Field::Name));
        }
        self.ports.insert(name, port)?;
        Ok(())
    }

    /// Adds a link behind the others, from the meter or port of a text to the meter of a text.
    ///
    /// Refused, and unchanged: `Range` where there are as many as there may be, `Twice` where there is one from the
    /// same to the same, `UnknownName` where `from` names no meter and no port, and then where `to` names no meter,
    /// `NoMemory` where memory runs out.
    pub fn add_link(&mut self, from: &str, to: &str, link: Link) -> Result<(), DomainFault>
        ensures added { OnOk result (self.new ≡ with_link self.old from.now to.now link) }
        ensures good { OnOk result (link_fault self.old from.now to.now ≡ None) }
        ensures refused { IfErr result
            (λ fault. (fault ≡ no_memory) ⊎ (link_fault self.old from.now to.now ≡ Some fault)) }
        ensures unchanged { OnErr result (self.new ≡ self.old) }
    {
        let place = self.links.len();
        if place >= Self::MOST_LINKS {
            return Err(DomainFault::new(Kind::Range, Section::Top, 0, Field::Link));
        }
        let Some(from) = self.place_named(from) else {
            return Err(DomainFault::new(Kind::UnknownName, Section::Link, place, Field::From));
        };
        let Some(to) = self.meter_named(to) else {
            return Err(DomainFault::new(Kind::UnknownName, Section::Link, place, Field::To));
        };
        if self.link(from, to).is_some() {
            return Err(DomainFault::new(Kind::Twice, Section::Link, place, Field::From));
        }
        self.links.insert((from, to), link)?;
        Ok(())
    }

    /// Its meters by name, in the order in which they were added.
    pub fn meters(&self) -> &IndexMap<Name, Meter>
        ensures entries { result.now.entries ≡ self.now.meters }
        ensures kept { IsDomain self.now }
    {
        &self.meters
    }

    /// Its ports by name, in the order in which they were added.
    pub fn ports(&self) -> &IndexMap<Name, Port>
        ensures entries { result.now.entries ≡ self.now.ports }
        ensures kept { IsDomain self.now }
    {
        &self.ports
    }

    /// Its links by where they come from and go to, in the order in which they were added.
    pub fn links(&self) -> &IndexMap<(Name, Name), Link>
        ensures entries { result.now.entries ≡ self.now.links }
        ensures kept { IsDomain self.now }
    {
        &self.links
    }

    /// The same domain again; `NoMemory` where memory runs out.
    pub fn copy(&self, alloc: Global) -> Result<Domain, DomainFault>
        ensures copied { IfOk result (λ domain. domain ≡ self.now) }
        ensures refused { IfErr result (λ fault. fault ≡ no_memory) }
    {
        let meters = copied(alloc, &self.meters)?;
        let ports = copied(alloc, &self.ports)?;
        let links = copied(alloc, &self.links)?;
        Ok(Domain {
            version: self.version,
            meters,
            ports,
            links,
        })
    }
}

/// The same entries again.
fn copied<K: Eq + Hash + Copy + Drop, V: Copy + Drop>(
    alloc: Global,
    map: &IndexMap<K, V>,
) -> Result<IndexMap<K, V>, DomainFault>
    ensures copied { IfOk result (λ copy. copy.entries ≡ map.now.entries) }
    ensures refused { IfErr result (λ fault. fault ≡ no_memory) }
{
    let mut copy = IndexMap::with_capacity(alloc, map.len())?;
    for (key, value) in map.iter() {
        copy.insert(*key, *value)?;
    }
    Ok(copy)
}
