ghost use Rattle.std.specs.Prelude.{◌≡◌};
ghost use Rattle.toml.specs.View.{table_view};
ghost use Rattle.ds_domain.specs.Parts.{meter_keys, with_link_of, with_meter_of, with_port_of};

use crate::keys::{delay_at, moment_at, name_at, only, text_at};
use crate::kinds::{meter_kind_at, optional_mode_at};
use crate::place::Place;
use crate::sections::Entries;
use crate::terms::sound;
use ds_domain_base::{Delay, Domain, DomainFault, Field, Kind, Link, Meter, Name, Port, Section};
use meter_book_base::Parameters;
use moment_core::{Mode, Moment};
use toml::Table;

/// The keys that meters of all kinds have.
const METER_FIELDS: [Field; 5] = [
    Field::Name,
    Field::Kind,
    Field::Mode,
    Field::Skew,
    Field::Origin,
];

/// The keys of a port.
const PORT_FIELDS: [Field; 2] = [Field::Name, Field::Skew];

/// The keys of a link.
const LINK_FIELDS: [Field; 4] = [Field::From, Field::To, Field::Floor, Field::Jitter];

/// What the keys of a meter say, before it is judged.
#[derive(Clone, Copy)]
pub(crate) struct MeterKeys {
    /// Its name.
    pub(crate) name: Name,
    /// Its mode.
    pub(crate) mode: Mode,
    /// Its parameters.
    pub(crate) parameters: Parameters,
    /// By how much packets may arrive there out of order.
    pub(crate) skew: Delay,
    /// The moment at which its buckets are full.
    pub(crate) origin: Moment,
}

/// What the keys of a meter say.
#[tactic(auto, unfolding(crate::specs::Parts::meter_keys))]
fn meter_keys(place: Place, table: &Table) -> Result<MeterKeys, DomainFault>
    ensures { result ≡ meter_keys place (table_view table.now) }
{
    let kind = meter_kind_at(place, table)?;
    only(place, table, &METER_FIELDS, kind.parameter_fields())?;
    let name = name_at(place, table)?;
    let mode = optional_mode_at(place, table)?;
    let parameters = kind.parameters_at(place, table)?;
    let skew = delay_at(place, table, Field::Skew)?;
    let origin = moment_at(place, table, Field::Origin)?;
    Ok(MeterKeys {
        name,
        mode,
        parameters,
        skew,
        origin,
    })
}

/// The meters of a domain.
pub(crate) struct Meters;

impl Entries for Meters {
    type Whole = Domain;

    ghost with_entry = { λ _. with_meter_of };

    #[tactic(auto, unfolding(crate::specs::Parts::with_meter_of))]
    fn add(&self, domain: &mut Domain, table: &Table) -> Result<(), DomainFault> {
        let place = Place {
            section: Section::Meter,
            index: domain.meters().len(),
        };
        let keys = meter_keys(place, table)?;
        if domain.is_taken(keys.name) {
            return Err(place.fault(Kind::Twice, Field::Name));
        }
        if keys.mode == Mode::Blind {
            return Err(place.fault(Kind::BlindInside, Field::Mode));
        }
        let meter = Meter {
            parameters: sound(place, keys.parameters)?,
            skew: keys.skew,
            origin: keys.origin,
        };
        domain.add_meter(keys.name, meter)
    }
}

/// The ports of a domain.
pub(crate) struct Ports;

impl Entries for Ports {
    type Whole = Domain;

    ghost with_entry = { λ _. with_port_of };

    #[tactic(auto, unfolding(crate::specs::Parts::with_port_of))]
    fn add(&self, domain: &mut Domain, table: &Table) -> Result<(), DomainFault> {
        let place = Place {
            section: Section::Port,
            index: domain.ports().len(),
        };
        only(place, table, &PORT_FIELDS, &[])?;
        let name = name_at(place, table)?;
        let skew = delay_at(place, table, Field::Skew)?;
        domain.add_port(name, Port { skew })
    }
}

/// The links of a domain.
pub(crate) struct Links;

impl Entries for Links {
    type Whole = Domain;

    ghost with_entry = { λ _. with_link_of };

    #[tactic(auto, unfolding(crate::specs::Parts::with_link_of))]
    fn add(&self, domain: &mut Domain, table: &Table) -> Result<(), DomainFault> {
        let place = Place {
            section: Section::Link,
            index: domain.links().len(),
        };
        only(place, table, &LINK_FIELDS, &[])?;
        let from = text_at(place, table, Field::From)?;
        let to = text_at(place, table, Field::To)?;
        let floor = delay_at(place, table, Field::Floor)?;
        let jitter = delay_at(place, table, Field::Jitter)?;
        domain.add_link(from, to, Link { floor, jitter })
    }
}
