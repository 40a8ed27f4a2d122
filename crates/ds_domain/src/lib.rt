//! Domain texts: a TOML text of meters, ports, links and contracts is read into values that cannot be wrong, or its
//! first fault is named.
#![tactic(auto)]

mod contract_keys;
mod contracts;
mod keys;
mod kinds;
mod offering;
mod parsing;
mod parts;
mod place;
mod rules;
mod sections;
mod terms;

pub use ds_domain_base::{
    BoxedContract, Contract, Delay, Domain, DomainFault, Field, Kind, Lifetime, Link, MOST_HOPS,
    Meter, Name, Path, Peak, Port, Profile, Section, SoundParameters, Terms, Version, fits,
};
pub use ds_offers::Offers;
pub use offering::read_contract;
pub use parsing::parse;
