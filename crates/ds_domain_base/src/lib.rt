//! The values of a domain: names, meters, ports, links and contracts that cannot be wrong, the faults that refuse
//! others, and which contract fits a domain.
#![tactic(auto)]

pub mod contract;
pub mod domain;
pub mod fault;
pub mod fit;
pub mod name;
pub mod parts;
pub mod path;
pub mod quantity;
pub mod route;
pub mod terms;

pub use contract::{BoxedContract, Contract};
pub use domain::Domain;
pub use fault::{DomainFault, Field, Kind, Section};
pub use fit::{MOST_HOPS, fits};
pub use meter_book_base::{Parameters, SoundParameters};
pub use name::{Name, is_name};
pub use parts::{Link, Meter, Port, Version};
pub use path::Path;
pub use quantity::{Delay, Lifetime};
pub use route::{Leg, Route, SharedRoute};
pub use terms::{Peak, Profile, Terms};
