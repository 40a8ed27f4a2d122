//! Where in a domain's text a fault of it stands: the line and the column of the key, and which bytes are its value.
#![tactic(auto)]

mod spot;

pub use spot::{FaultSpot, fault_spot};
pub use toml_places::{Place, Spot, Unread, place_at};
