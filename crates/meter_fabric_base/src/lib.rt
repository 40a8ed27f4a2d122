//! What a packet carries along its path: a traveller that visits the books of meters and keeps a receipt of each visit.
#![tactic(auto)]

pub mod fault;
pub mod hop;
pub mod numbered;
pub mod site;
pub mod trail;
pub mod traveller;
pub mod way;

pub use fault::{BeginFault, VisitFault};
pub use hop::{Hop, edge_hop};
pub use numbered::Numbered;
pub use site::{
    MOST_FLOWS, Opening, contract_of, edge_opening, flow_count, flows_of, opening_at, site_count,
};
pub use trail::{Receipt, Trail};
pub use traveller::Traveller;
pub use way::Ways;
