//! The meters of a domain, shared by threads: each behind a lock of its own, visited by passes, and closed to journals.
//!
//! - a visit adds one receipt to the traveller and one to the pass's count of the site → `Fabric::visit`,
//!   `Fabric::advance`, `Fabric::visit_all`
//! - whenever a lock is free, the rows behind it are a replay (`MeterBook`) of what the fabric's domain says of the
//!   site's number, or of a contract's edge, and its tickets and the places that it gave are 2^44 together; a pass has
//!   a ticket for each visit that it counts. So with all passes all rows are as many as all visits
//! - each journal is as long as the passes count visits to its site, and there is one for each meter →
//!   `Fabric::close`, `FabricBooks::settle`
//! - a fabric has a name, the type of its ledger, which says what it is of → `FabricLedger`, `with_fabric`
//!
//! No clause says that a call returns.
#![tactic(auto)]

pub mod books;
mod columns;
pub mod fabric;
pub mod fault;
mod gathering;
pub mod ledger;
mod making;
pub mod pass;
mod site;
mod tails;
pub mod visit;
pub mod work;

pub use books::FabricBooks;
pub use fabric::Fabric;
pub use fault::{CloseFault, CutFault, FitFault, ShutFault};
pub use ledger::{FabricLedger, ticket_parts};
pub use meter_fabric_base::{
    BeginFault, Hop, MOST_FLOWS, Numbered, Opening, Receipt, Trail, Traveller, VisitFault, Ways,
    contract_of, edge_hop, edge_opening, flow_count, flows_of, opening_at, site_count,
};
pub use pass::Pass;
pub use site::{Ended, Fitted};
pub use visit::Visit;
pub use work::{FabricWork, with_fabric};
