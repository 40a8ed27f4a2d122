//! What a device makes of a meter of a domain, and whether the checker still accepts the domain with it.
#![tactic(auto)]

mod checking;
pub mod making;
mod remaking;

pub use checking::check_with;
pub use device_core::{Device, bytes_a_second};
pub use making::{Unmade, made_parameters};
pub use remaking::remade;
