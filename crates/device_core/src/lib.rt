//! What devices make of a token bucket's rate and burst: a policer of Linux, as `tc` of iproute2 sets it, and the
//! meters of DPDK.
#![tactic(auto)]

pub mod device;
pub mod double;
pub mod police;
pub mod rte_meter;

pub use device::{Device, bytes_a_second};
pub use police::Pace;
pub use rte_meter::Steps;
