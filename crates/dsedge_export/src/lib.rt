//! The words that set a device to the parameters of a meter, what the device makes of them, and what the checker says of
//! the domain then.
#![tactic(auto)]

mod exporting;
mod words;

pub use ds_export::Device;
pub use exporting::{Exported, export};
