//! Assured forwarding: classes, code points, and the headers of IPv4 and IPv6 that carry them.
#![tactic(auto)]

mod checksum;
pub mod code_point;
pub mod drop_precedence;
mod field;
pub mod ipv4;
pub mod ipv6;
pub mod ipv6_marking;
pub mod ipv6_reading;
pub mod marking;
pub mod packet;
pub mod reading;

pub use code_point::{Class, Dscp};
pub use drop_precedence::{colour_of, dscp};
pub use ipv4::{HeaderFault, Ipv4Header};
pub use ipv6::Ipv6Header;
pub use ipv6_marking::{remark_ipv6, set_ipv6_dscp};
pub use ipv6_reading::ipv6_header;
pub use marking::{remark, set_dscp};
pub use moment_core::{Colour, OutOfRange};
pub use packet::{Header, Summary};
pub use reading::header;
