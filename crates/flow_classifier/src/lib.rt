//! Rules that pick flows by the header of their packets, and the first rule that a packet meets: of a list, and of a
//! table that tests the sources of sixteen rules at once, or finds what packets ask for by halves where there are many.
#![tactic(auto)]

pub mod families;
pub mod key;
pub mod matching;
pub mod prefix;
pub mod rule;
pub mod table;
mod tuples;

pub use families::RuleTables;
pub use key::{Address, Addresses, Key};
pub use matching::first_match;
pub use prefix::{Ipv6Prefix, Prefix};
pub use rule::{Ipv4Prefix, PortRange, Rule};
pub use table::{FlowRule, RuleTable};
