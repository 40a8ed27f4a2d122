//! Worked rows of the libraries below: what headers, their marks and the rules that pick flows answer in their
//! public calls. They stand here, and not beside those calls, since a crate with tests is proved twice.
#![tactic(auto)]

#[cfg(test)]
mod family_rows;
#[cfg(test)]
mod header_rows;
#[cfg(test)]
mod ipv6_rows;
#[cfg(test)]
mod rule_rows;
#[cfg(test)]
mod table_rows;
