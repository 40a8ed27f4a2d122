//! Domains drawn in the words of Graphviz (the DOT language): contracts, ports, meters and links from left to right,
//! with what is taken of what there is at each meter.
#![tactic(auto)]

mod bars;
mod drawing;
mod ways;

pub use drawing::draw;
