//! A lane: a bounded queue between two threads, one of which puts items and one of which takes them.
//!
//! At each moment what was put is what was taken and then what the lane holds, each item once and in order, whatever
//! the two threads do (`Rule.InOrder`). Each end knows what it did itself; what it was told of the other end is a
//! beginning of what that did.
//!
//! - a put adds its item behind all that were put, or hands it back → `Putting::put`
//! - a take takes the first item that was put and not taken → `Taking::take`
//! - what was put is what was taken and then the rest → `reunite`, `Rest::take`, `Rest::part`
//!
//! No clause says that a call returns, nor that an item comes through.
#![tactic(auto)]

pub mod ends;
pub mod rest;
mod rule;

pub use ends::{LANE_MOST, Putting, Taking, lane, meet, reunite};
pub use rest::Rest;
