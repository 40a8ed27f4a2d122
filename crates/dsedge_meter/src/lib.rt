//! The commands `meter` and `envelope`: what they answer to lines, each in one pass and in memory that does not grow
//! with the input.
//!
//! Each rule, its definition in `specs/`, and the function that keeps it:
//!
//! - which lines say an arrival, and which a sized moment → `Arrivals.arrival_in`, `Arrivals.sized_since` →
//!   `arrivals::arrival`, `arrivals::sized_moment`, and, together with the line's end, `arrivals::front_arrival`,
//!   `arrivals::front_sized_moment`
//! - a colour for each arrival that there is room for, and at the end the accounts → `Metered.answer_of` →
//!   `MeterCommand`
//! - whether an envelope is kept, and else the first line that is over it → `Verdicts.verdict_on` → `EnvelopeCommand`
#![tactic(auto)]

mod arrivals;
mod envelope;
mod meter;

pub use envelope::EnvelopeCommand;
pub use meter::MeterCommand;
