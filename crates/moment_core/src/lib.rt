//! Moments, rates, sizes and colours, the token law and the token bucket, and the meter of any kind over them.
//!
//! Each rule, its definition in `specs/`, and the function that keeps it:
//!
//! - how many tokens a rate gives (RFC 2697 and RFC 2698 section 3) → `Tokens.given`, `Tokens.tokens_at` →
//!   `tokens_given`, `tokens_between`
//! - none of a token's parts is lost from gap to gap → `Tokens.begun_token` → `tokens_over`, `Filling::fill_over`
//! - a bucket takes a token where it is not full (section 3) → `Tokens.with_token`, `Tokens.with_tokens` →
//!   `Bucket::refill`
//! - a packet is metered at its moment, or at the newest one → `Metering.used` → `Moment::used_for`, `Clock::move_on`
//! - a colour-blind meter sees green (section 3) → `Metering.seen` → `Mode::seen`
//! - the colours of a committed and an excess bucket (RFC 2697 section 3, RFC 4115) → `Excess.coloured`,
//!   `Excess.without` → `take_committed_or_excess`
//! - parameters with nothing wrong with them → `fault_of` of `MeterParameters` → `MeterProfile::new`
//! - a meter of any rules, its buckets full at its origin, one packet after the other → `Metering.opening`,
//!   `Metering.colour_of`, `Metering.after` → `TokenMeter::open`, `TokenMeter::admit`
//! - which packets an envelope or a bound speaks of → `Columns.counts` → `Column::counts`
#![tactic(auto)]

pub mod bucket;
pub mod colour;
pub mod column;
pub mod filling;
pub mod meter;
pub mod profile;
pub mod quantity;
pub mod tokens;
pub mod volume;

pub use bucket::{Bucket, Levels, take_committed_or_excess};
pub use colour::{Colour, Mode};
pub use column::Column;
pub use filling::{Clock, Filling};
pub use meter::{Kind, TokenMeter};
pub use profile::{MeterParameters, MeterProfile};
pub use quantity::{Gap, Moment, OutOfRange, PacketSize, Rate};
pub use tokens::{tokens_between, tokens_given, tokens_over};
pub use volume::{bytes_over_ceil, drain_gap};
