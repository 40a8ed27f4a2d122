//! Texts of example domains, in parts that tests join. Each part stands here once, and whole domains that several tests
//! read. No library of the field stands on these.
#![tactic(auto)]

mod contracts;
mod domains;
mod joining;
mod many;
mod sites;

pub use contracts::{
    A, ANYWHERE, B, C, D, EXCESS, NARROW, PEAK, PEAKED, PLAIN, POLICED, SEPARATE_RATES, SHARE,
    TOO_MUCH, TRUSTED, TWO_RATES, U, UDP, V,
};
pub use domains::{
    LEAST_OF_POLICED, LEAST_OF_TRUSTED, over_excess, over_way, policed, tight, wide,
};
pub use joining::{joined, push_all};
pub use many::{MOST_CONTRACTS, STEADY, most_contracts};
pub use sites::{EXCESS_WAY, LINK, LOW_METER, METER, ONE, PORT, SINGLE_RATE, TWO};
