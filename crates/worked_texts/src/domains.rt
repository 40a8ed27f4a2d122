use crate::contracts::{A, B, POLICED, SHARE, TRUSTED, TWO_RATES, U, UDP};
use crate::joining::{joined, push_all};
use crate::sites::{EXCESS_WAY, LINK, LOW_METER, METER, PORT};
use std::alloc::{AllocError, Global};

/// The meter, the port and the link between them, with contracts behind them.
pub fn over_way(alloc: Global, contracts: &[&str]) -> Result<String, AllocError> {
    let mut text = joined(alloc, &[METER, PORT, LINK])?;
    push_all(&mut text, contracts)?;
    Ok(text)
}

/// A domain of a version over a meter with an excess bucket, with contracts behind it.
pub fn over_excess(alloc: Global, version: &str, contracts: &[&str]) -> Result<String, AllocError> {
    let mut text = joined(alloc, &[version, EXCESS_WAY])?;
    push_all(&mut text, contracts)?;
    Ok(text)
}

/// The domain of examples/tight_burst.toml with its first two contracts: the meter has room for the burst of one.
pub fn tight(alloc: Global) -> Result<String, AllocError> {
    let parts = [LOW_METER, PORT, LINK, TRUSTED, A, SHARE, TRUSTED, B, SHARE];
    joined(alloc, &parts)
}

/// The same over the meter of examples/three_trusted.toml, which has room for both.
pub fn wide(alloc: Global) -> Result<String, AllocError> {
    over_way(alloc, &[TRUSTED, A, SHARE, TRUSTED, B, SHARE])
}

/// The least certificate of the contract `a` alone over that way.
pub const LEAST_OF_TRUSTED: &str = "dscert 1\na 0 3000 3000\na 1 4000 4000\n";

/// The domain of examples/one_policed.toml, with the contract for UDP alone.
pub fn policed(alloc: Global) -> Result<String, AllocError> {
    over_way(alloc, &[POLICED, U, TWO_RATES, UDP])
}

/// Its least certificate.
pub const LEAST_OF_POLICED: &str = "dscert 1\nu 0 1501 3001\nu 1 2501 5001\n";
