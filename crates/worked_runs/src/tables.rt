use ds_checker::Accepted;
use dsedge_texts::accept;
use meter_book::{AnyMeter, Parameters};
use moment_core::{Mode, Moment, Rate};
use std::alloc::Global;
use std::test::Fail;
use trtcm_core::TrTcmParameters;
use worked_texts::over_way;

/// The table that a domain text of one way and one contract says with a certificate text.
pub fn accepted(alloc: Global, contract: &[&str], certificate: &str) -> Result<Accepted, Fail> {
    let domain = over_way(alloc, contract)?;
    let accepted = accept(alloc, domain.as_bytes(), certificate.as_bytes());
    accepted.map_err(|_| Fail::from("no acceptable table"))
}

/// A meter of a committed and a peak rate with their bursts, opened at moment 0.
pub fn two_rates(committed: (u64, u32), peak: (u64, u32), mode: Mode) -> Result<AnyMeter, Fail> {
    let parameters = TrTcmParameters {
        committed_rate: Rate::new(committed.0)?,
        committed_burst: committed.1,
        peak_rate: Rate::new(peak.0)?,
        peak_burst: peak.1,
    };
    Ok(AnyMeter::new(Parameters::TrTcm(parameters), mode, Moment::new(0)?)?)
}
