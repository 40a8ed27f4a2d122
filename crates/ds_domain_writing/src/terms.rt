//! The lines of the parameters of meters, and of the terms of contracts.

use crate::lines::{push_burst, push_rate, push_text};
use ds_domain_base::{Field, Peak, Profile, Terms};
use meter_book_base::Parameters;
use moment_core::Mode;
use std::alloc::AllocError;

/// The kind of a meter.
pub(crate) fn kind_of(parameters: &Parameters) -> &'static str {
    match parameters {
        Parameters::SrTcm(_) => "srtcm",
        Parameters::TrTcm(_) => "trtcm",
        Parameters::Rfc4115(_) => "rfc4115",
    }
}

/// The kind of a contract.
pub(crate) fn kind_under(terms: &Terms) -> &'static str {
    match terms {
        Terms::Trusted { .. } => "trusted",
        Terms::Policed { parameters, .. } => kind_of(&parameters.get()),
    }
}

/// Appends the parameters of a meter.
pub(crate) fn push_parameters(
    text: &mut Vec<u8>,
    parameters: &Parameters,
) -> Result<(), AllocError> {
    match parameters {
        Parameters::SrTcm(own) => {
            push_rate(text, Field::Cir, own.committed_rate)?;
            push_burst(text, Field::Cbs, own.committed_burst)?;
            push_burst(text, Field::Ebs, own.excess_burst)
        }
        Parameters::TrTcm(own) => {
            push_rate(text, Field::Cir, own.committed_rate)?;
            push_burst(text, Field::Cbs, own.committed_burst)?;
            push_rate(text, Field::Pir, own.peak_rate)?;
            push_burst(text, Field::Pbs, own.peak_burst)
        }
        Parameters::Rfc4115(own) => {
            push_rate(text, Field::Cir, own.committed_rate)?;
            push_burst(text, Field::Cbs, own.committed_burst)?;
            push_rate(text, Field::Eir, own.excess_rate)?;
            push_burst(text, Field::Ebs, own.excess_burst)
        }
    }
}

/// Appends what a contract is trusted with or held to.
pub(crate) fn push_terms(text: &mut Vec<u8>, terms: &Terms) -> Result<(), AllocError> {
    match *terms {
        Terms::Trusted { committed, peak } => {
            push_profile(text, Field::Cir, Field::Cbs, committed)?;
            push_peak(text, peak)
        }
        Terms::Policed { parameters, mode } => {
            let parameters = parameters.get();
            push_mode(text, mode)?;
            push_parameters(text, &parameters)
        }
    }
}

/// Appends whether the meter at the edge heeds the colours that packets come in with.
fn push_mode(text: &mut Vec<u8>, mode: Mode) -> Result<(), AllocError> {
    let word = match mode {
        Mode::Blind => "blind",
        Mode::Aware => "aware",
    };
    push_text(text, Field::Mode, word.as_bytes())
}

/// Appends a rate and a burst.
fn push_profile(
    text: &mut Vec<u8>,
    rate: Field,
    burst: Field,
    profile: Profile,
) -> Result<(), AllocError> {
    push_rate(text, rate, profile.rate)?;
    push_burst(text, burst, profile.burst)
}

/// Appends what the green and yellow packets of a trusted contract keep, and its yellow ones on their own, where it is
/// said.
fn push_peak(text: &mut Vec<u8>, peak: Option<Peak>) -> Result<(), AllocError> {
    let Some(peak) = peak else {
        return Ok(());
    };
    push_profile(text, Field::Pir, Field::Pbs, peak.profile)?;
    match peak.excess {
        Some(excess) => push_profile(text, Field::Eir, Field::Ebs, excess),
        None => Ok(()),
    }
}
