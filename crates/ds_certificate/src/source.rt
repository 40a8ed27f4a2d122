ghost use Rattle.std.specs.Prelude.{◌≡◌, ◌*◌, ◌≤◌, ◌^◌};
ghost use Rattle.envelope_core.specs.Curve.{widened};
ghost use Rattle.ds_domain_base.specs.Envelopes.{all_output, green_output, output_in};
ghost use Rattle.ds_certificate.specs.Columns.{InEach, envelope_in};
ghost use Rattle.ds_certificate.specs.Ranges.{IsModerate, IsModest};
ghost use Rattle.ds_certificate.specs.Sources.{curve_of, edge_column, source_by, source_on};

use ds_domain_base::{Domain, Parameters, Profile, Route, Terms, Version};
use envelope_core::{Envelope, widen};
use moment_core::{Column, Gap};

/// What a contract's traffic keeps where it enters a domain.
#[derive(Clone, Copy, Debug)]
pub struct Source {
    /// What its green packets keep.
    pub green: Envelope,
    /// What its green and yellow packets keep.
    pub all: Envelope,
    /// What its yellow packets keep.
    pub excess: Envelope,
}

impl Source {
    /// What traffic on these terms keeps where it enters a domain by a route (Cruz 1991, section II): trusted traffic what
    /// it is trusted with, policed traffic what leaves the meter at its edge, widened by the skew of the route's port. No
    /// name is looked up.
    pub fn along(domain: &Domain, route: &Route, terms: &Terms) -> Self
        ensures value { result ≡ source_on domain.now route.now terms.now }
        ensures moderate { IsModerate result }
        ensures least { InEach (λ column. 1 ≤ (envelope_in column result).rate) }
    {
        source_by(domain.version(), route.skew().gap(), terms)
    }

    /// What the packets of a column keep.
    pub fn envelope(self, column: Column) -> Envelope
        ensures { result ≡ envelope_in column self }
    {
        match column {
            Column::Green => self.green,
            Column::All => self.all,
            Column::Excess => self.excess,
        }
    }
}

/// What traffic keeps that enters on these terms, at a port with a skew, in a domain of a version.
fn source_by(version: Version, skew: Gap, terms: &Terms) -> Source
    requires { skew ≤ 10 ^ 10 }
    ensures value { result ≡ source_by version skew terms.now }
    ensures moderate { IsModerate result }
    ensures least { InEach (λ column. 1 ≤ (envelope_in column result).rate) }
{
    match terms {
        Terms::Trusted {
            committed,
            peak: None,
        } => {
            let green = profile(*committed);
            Source {
                green,
                all: green,
                excess: green,
            }
        }
        Terms::Trusted {
            committed,
            peak: Some(peak),
        } => Source {
            green: profile(*committed),
            all: profile(peak.profile),
            excess: profile(peak.excess.unwrap_or(peak.profile)),
        },
        Terms::Policed { parameters, .. } => edge_source(version, skew, parameters.get()),
    }
}

/// What leaves a meter with these parameters at a port with a skew, in a domain of a version.
fn edge_source(version: Version, skew: Gap, parameters: Parameters) -> Source
    requires { skew ≤ 10 ^ 10 }
    ensures value { result ≡ record {
      green = widened skew (green_output parameters);
      all = widened skew (all_output parameters);
      excess = widened skew (output_in (edge_column version) parameters);
    } }
    ensures moderate { IsModerate result }
    ensures least { InEach (λ column. 1 ≤ (envelope_in column result).rate) }
{
    let excess = match version {
        Version::One => parameters.all_envelope(),
        Version::Two | Version::Three => parameters.excess_envelope(),
    };
    Source {
        green: widened(parameters.green_envelope(), skew),
        all: widened(parameters.all_envelope(), skew),
        excess: widened(excess, skew),
    }
}

/// The envelope of a profile.
fn profile(profile: Profile) -> Envelope
    ensures value { result ≡ curve_of profile }
    ensures modest { IsModest result }
    ensures least { 1 ≤ result.rate }
{
    let Profile { rate, burst } = profile;
    Envelope::new(rate.get(), u64::from(burst)).unwrap()
}

/// The envelope of traffic that kept `envelope` and was delayed by delays that differ by at most a gap.
#[tactic(auto, using(crate::proofs::Volumes::bytes_over_most))]
fn widened(envelope: Envelope, gap: Gap) -> Envelope
    requires gap { gap ≤ 10 ^ 10 }
    requires modest { IsModest envelope }
    ensures value { result ≡ widened gap envelope }
    ensures moderate { (result.rate ≤ 2 * 10 ^ 13) × (result.burst ≤ 5 * 10 ^ 13) }
{
    widen(envelope, gap).unwrap()
}
