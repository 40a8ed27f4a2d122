ghost use Rattle.std.specs.Prelude.{◌≡◌, ◌*◌, ◌≤◌, ◌<◌, ◌^◌};
ghost use Rattle.meter_book_base.specs.Envelopes.{all_output, excess_output, green_output};
ghost use Rattle.meter_book_base.specs.Limits.{all_limit, green_limit, held_column};

use crate::any_meter::Parameters;
use envelope_core::Envelope;
use moment_core::Column;

impl Parameters {
    /// What a meter with these parameters has for green packets: in each kind CIR and CBS (RFC 2697, RFC 2698, RFC
    /// 4115).
    pub fn green_limit(self) -> Envelope
        ensures value { result ≡ green_limit self }
        ensures least { 1 ≤ result.rate }
        ensures range { (result.rate ≤ 10 ^ 13) × (result.burst < 2 ^ 32) }
    {
        let (rate, burst) = match self {
            Parameters::SrTcm(own) => (own.committed_rate, own.committed_burst),
            Parameters::TrTcm(own) => (own.committed_rate, own.committed_burst),
            Parameters::Rfc4115(own) => (own.committed_rate, own.committed_burst),
        };
        envelope(rate.get(), u64::from(burst))
    }

    /// What it has for green and yellow packets: CIR and EBS (RFC 2697), PIR and PBS (RFC 2698), or EIR and EBS (RFC
    /// 4115).
    pub fn all_limit(self) -> Envelope
        ensures value { result ≡ all_limit self }
        ensures least { 1 ≤ result.rate }
        ensures range { (result.rate ≤ 10 ^ 13) × (result.burst < 2 ^ 32) }
    {
        let (rate, burst) = match self {
            Parameters::SrTcm(own) => (own.committed_rate, own.excess_burst),
            Parameters::TrTcm(own) => (own.peak_rate, own.peak_burst),
            Parameters::Rfc4115(own) => (own.excess_rate, own.excess_burst),
        };
        envelope(rate.get(), u64::from(burst))
    }

    /// The column of what is held against `all_limit`: green and yellow packets (RFC 2697, RFC 2698), or yellow ones
    /// alone, which have a rate of their own (RFC 4115).
    pub fn held_column(self) -> Column
        ensures { result ≡ held_column self }
    {
        match self {
            Parameters::SrTcm(_) | Parameters::TrTcm(_) => Column::All,
            Parameters::Rfc4115(_) => Column::Excess,
        }
    }

    /// The envelope of what leaves it green: a byte more than what it has for green packets (RFC 2697, RFC 2698, RFC
    /// 4115; Cruz 1991, section II).
    pub fn green_envelope(&self) -> Envelope
        ensures value { result ≡ green_output self.now }
        ensures least { 1 ≤ result.rate }
        ensures range { (result.rate ≤ 2 * 10 ^ 13) × (result.burst ≤ 2 ^ 34) }
    {
        let green = self.green_limit();
        envelope(green.rate(), green.burst() + 1)
    }

    /// The envelope of what leaves it green or yellow: what its buckets hold and are given together, and a byte more
    /// for each rate that fills one (RFC 2697, RFC 2698, RFC 4115; Cruz 1991, section II).
    pub fn all_envelope(&self) -> Envelope
        ensures value { result ≡ all_output self.now }
        ensures least { 1 ≤ result.rate }
        ensures range { (result.rate ≤ 2 * 10 ^ 13) × (result.burst ≤ 2 ^ 34) }
    {
        let green = self.green_limit();
        let all = self.all_limit();
        let bursts = green.burst() + all.burst();
        match self {
            Parameters::SrTcm(_) => envelope(green.rate(), bursts + 1),
            Parameters::TrTcm(_) => envelope(all.rate(), all.burst() + 1),
            Parameters::Rfc4115(_) => envelope(green.rate() + all.rate(), bursts + 2),
        }
    }

    /// The envelope of what leaves it yellow: the rate and the size of the bucket that yellow packets take from, and a
    /// byte more (RFC 2697, RFC 2698, RFC 4115; Cruz 1991, section II).
    pub fn excess_envelope(&self) -> Envelope
        ensures value { result ≡ excess_output self.now }
        ensures least { 1 ≤ result.rate }
        ensures range { (result.rate ≤ 2 * 10 ^ 13) × (result.burst ≤ 2 ^ 34) }
    {
        let excess = self.all_limit();
        envelope(excess.rate(), excess.burst() + 1)
    }
}

/// The envelope of a rate in bits per second and a burst in bytes that are in its range.
fn envelope(rate: u64, burst: u64) -> Envelope
    requires rate { rate ≤ 10 ^ 17 }
    requires burst { burst ≤ 10 ^ 19 }
    ensures { result ≡ record { rate = rate; burst = burst } }
{
    Envelope::new(rate, burst).unwrap()
}
