ghost use Rattle.std.specs.Prelude.{◌≡◌, ◌-◌, ◌<◌, ◌≤◌, ◌^◌, ◌==◌, ◌⊎◌, None, Some, MatchOption, if◌then◌else◌};
ghost use Rattle.line_text.specs.Numbers.{number_of};
ghost use Rattle.dsedge_lines.specs.Quantities.{size_in};

use line_text::number;
use moment_core::{Moment, PacketSize};

/// The greatest moment, in nanoseconds.
const LAST_MOMENT: u64 = (1 << 63) - 1;

/// The greatest size of a packet, in bytes.
const LARGEST_SIZE: u64 = 65_535;

/// The moment at so many nanoseconds.
fn moment_at(nanoseconds: u64) -> Moment
    requires { nanoseconds < 2 ^ 63 }
    ensures { result ≡ nanoseconds }
{
    Moment::new(nanoseconds).unwrap()
}

/// The size of so many bytes, where there are any.
fn size_of(bytes: u64) -> Option<PacketSize>
    requires { bytes < 2 ^ 16 }
    ensures { result ≡ (if bytes == 0 then None else Some bytes) }
{
    PacketSize::new(bytes).ok()
}

/// The moment of so many nanoseconds and the size of so many bytes, where there are such.
#[inline(always)]
pub fn sized_of(nanoseconds: u64, bytes: u64) -> Option<(Moment, PacketSize)>
    ensures { MatchOption result ((2 ^ 63 ≤ nanoseconds) ⊎ (bytes ≡ 0) ⊎ (2 ^ 16 ≤ bytes))
        (λ sized. (sized.0 ≡ nanoseconds) × (sized.1 ≡ bytes)
        × (nanoseconds < 2 ^ 63) × (1 ≤ bytes) × (bytes < 2 ^ 16)) }
{
    let moment = Moment::new(nanoseconds).ok()?;
    let size = PacketSize::new(bytes).ok()?;
    Some((moment, size))
}

/// The moment that a field says: 0 to 2^63 - 1 nanoseconds.
#[tactic(auto, using(crate::proofs::QuantityLemmas::number_at_most))]
pub fn moment(field: &[u8]) -> Option<Moment>
    ensures { result ≡ number_of (2 ^ 63 - 1) field.now }
{
    match number(field, LAST_MOMENT) {
        Some(nanoseconds) => Some(moment_at(nanoseconds)),
        None => None,
    }
}

/// The size that a field says: 1 to 65,535 bytes.
#[tactic(auto, using(crate::proofs::QuantityLemmas::number_at_most))]
pub fn size(field: &[u8]) -> Option<PacketSize>
    ensures { result ≡ size_in field.now }
{
    match number(field, LARGEST_SIZE) {
        Some(bytes) => size_of(bytes),
        None => None,
    }
}
