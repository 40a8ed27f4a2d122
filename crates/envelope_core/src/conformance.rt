ghost use Rattle.std.specs.Prelude.{ℕ, ◌+◌, ◌<◌, ◌↔◌, IsTrue, IsOk, IfErr, take, length};
ghost use Rattle.envelope_core.specs.Curve.{KeepsCurve};
ghost use Rattle.envelope_core.specs.Order.{IsInOrder};

use crate::envelope::Envelope;
use crate::leaky_bucket::LeakyBucket;
use moment_core::Moment;

/// Whether no moment is before the one that stands ahead of it.
pub fn in_order(items: &[(Moment, u32)]) -> bool
    ensures { IsTrue result ↔ IsInOrder items.now }
{
    items.is_sorted_by_key(|(moment, _)| moment.get())
}

/// Whether sized moments (bytes), in order of time, keep an envelope: in each window from one moment to another, both
/// included, there are at most the burst and what the rate gives over the window's length (Cruz 1991, section II). Err
/// is the least index at which the items up to it and itself do not keep it.
///
/// One pass: a leaky bucket of this rate and depth first overflows at that index.
pub fn keeps(items: &[(Moment, u32)], envelope: Envelope) -> Result<(), usize>
    requires { IsInOrder items.now }
    ensures kept { IsOk result ↔ KeepsCurve envelope items.now }
    ensures within { IfErr result (λ j. j < length items.now) }
    ensures before { IfErr result (λ j. KeepsCurve envelope (take j items.now)) }
    ensures over { IfErr result (λ j. ¬ KeepsCurve envelope (take (j + 1) items.now)) }
{
    let mut bucket = LeakyBucket::new(envelope);
    for (index, (moment, size)) in items.iter().enumerate() {
        if bucket.pour(*moment, *size) {
            return Err(index);
        }
    }
    Ok(())
}
