ghost use Rattle.std.specs.Prelude.{◌≡◌, ◌≤◌};
ghost use Rattle.envelope_core.specs.LeakyBucket.{overflows, poured};

use crate::envelope::Envelope;
use moment_core::Moment;
use moment_core::tokens::TOKEN;
use std::marker::Model;

/// The bit-nanoseconds of one byte.
const BYTE: u128 = TOKEN as u128;

/// A leaky bucket as a meter of traffic (Turner 1986): it drains at the rate of an envelope, each packet is poured in,
/// and a packet that would bring it above the envelope's burst overflows and stays out.
///
/// Its level is in bit-nanoseconds: 8 000 000 000 of them are a byte, so nothing is divided and nothing rounded.
#[derive(Clone, Copy, Debug)]
pub struct LeakyBucket {
    envelope: Envelope,
    level: u128,
    newest: Moment,
}

impl Model for LeakyBucket {
    ghost use Rattle.std.specs.Prelude.{◌≤◌, ◌*◌};
    ghost use Rattle.envelope_core.specs.LeakyBucket.{Bucket};

    ghost Value = { Bucket };

    ghost view = { λ b. record { curve = b.envelope; level = b.level; since = b.newest } };

    ghost invariant = { λ b. b.level ≤ 8000000000 * b.envelope.burst };

    ghost inverse = { λ b. record { envelope = b.curve; level = b.level; newest = b.since } };
}

impl LeakyBucket {
    /// An empty bucket, at moment 0.
    pub fn new(envelope: Envelope) -> Self
        ensures { result ≡ record { curve = envelope; level = 0; since = 0 } }
    {
        LeakyBucket {
            envelope,
            level: 0,
            newest: Moment::new(0).unwrap(),
        }
    }

    /// The moment of the newest packet, 0 before the first.
    pub fn newest(&self) -> Moment
        ensures { result ≡ self.now.since }
    {
        self.newest
    }

    /// Pours a packet of a size in bytes in, and answers whether it overflows. It must not be earlier than the newest.
    pub fn pour(&mut self, moment: Moment, size: u32) -> bool
        requires { self.old.since ≤ moment }
        ensures overflow { result ≡ overflows self.old (moment, size) }
        ensures after { self.new ≡ poured self.old (moment, size) }
    {
        let gap = moment.get() - self.newest.get();
        let left = self
            .level
            .saturating_sub(u128::from(self.envelope.rate()) * u128::from(gap));
        let filled = left + BYTE * u128::from(size);
        let overflows = filled > BYTE * u128::from(self.envelope.burst());
        self.level = if overflows { left } else { filled };
        self.newest = moment;
        overflows
    }
}
