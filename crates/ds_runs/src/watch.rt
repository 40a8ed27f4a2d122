ghost use Rattle.std.specs.Prelude.{◌≡◌};
ghost use Rattle.ds_runs.specs.Judging.{empty, watched};

use ds_conductor_base::Sent;
use envelope_core::{Envelope, LeakyBucket};

/// A leaky bucket into which packets are poured, up to the one with which it overflows for the first time.
#[derive(Clone, Copy, Debug)]
pub(crate) struct Watch {
    bucket: LeakyBucket,
    /// The number of the packet with which it overflowed, if it did.
    pub(crate) over: Option<u64>,
}

impl Watch {
    /// An empty bucket of an envelope.
    pub(crate) fn new(envelope: Envelope) -> Self
        ensures { result ≡ empty envelope }
    {
        Watch {
            bucket: LeakyBucket::new(envelope),
            over: None,
        }
    }

    /// Pours a packet in. One that is sent earlier than one before it counts as sent with that.
    pub(crate) fn note(&mut self, packet: &Sent)
        ensures { self.new ≡ watched self.old packet.now }
    {
        if self.over.is_some() {
            return;
        }
        let moment = self.bucket.newest().used_for(packet.moment);
        if self.bucket.pour(moment, u32::from(packet.size.get())) {
            self.over = Some(packet.packet);
        }
    }
}
