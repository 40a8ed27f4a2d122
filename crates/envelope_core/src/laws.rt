//! The laws of envelopes, each proved as the contract of a function that does nothing.
ghost use Rattle.envelope_core.specs.Laws.{
  BucketsTell,
  TwoFlowsAdd,
  FlowsAdd,
  DelaysWiden,
  OrderIsFree,
  PartsKeep,
  SelectionsKeep,
  LooserEnvelopesAreKept,
};

/// Two flows that merge keep the sums of their rates and of their bursts (Cruz 1991, section II).
pub fn two_flows_add()
    ensures { TwoFlowsAdd }
{}

/// Any number of flows that merge keep the sums of their rates and of their bursts (Cruz 1991, section II).
pub fn flows_add()
    ensures { FlowsAdd }
{}

/// Delays that differ by at most a jitter widen the burst by what the rate gives over the jitter, rounded up, even
/// where packets overtake one another (Cruz 1991, section II).
pub fn delays_widen()
    ensures { DelaysWiden }
{}

/// The order in which sized moments are listed does not matter.
pub fn order_is_free()
    ensures { OrderIsFree }
{}

/// A part of a flow keeps what the whole keeps.
pub fn parts_keep()
    ensures { PartsKeep }
{}

/// What passes a test keeps what the whole keeps.
pub fn selections_keep()
    ensures { SelectionsKeep }
{}

/// An envelope with no less rate and no less burst is kept too.
pub fn looser_envelopes_are_kept()
    ensures { LooserEnvelopesAreKept }
{}

/// Over sized moments in order, a leaky bucket overflows exactly where they leave the envelope of its rate and its
/// depth, and first at the packet at which they do (Turner 1986; Cruz 1991, section II).
pub fn buckets_tell()
    ensures { BucketsTell }
{}
