//! Whether contracts keep their time.
ghost use Rattle.std.specs.Prelude.{◌≡◌, nat_lt, true};
ghost use Rattle.std.specs.Option.{option_map_or};
ghost use Rattle.run_audit.specs.Verdicts.{may_send, outside};

use crate::sending::Sending;
use crate::verdict::Verdict;
use ds_domain_base::{Contract, Lifetime};
use moment_core::Moment;

/// Whether a contract may send at a moment.
pub fn may_send(lifetime: Lifetime, moment: Moment) -> bool
    ensures { result ≡ may_send lifetime moment }
{
    lifetime.since() <= moment && is_before(moment, lifetime.until())
}

/// Whether a moment is before an end, if there is one.
fn is_before(moment: Moment, until: Option<Moment>) -> bool
    ensures { result ≡ option_map_or (λ end. nat_lt moment end) until true }
{
    until.map_or(true, |until| moment < until)
}

/// What is found against a packet that is sent when its contract may not send.
pub(crate) fn outside(packet: u64, contract: &Contract, sent: &Sending<'_>) -> Option<Verdict>
    ensures { result ≡ outside packet contract.now sent.now }
{
    if may_send(contract.lifetime, sent.moment) {
        None
    } else {
        Some(Verdict::OutsideContract { packet })
    }
}
