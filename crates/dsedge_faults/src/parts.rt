ghost use Rattle.std.specs.Prelude.{◌≡◌, ◌++◌, flat_map, MatchResult, is_ok, if◌then◌else◌};
ghost use Rattle.pcap_capture.specs.Counts.{next_count};
ghost use Rattle.pcap_capture.specs.Fronts.{IsFrontOf};

use pcap_capture::{DeviceFault, Outlet, give_all};

/// Gives an outlet texts, one behind the other.
///
/// A fault leaves a front of them given.
pub fn give_parts<O: Outlet>(outlet: &mut O, parts: &[&str]) -> Result<(), DeviceFault>
    ensures told { O.tells outlet.old → O.tells outlet.new }
    ensures bytes { O.tells outlet.old → let text = flat_map (λ part. part.now) parts.now in MatchResult result
        (λ _. O.held outlet.new ≡ O.held outlet.old ++ text)
        (λ _. IsFrontOf (O.held outlet.old) text (O.held outlet.new)) }
    ensures failures { O.failed outlet.new
        ≡ (if is_ok result then O.failed outlet.old else next_count (O.failed outlet.old)) }
{
    for part in parts {
        give_all(outlet, part.as_bytes())?;
    }
    Ok(())
}
