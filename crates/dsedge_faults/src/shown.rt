ghost use Rattle.std.specs.Prelude.{◌≡◌, ◌++◌, IsTrue, MatchResult, is_ok, if◌then◌else◌};
ghost use Rattle.pcap_capture.specs.Counts.{next_count};
ghost use Rattle.pcap_capture.specs.Fronts.{IsFrontOf};
ghost use Rattle.dsedge_faults.specs.Faults.{shown, shown_byte};

use pcap_capture::{DeviceFault, Outlet, give_all};

/// How a byte of a name is shown: a control character of ASCII as `?`, so that the name stays on one line.
fn shown_byte(byte: u8) -> u8
    ensures { result ≡ shown_byte byte }
{
    if byte < 32 || byte == 127 { b'?' } else { byte }
}

/// Whether the bytes of a name are shown as they are.
fn is_plain(bytes: &[u8]) -> bool
    ensures { IsTrue result → shown bytes.now ≡ bytes.now }
{
    for byte in bytes {
        if shown_byte(*byte) != *byte {
            return false;
        }
    }
    true
}

/// Gives a name as it is shown: at once where it has no control character.
///
/// A fault leaves a front of it given.
pub(crate) fn give_shown<F: Outlet>(name: &str, faults: &mut F) -> Result<(), DeviceFault>
    ensures told { F.tells faults.old → F.tells faults.new }
    ensures bytes { F.tells faults.old → MatchResult result
        (λ _. F.held faults.new ≡ F.held faults.old ++ shown name.now)
        (λ _. IsFrontOf (F.held faults.old) (shown name.now) (F.held faults.new)) }
    ensures failures { F.failed faults.new
        ≡ (if is_ok result then F.failed faults.old else next_count (F.failed faults.old)) }
{
    if is_plain(name.as_bytes()) {
        return give_all(faults, name.as_bytes());
    }
    give_each_shown(name.as_bytes(), faults)
}

/// Gives the bytes of a name as they are shown, one by one.
fn give_each_shown<F: Outlet>(bytes: &[u8], faults: &mut F) -> Result<(), DeviceFault>
    ensures told { F.tells faults.old → F.tells faults.new }
    ensures bytes { F.tells faults.old → MatchResult result
        (λ _. F.held faults.new ≡ F.held faults.old ++ shown bytes.now)
        (λ _. IsFrontOf (F.held faults.old) (shown bytes.now) (F.held faults.new)) }
    ensures failures { F.failed faults.new
        ≡ (if is_ok result then F.failed faults.old else next_count (F.failed faults.old)) }
{
    for byte in bytes {
        give_all(faults, &[shown_byte(*byte)])?;
    }
    Ok(())
}
