use ds_domain_base::Contract;
use envelope_core::Envelope;
use meter_fabric_base::Trail;
use moment_core::tokens::TOKEN;
use moment_core::{Column, PacketSize};
use run_audit::filled;

/// The bit-nanoseconds of one byte.
const BYTE: u128 = TOKEN as u128;

/// What a bucket holds, in bit-nanoseconds, and since which moment, in nanoseconds.
#[derive(Clone, Copy, Debug)]
pub(crate) struct Level {
    held: u128,
    since: u64,
}

/// The level of a bucket just before the packet of a number, where the packets of a contract that a column counts are
/// poured into it as they were sent.
pub(crate) fn level_before(
    envelope: Envelope,
    column: Column,
    contract: &Contract,
    own: &[&Trail],
    packet: u64,
) -> Level {
    let depth = BYTE * u128::from(envelope.burst());
    let mut level = 0;
    let mut since = 0;
    for trail in own {
        if trail.packet == packet {
            break;
        }
        if column.counts(contract.came(trail.dscp)) {
            let next = filled(envelope, level, since, trail.begun, trail.size);
            if next > depth {
                break;
            }
            level = next;
            since = trail.begun.get();
        }
    }
    Level { held: level, since }
}

/// The first moment at which a bucket of this level has room for a packet, in nanoseconds; none where it never has.
pub(crate) fn room_from(envelope: Envelope, level: Level, size: PacketSize) -> Option<u128> {
    let depth = BYTE * u128::from(envelope.burst());
    let most = depth.checked_sub(BYTE * u128::from(size.get()))?;
    let over = level.held.saturating_sub(most);
    let rate = u128::from(envelope.rate());
    if rate == 0 {
        return None;
    }
    let whole = over / rate;
    let gap = if over % rate == 0 { whole } else { whole + 1 };
    u128::from(level.since).checked_add(gap)
}
