ghost use Rattle.std.specs.Prelude.{◌≡◌, ◌≤◌, ◌^◌};
ghost use Rattle.ds_certificate.specs.Columns.{InEach, bytes_in, envelope_in};
ghost use Rattle.ds_checker.specs.Holds.{greatest, hold_behind, holds_at_hop};

use ds_certificate::{Bound, Source};
use moment_core::{Column, Gap, bytes_over_ceil, drain_gap};

/// The hold at a hop into a meter with a skew that is reached in some nanoseconds: the greatest over the columns.
pub(crate) fn hold_at_hop(way: u128, skew: Gap, source: &Source, bound: Bound) -> u128
    requires way { way ≤ 2 ^ 100 }
    requires skew { skew ≤ 10 ^ 10 }
    requires least { InEach (λ column. 1 ≤ (envelope_in column source.now).rate) }
    ensures { result ≡ greatest (holds_at_hop source.now way skew bound) }
{
    let green = hold_behind(Column::Green, way, skew, source, bound);
    let all = hold_behind(Column::All, way, skew, source, bound);
    let excess = hold_behind(Column::Excess, way, skew, source, bound);
    green.max(all.max(excess))
}

/// That hold in a column.
fn hold_behind(column: Column, way: u128, skew: Gap, source: &Source, bound: Bound) -> u128
    requires way { way ≤ 2 ^ 100 }
    requires skew { skew ≤ 10 ^ 10 }
    requires least { 1 ≤ (envelope_in column source.now).rate }
    ensures { result ≡ hold_behind way skew
        (record { rate = (envelope_in column source.now).rate; burst = bytes_in column bound }) }
{
    let rate = source.envelope(column).rate();
    let burst = u128::from(bound.bytes(column)) + bytes_over_ceil(rate, skew);
    way + u128::from(skew.get()) + drain_gap(rate, burst as u64)
}
