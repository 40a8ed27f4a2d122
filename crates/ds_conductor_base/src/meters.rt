ghost use Rattle.std.specs.Prelude.{◌≡◌, IfOk, map};
ghost use Rattle.std.specs.List.{range_with_len};
ghost use Rattle.meter_fabric_base.specs.Openings.{site_count};
ghost use Rattle.ds_conductor_base.specs.Passing.{meter_at};

use ds_checker::Accepted;
use meter_book_base::AnyMeter;
use meter_fabric_base::{opening_at, site_count};
use std::alloc::{AllocError, Global};

/// The meters of all sites before the first packet, each at its number; `AllocError` where memory runs out.
pub(crate) fn opened_meters(
    alloc: Global,
    accepted: &Accepted,
) -> Result<Vec<Option<AnyMeter>>, AllocError>
    ensures { IfOk result (λ meters. meters.items
        ≡ map (meter_at accepted.now) (range_with_len 0 (site_count accepted.now))) }
{
    let count = site_count(accepted);
    let mut meters = Vec::with_capacity(alloc, count as usize)?;
    for site in 0..count {
        meters.push(opened_meter(accepted, site as u32))?;
    }
    Ok(meters)
}

/// The meter of the site of a number before the first packet; None where none stands there.
fn opened_meter(accepted: &Accepted, site: u32) -> Option<AnyMeter>
    ensures { result ≡ meter_at accepted.now site }
{
    let opening = opening_at(accepted, site)?;
    Some(opening.meter)
}
