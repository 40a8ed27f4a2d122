use crate::explaining::least_explained;
use ds_domain::{BoxedContract, Domain};
use ds_export::{Device, Unmade, made_parameters, remade};
use dsedge_words::meters_said;
use std::alloc::{AllocError, Global};

/// What is said of an export of the meter of a name that ended with no: of a meter that there is not, of one that the
/// device cannot make, and of what the checker says where the meter is as the device makes it.
pub(crate) fn export_explained(
    alloc: Global,
    domain: &Domain,
    contracts: Vec<BoxedContract>,
    name: &str,
    device: Device,
) -> Result<String, AllocError> {
    let Some(own) = domain.meter_named(name) else {
        return meters_said(alloc, domain, name);
    };
    let Some(meter) = domain.meter(own) else {
        return meters_said(alloc, domain, name);
    };
    match made_parameters(device, meter.parameters.get()) {
        Ok(made) => {
            let other = remade(alloc, domain, own, made)?;
            least_explained(alloc, other, contracts)
        }
        Err(why) => unmade_said(alloc, name, why),
    }
}

/// What is said of a meter that a device cannot make.
fn unmade_said(alloc: Global, name: &str, why: Unmade) -> Result<String, AllocError> {
    let mut words = String::new(alloc);
    match why {
        Unmade::Kind => words.push_str("the device has no meter of the kind of ")?,
        Unmade::Burst(_) => words.push_str(
            "the device has no bucket that holds one of the bursts of ",
        )?,
    }
    words.push_str(name)?;
    words.push_str("\n")?;
    Ok(words)
}
