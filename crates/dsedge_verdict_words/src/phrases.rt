use dsedge_texts::name_text;
use dsedge_words::push_figure;
use meter_fabric_base::Trail;
use run_audit::Run;
use std::alloc::AllocError;

/// The trail of the packet of a number in a run, if it has one.
pub(crate) fn trail_of<'a>(run: &'a Run<'_>, packet: u64) -> Option<&'a Trail> {
    for trail in run.trails() {
        if trail.packet == packet {
            return Some(trail);
        }
    }
    None
}

/// Appends a moment or a span, in nanoseconds.
pub(crate) fn push_time(words: &mut String, nanoseconds: u128) -> Result<(), AllocError> {
    push_figure(words, nanoseconds)?;
    words.push_str(" ns")
}

/// Appends the name of the contract of a flow.
pub(crate) fn push_contract(
    words: &mut String,
    run: &Run<'_>,
    flow: u32,
) -> Result<(), AllocError> {
    match run.basis().contract_of(flow) {
        Some(contract) => words.push_str(name_text(&contract.name)),
        None => Ok(()),
    }
}

/// Appends which packet it is of which contract.
pub(crate) fn push_packet(
    words: &mut String,
    run: &Run<'_>,
    packet: u64,
    flow: u32,
) -> Result<(), AllocError> {
    words.push_str("packet ")?;
    push_figure(words, u128::from(packet))?;
    words.push_str(" of ")?;
    push_contract(words, run, flow)
}

/// Appends the name of a site: the meter's, or whose edge it is.
pub(crate) fn push_site(words: &mut String, run: &Run<'_>, site: u32) -> Result<(), AllocError> {
    let meters = run.basis().domain().meters();
    match meters.get_index(site as usize) {
        Some((name, _)) => words.push_str(name_text(name)),
        None => {
            words.push_str("the edge of ")?;
            let flow = site.saturating_sub(meters.len() as u32);
            push_contract(words, run, flow)
        }
    }
}
