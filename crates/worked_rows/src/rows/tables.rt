use ds_domain::{BoxedContract, Domain, parse};
use std::alloc::Global;
use std::process::Abort;
use worked_texts::joined;

/// What a domain text says.
#[derive(Drop)]
pub struct Said {
    /// Its domain.
    pub domain: Domain,
    /// Its contracts.
    pub contracts: Vec<BoxedContract>,
}

/// The parts of a text, one behind the other.
pub fn text_of(rt: &impl Abort, alloc: Global, parts: &[&str]) -> String {
    joined(alloc, parts).expect(rt, "memory for a text")
}

/// What the text of these parts says.
pub fn parsed(rt: &impl Abort, alloc: Global, parts: &[&str]) -> Said {
    let text = text_of(rt, alloc, parts);
    let (domain, contracts) = parse(alloc, text.as_bytes()).expect(rt, "a domain text");
    Said { domain, contracts }
}
