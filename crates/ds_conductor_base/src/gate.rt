/// What is called round each visit, outside every lock: a way to watch visits, or to hold them.
pub trait Gate: Sync {
    /// Called before a worker makes the visit of a number, counted from 1 in the order of visits.
    fn before(&self, worker: u32, visit: u64);

    /// Called after a worker made it.
    fn after(&self, worker: u32, visit: u64);
}

/// A gate that holds nothing.
#[derive(Clone, Copy, Debug)]
pub struct OpenGate;

impl Gate for OpenGate {
    fn before(&self, _worker: u32, _visit: u64) {}

    fn after(&self, _worker: u32, _visit: u64) {}
}
