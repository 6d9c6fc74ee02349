/// Where a worker passes before each of its claims. A gate may be shared between threads, and its
/// call returns.
pub trait Gate: Sync {
    /// The worker passes by, whose number is that of its desk. The turns of one call of `work` are counted
    /// from 0.
    fn at(&self, worker: u32, turn: u64);
}

/// A gate that does nothing.
pub struct OpenGate;

impl Gate for OpenGate {
    fn at(&self, _worker: u32, _turn: u64) {}
}
