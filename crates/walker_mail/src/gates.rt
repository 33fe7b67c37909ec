//! The gate that workers pass.

/// What a worker passes before each of its turns. Workers share one gate, so it may let one wait for another.
pub trait Gate {
    /// A worker is about to begin a turn, the first of which is turn 1.
    fn enter(&self, worker: u32, turn: u64);
}

/// The gate that lets every worker pass at once.
#[derive(Clone, Copy, Debug, PartialEq, Eq)]
pub struct NoGate;

impl Gate for NoGate {
    fn enter(&self, _worker: u32, _turn: u64) {}
}
