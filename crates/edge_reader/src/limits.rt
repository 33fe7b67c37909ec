//! How much a reader takes.

/// How many bytes an edge list may have, and how many edges may come of it, mirrors counted.
#[derive(Clone, Copy, Debug, PartialEq, Eq)]
pub struct ReadLimits {
    pub bytes: u64,
    pub edges: u64,
}
