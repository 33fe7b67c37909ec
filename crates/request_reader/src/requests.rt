//! What a request is.

/// A request for one walk: which random stream, from which id, and how many steps at most.
#[derive(Clone, Copy, Debug, PartialEq, Eq)]
pub struct Request {
    pub stream: u64,
    pub start: u32,
    pub length: u32,
}
