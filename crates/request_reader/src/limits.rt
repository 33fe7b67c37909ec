//! How great a request file may be.

/// The most bytes of a request file.
pub const MAX_REQUEST_BYTES: u64 = 16_777_216;
