//! The replies to requests: each good one is walked through a desk, and all are written in their order.
#![tactic(auto)]

mod asking;
mod engine;
mod replying;
mod walking;
mod writing;

pub use replying::{ReplyFault, write_replies};
