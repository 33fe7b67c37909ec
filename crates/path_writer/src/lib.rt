//! Writes finished walks to a sink, a line for each walk, without taking memory.
#![tactic(auto)]

mod block;
mod filling;
#[cfg(test)]
mod tests;
mod walks;
mod writing;

pub use block::Block;
pub use filling::{flush, put_byte, put_number};
pub use walks::{WriteFault, put_ids, write_walks};
pub use writing::write_all;
