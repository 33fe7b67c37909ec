//! The strip of the return edges above a board: its places, and the edge that has a place of it.
#![tactic(auto)]

mod strip;
#[cfg(test)]
mod tests;

pub use strip::{strip_area, strip_pick};
