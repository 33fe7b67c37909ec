//! The edges of a graph in rows: the edges of each vertex in order, one row after another.
#![tactic(auto)]

mod filling;
mod heads;
mod out_edge;
mod ranges;
mod rows;
mod searching;
mod sorting;
mod sources;
#[cfg(test)]
mod tests;

pub use out_edge::OutEdge;
pub use ranges::RowRange;
pub use rows::Rows;
pub use searching::{ends_at, ends_below};
