//! The ids of a graph's vertices and their ranks, which number them in rising order from 0.
#![tactic(auto)]

mod collecting;
mod indexing;
mod marking;
mod names;
mod sorting;
#[cfg(test)]
mod tests;

pub use names::Names;
