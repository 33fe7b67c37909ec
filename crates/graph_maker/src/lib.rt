//! Graphs that are made by a rule, for trials: the same numbers give the same graph everywhere.
#![tactic(auto)]

mod making;
#[cfg(test)]
mod tests;

pub use making::make;
