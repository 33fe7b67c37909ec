//! Supersteps: each shard makes a round, what leaves is posted, and one hand-over is delivered.
#![tactic(auto)]

mod boxes;
#[cfg(test)]
mod going_tests;
mod limits;
mod running;
mod seats;
mod supersteps;
#[cfg(test)]
mod worker_tests;
mod workers;

pub use running::{go_on, run, run_counted};
