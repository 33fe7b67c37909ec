//! A desk that answers its clients' asks for walks, each client's once and in order.
#![tactic(auto)]

mod asks;
mod client;
mod desk;
mod ends;
mod engine;
mod gathering;
mod lane;
mod opening;
mod seating;
#[cfg(test)]
mod tests;

pub use asks::{Full, WalkAnswer, WalkAsk};
pub use client::Client;
pub use desk::Desk;
pub use engine::{DeskName, Engine};
pub use gathering::gather;
pub use opening::DeskRings;
