//! A batch of asks to one part: each distinct question is looked up once, and each ask has its reply.
#![tactic(auto)]

mod batches;
mod finding;
mod places;
#[cfg(test)]
mod tests;

pub use batches::answer;
