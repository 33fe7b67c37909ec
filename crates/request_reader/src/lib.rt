//! Request files: a text to the requests of its lines.
#![tactic(auto)]

mod judging;
pub mod limits;
mod lines;
mod reading;
mod requests;
#[cfg(test)]
mod tests;

pub use reading::read_requests;
pub use requests::Request;
