//! One walker in small steps: a walk that can stop at each step and at each question, and go on in
//! another part of the graph.
#![tactic(auto)]

mod choosing;
mod deciding;
mod far_throwing;
mod hearing;
mod here;
mod lanes;
mod modes;
mod ruling;
mod runs;
#[cfg(test)]
mod test_runs;
#[cfg(test)]
mod tests;
mod throwing;
mod travellers;

pub use here::WalkPart;
pub use lanes::Lane;
pub use modes::{Mode, Turn};
pub use ruling::{RuleFactors, TypedFactors, rule_factors};
pub use runs::Run;
pub use travellers::Traveller;
