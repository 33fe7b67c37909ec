//! Programmes: a TOML text to a plan.
#![tactic(auto)]

mod fractions;
mod judges;
mod plans;
mod table;
#[cfg(test)]
mod tests;
mod values;

pub use fractions::read_fraction;
pub use plans::read_plan;
