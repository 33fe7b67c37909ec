//! The vertices cut into parts of like cost, and each part's rows with their alias tables.
#![tactic(auto)]

mod cuts;
mod own_tables;
mod parts;
mod reaching;
mod splitting;
#[cfg(test)]
mod table_tests;
mod tabling;
#[cfg(test)]
mod tests;

pub use cuts::Cuts;
pub use parts::PartRows;
pub use reaching::first_overflow;
pub use splitting::{split, whole};
