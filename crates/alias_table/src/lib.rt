//! Alias tables, after Vose: columns of equal size over weights, each with at most two items, so that
//! one column tells which item a place picks.
#![tactic(auto)]

mod columns;
mod division;
mod filling;
mod sums;
mod table;
#[cfg(test)]
mod tests;
mod widths;

pub use table::AliasTable;
