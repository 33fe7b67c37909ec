//! Factors by class: an edge's dynamic factor is that of its class, of which a row may know some.
#![tactic(auto)]

mod classes;
mod each_class;
mod extremes;
mod table;
#[cfg(test)]
mod tests;

pub use classes::{Classes, OneClass, RowClasses};
pub use table::FactorTable;
