//! Walks by a scheme of types (meta-paths): in each phase a walker takes edges of one type alone.
#![tactic(auto)]

mod scheme;
#[cfg(test)]
mod tests;

pub use scheme::{SchemeClasses, TypeClasses, class_of_type, scheme_factors, wanted};
