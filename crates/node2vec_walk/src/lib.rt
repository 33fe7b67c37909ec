//! node2vec walks, after Grover and Leskovec: an edge's factor goes by whether it leads back to the
//! previous vertex, to one of that vertex's neighbours, or farther away.
#![tactic(auto)]

mod destinations;
mod nearness;
#[cfg(test)]
mod tests;

pub use destinations::{NearClasses, is_near, return_run};
pub use nearness::{NodeClasses, class_of, known_class, node_factors, zone};
