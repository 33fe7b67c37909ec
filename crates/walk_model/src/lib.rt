//! Graphs, plans and walks: the types, what they mean, and a plain walker.
#![tactic(auto)]

mod boards;
mod checks;
mod columns;
mod digits;
mod factors;
mod faults;
mod graph;
pub mod limits;
mod messages;
mod numbers;
mod plans;
mod programme;
mod results;
mod rows;
mod states;
mod steps;
#[cfg(test)]
mod tests;
mod walks;

pub use checks::can_walk;
pub use digits::whole_number;
pub use factors::greatest_factor;
pub use faults::{
    Key, KeyText, Limit, LineFault, Memory, NameText, PlanFault, WalkFault, Why, status,
};
pub use graph::Edge;
pub use messages::{Ask, Ends, Found, Letter, Question, Reply, What};
pub use numbers::place_above;
pub use plans::Plan;
pub use programme::{Fraction, Kinds, Rule, StartRule};
pub use results::{Finished, Path, Print};
pub use rows::vertices;
pub use states::State;
pub use steps::Steps;
pub use walks::plain_walk;
