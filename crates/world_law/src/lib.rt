//! The laws of walkers that travel between the parts of a graph: what may happen to them, and what stays true
//! whatever happens, in whatever order.
#![tactic(auto)]

mod laws;

pub use laws::{
    crew_law, event_law, finish_law, history_law, item_law, part_law, round_law, rounds_law,
    turn_law,
};
