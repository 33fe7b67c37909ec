//! Many walkers on one part: the prints of their steps, travellers abreast, and the walks that the prints make.
#![tactic(auto)]

mod abreast;
mod arriving;
mod counting;
mod finishing;
mod gathering;
mod hearing;
mod items;
mod leaving;
mod prints;
mod rounds;
mod shards;
mod telling;
#[cfg(test)]
mod tests;
mod turning;
mod whole;
#[cfg(test)]
mod world_tests;
mod worlds;

pub use abreast::walk_abreast;
pub use items::Item;
pub use prints::{PIECE, Prints};
pub use shards::Shard;
pub use whole::walk_all;
pub use worlds::World;
