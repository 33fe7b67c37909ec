//! Parcels of items between the parts of a graph, the carriers that take them to their addressees, and the gate that
//! workers pass.
#![tactic(auto)]

mod carriers;
mod gates;
mod in_order;
mod mail;
mod one_by_one;
mod packing;
mod parcels;
mod recording;
mod reversed;
mod shuffled;
#[cfg(test)]
mod tests;
mod unpacking;

pub use carriers::Carrier;
pub use gates::{Gate, NoGate};
pub use in_order::InOrder;
pub use mail::Mail;
pub use one_by_one::OneByOne;
pub use packing::pack;
pub use parcels::{Addressed, Parcel, Posted};
pub use recording::Recording;
pub use reversed::Reversed;
pub use shuffled::Shuffled;
pub use unpacking::count_items;
