//! Items on their way.

/// An item with its addressee.
#[derive(Debug, Drop)]
pub struct Addressed<I> {
    pub to: u32,
    pub item: I,
}

/// Items that go from one sender to one addressee, in their order.
#[derive(Debug, Drop)]
pub struct Parcel<I> {
    pub from: u32,
    pub to: u32,
    pub items: Vec<I>,
}

/// An item with its sender and its addressee: what a carrier holds.
#[derive(Debug, Drop)]
pub struct Posted<I> {
    pub from: u32,
    pub to: u32,
    pub item: I,
}
