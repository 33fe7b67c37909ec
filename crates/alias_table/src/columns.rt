//! The columns of a row, in four forms.

/// A column: how much of it its own item has, and the item that has the rest.
#[derive(Clone, Copy)]
pub(crate) struct Column<N> {
    pub own: N,
    pub other: u32,
}

/// The columns of a row.
#[derive(Drop)]
pub(crate) enum Columns {
    /// Each item has its own column whole.
    Whole,
    /// The number of all places fits 32 bits.
    Slim(Vec<Column<u32>>),
    /// It fits 64 bits.
    Narrow(Vec<Column<u64>>),
    /// It needs more.
    Wide(Vec<Column<u128>>),
}
