/// An edge of a row, whose source is the row's vertex.
///
/// The fields stand in an order in which an edge takes 16 bytes.
#[derive(Clone, Copy, Debug, PartialEq, Eq)]
pub struct OutEdge {
    pub dst: u32,
    pub kind: u8,
    pub weight: u64,
}
