//! What a dart finds.

/// The verdict of one dart. Edges are numbered by their places in the row, from 0.
#[derive(Clone, Copy, Debug, PartialEq, Eq)]
pub enum Verdict {
    /// The word lies past the last whole round of places.
    Miss,
    /// The edge is taken.
    Take { edge: usize },
    /// The height lies above the factor of the edge's class.
    Turned,
    /// It depends on the edge's class: `Board::settle` tells.
    Need { edge: usize, height: u64 },
}
