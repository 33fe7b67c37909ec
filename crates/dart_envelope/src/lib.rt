//! Darts at the board of a row, after KnightKing: a candidate edge by its weight and a height under
//! the greatest factor, with the return edges' higher factor in a strip apart; and the exact scan.
#![tactic(auto)]

mod board;
mod scanning;
#[cfg(test)]
mod tests;
mod verdict;

pub use board::Board;
pub use scanning::{scan, scan_total};
pub use verdict::Verdict;
