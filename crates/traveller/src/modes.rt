//! How far a walker has come within a step.

use walk_model::Question;

/// How far a walker has come within its step.
#[derive(Clone, Copy, Debug, PartialEq, Eq)]
pub enum Mode {
    /// At the beginning of a step.
    Fresh,
    /// No coin fell; so many darts are left, and the next word is at `place`.
    Darts {
        left: u32,
        place: u64,
    },
    /// It waits: the dart with the word at `place` needs the question, and so many darts are left after it.
    Asked {
        left: u32,
        place: u64,
        question: Question,
    },
    /// It waits: the darts are spent, and the scan, whose next word is at `place`, needs the question.
    AskedRow {
        place: u64,
        question: Question,
    },
    /// The edge at this place of the row is decided, and the next word is at `place`.
    Chosen {
        edge: usize,
        place: u64,
    },
    /// At the end of its walk.
    Over,
}

/// What a turn came to.
#[derive(Clone, Copy, Debug, PartialEq, Eq)]
pub enum Turn {
    /// A step was made, to this vertex.
    Moved { to: u32 },
    /// Another part must be asked whether there is an edge from `t` to `x`.
    AskEdge { t: u32, x: u32 },
    /// Another part must be asked for the row of `t`.
    AskRow { t: u32 },
    /// The walk has ended.
    Ended,
}
