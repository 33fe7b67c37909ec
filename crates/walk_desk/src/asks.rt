//! What clients ask for, and what they get.
ghost use Rattle.std.specs.Prelude.{◌≤◌};

use walk_model::Path;

/// An ask for one walk: which random stream, from which id, and how many steps at most (1,048,576).
#[derive(Clone, Copy, Debug, PartialEq, Eq)]
pub struct WalkAsk {
    pub stream: u64,
    pub start: u32,
    pub length: u32,
    pub ghost within: { length ≤ 1048576 },
}

/// The answer to an ask, with the ask and its number among its client's asks, from 0. The walk is
/// one of ids, or none where the engine has none.
#[derive(Debug, Drop)]
pub struct WalkAnswer {
    pub number: u64,
    pub ask: WalkAsk,
    pub walk: Option<Path>,
}

/// The ring of asks has no room.
#[derive(Clone, Copy, Debug, PartialEq, Eq)]
pub struct Full;
