//! Who answers, and which desk it is.
ghost use Rattle.std.specs.Prelude.{◌≡◌, ◌<◌, ◌^◌, ℕ, List, [], Option, None, length, IfOk};
ghost use Rattle.walk_desk.specs.Rings.{Line};
ghost use Rattle.walk_desk.specs.declared.asks.WalkAsk.{WalkAsk};

use crate::asks::WalkAsk;
use rtrb::Protocol;
use std::alloc::Global;
use std::marker::Brand;
use walk_model::{Memory, Path};

/// What answers asks.
pub trait Engine: Drop {
    /// The one answer to each ask: a walk of ids, or none.
    ghost walk_of: { Self → WalkAsk → Option (List ℕ) };

    /// The answer to an ask.
    fn walk(&self, alloc: Global, ask: &WalkAsk) -> Result<Option<Path>, Memory>
        ensures { IfOk result (λ w. w ≡ walk_of self.now ask.now) };
}

/// The name of one desk. It has no calls: contracts alone see what it stands for.
pub trait DeskName {
    /// The two rings of each client, by place.
    ghost lines: { List Line };

    /// The answer to each ask.
    ghost walk: { WalkAsk → Option (List ℕ) };
}

/// The name that a caller gives to a function that is generic in it, once the rings are made.
impl DeskName for Brand {
    ghost lines = { [] };

    ghost walk = { λ _. None };
}

/// What a ring of asks carries: fewer than 2^63 asks went before each one, so that it has a number.
#[derive(Clone, Copy)]
pub(crate) struct Numbered;

impl Protocol<WalkAsk> for Numbered {
    ghost allows = { λ before _. length before < 2 ^ 63 };
}
