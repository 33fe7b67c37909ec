//! The engine of a desk that walks on one part.

ghost use Rattle.std.specs.Prelude.{◌≡◌, length};
ghost use Rattle.shard_core.specs.Abreast.{OwnsAll};

use crate::walking::walk_from;
use std::alloc::Global;
use traveller::WalkPart;
use vertex_names::Names;
use walk_desk::{Engine, WalkAsk};
use walk_model::{Memory, Path};

/// Walks what is asked for, one walker on one part that has all vertices. What a walk needs besides its own words is made once:
/// the names, the run, the part with its tables, and the factors.
#[derive(Drop)]
pub(crate) struct PartEngine<'a> {
    pub(crate) names: &'a Names,
    pub(crate) here: WalkPart<'a>,
    pub(crate) ghost all: { OwnsAll here.part },
    pub(crate) ghost named: { length names.now ≡ here.run.vertices },
}

impl<'a> Engine for PartEngine<'a> {
    ghost use Rattle.request_replies.specs.Answered.{request_in};
    ghost use Rattle.request_replies.specs.PartWalks.{part_walk};

    ghost walk_of = { λ e a. part_walk e.names.now e.here (request_in a) };

    fn walk(&self, alloc: Global, ask: &WalkAsk) -> Result<Option<Path>, Memory> {
        let Some(rank) = self.names.rank(ask.start) else {
            return Ok(None);
        };
        let entries = walk_from(alloc, self.names, &self.here, ask.stream, rank, ask.length)?;
        Ok(Some(Path::of(entries)))
    }
}
