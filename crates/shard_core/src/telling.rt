//! What a shard tells of its run and of the parts.

ghost use Rattle.std.specs.Prelude.{◌≡◌, ◌≤◌, ◌+◌, length};
ghost use Rattle.vertex_partition.specs.Limits.{most_parts};
ghost use Rattle.traveller.specs.Standing.{Suits};

use crate::shards::Shard;
use traveller::Run;

impl Shard {
    /// What its walkers do.
    pub fn run(&self) -> &Run
        ensures run { result.now ≡ self.now.run }
        ensures suits { Suits self.now.run self.now.part }
    {
        &self.run
    }

    /// The number of all parts.
    pub fn parts(&self) -> u32
        ensures parts { result ≡ length self.now.part.cuts + 1 }
        ensures few { result ≤ most_parts }
    {
        self.part.parts()
    }
}
