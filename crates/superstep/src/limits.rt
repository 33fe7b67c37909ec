//! What can be counted.

ghost use Rattle.std.specs.Prelude.{◌≡◌, ◌≤◌, ◌<◌, ◌+◌, ◌*◌, ◌^◌, length, slice_index_or};
ghost use Rattle.walk_model.specs.Walk.{walker_count};
ghost use Rattle.shard_core.specs.Shards.{ShardView};
ghost use Rattle.superstep.specs.Moments.{most_letters};

use shard_core::Shard;
use traveller::Run;
use walk_model::StartRule;

/// The most walkers of a start rule, over so many vertices.
#[tactic(auto, unfolding(walk_model::specs::Walk::walker_count))]
fn count_of(start: StartRule, vertices: u32) -> u32
    ensures { result ≡ walker_count start vertices }
{
    match start {
        StartRule::Each => vertices,
        StartRule::Spread { walkers } => walkers,
        StartRule::From { walkers, .. } => walkers,
    }
}

/// The most letters of the walks of so many walkers, each of so many steps with so many darts.
fn most_of(walkers: u32, length: u32, retries: u32) -> u64
    requires length { length ≤ 1048576 }
    requires retries { retries ≤ 1000 }
    ensures most { result ≡ walkers * (length * (2 * retries + 3)) }
    ensures few { result < 2 ^ 63 }
{
    u64::from(walkers) * (u64::from(length) * (2 * u64::from(retries) + 3))
}

/// The most letters of all walks of a run, which can be counted.
fn most_letters_of(run: &Run) -> u64
    ensures most { result ≡ most_letters run.now }
    ensures few { result < 2 ^ 63 }
{
    let plan = &run.plan;
    most_of(
        count_of(plan.start, run.vertices),
        plan.length,
        plan.retries,
    )
}

/// The letters of all walks of a world's run can be counted, and so can its parts.
pub(crate) fn look_up(shards: &[Shard])
    requires { 0 < length shards.now }
    ensures letters { (s : ShardView) → most_letters (slice_index_or shards.now 0 s).run < 2 ^ 63 }
    ensures parts { (s : ShardView) → length (slice_index_or shards.now 0 s).part.cuts + 1 ≤ 256 }
{
    let _parts = shards[0].parts();
    let _letters = most_letters_of(shards[0].run());
}
