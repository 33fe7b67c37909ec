//! One walk on a part that has all vertices.

ghost use Rattle.std.specs.Prelude.{◌≡◌, ◌≤◌, ◌<◌, ◌++◌, length, map, slice_index, IfOk, OnOk};
ghost use Rattle.shard_core.specs.Abreast.{IsOnWay, OwnsAll, Turns};
ghost use Rattle.traveller.specs.Ahead.{left_print};
ghost use Rattle.request_replies.specs.PartWalks.{ids_of, rank_walk};

use std::alloc::Global;
use std::marker::Brand;
use std::sync::ledger::{Blank, Ledger};
use traveller::{Lane, Traveller, WalkPart};
use vertex_names::Names;
use walk_model::{Memory, Steps};

/// A walker makes a turn.
fn turn<L: Ledger>(lane: &mut Lane, here: &WalkPart<'_>, steps: &mut Steps<L>)
    requires all { OwnsAll here.now.part }
    requires on_way { IsOnWay here.now.run here.now.part lane.old }
    ensures { Turns here.now.run here.now.part lane.old lane.new }
{
    lane.decide(here, steps);
    lane.go(here);
}

/// Adds the id of the vertex where a walker stands after a step, if it made one.
fn add_entry(entries: &mut Vec<u32>, names: &Names, lane: &Lane) -> Result<(), Memory>
    requires { lane.now.state.at < length names.now }
    ensures { OnOk result (entries.new.items ≡ entries.old.items ++ ids_of names.now (left_print lane.now)) }
{
    if let Some(print) = lane.print() {
        entries.push(names.id(print.at))?;
    }
    Ok(())
}

/// The walk of a stream from a vertex, in ids, with a blank for the counter of steps.
fn counted_walk<L: Ledger>(
    alloc: Global,
    names: &Names,
    here: &WalkPart<'_>,
    stream: u64,
    rank: u32,
    most: u32,
    blank: Blank,
) -> Result<Vec<u32>, Memory>
    requires name { blank.name ≡ L.name }
    requires parts { blank.parts ≡ L.parts }
    requires blank { 0 < blank.parts }
    requires all { OwnsAll here.now.part }
    requires named { length names.now ≡ here.now.run.vertices }
    requires start { rank < here.now.run.vertices }
    requires steps { most ≤ 1048576 }
    ensures { IfOk result (λ v. v.items ≡ map (slice_index names.now) (rank_walk here.now stream rank most)) }
{
    let mut steps = Steps::<L>::new(blank);
    let traveller = Traveller::new(here.run(), stream, rank, most);
    let mut lane = Lane::of(here.run(), traveller);
    let mut entries = Vec::with_capacity(alloc, most as usize + 1)?;
    entries.push(names.id(rank))?;
    'walking: while !lane.has_ended() {
        turn(&mut lane, here, &mut steps);
        add_entry(&mut entries, names, &lane)?;
    }
    Ok(entries)
}

/// The walk of a stream from a vertex, of so many steps at most, in ids.
pub(crate) fn walk_from(
    alloc: Global,
    names: &Names,
    here: &WalkPart<'_>,
    stream: u64,
    rank: u32,
    most: u32,
) -> Result<Vec<u32>, Memory>
    requires all { OwnsAll here.now.part }
    requires named { length names.now ≡ here.now.run.vertices }
    requires start { rank < here.now.run.vertices }
    requires steps { most ≤ 1048576 }
    ensures { IfOk result (λ v. v.items ≡ map (slice_index names.now) (rank_walk here.now stream rank most)) }
{
    counted_walk::<Brand>(alloc, names, here, stream, rank, most, Blank::new(1))
}
