//! The walkers of a part that can go on make their turns, several abreast.

ghost use Rattle.std.specs.Prelude.{◌≡◌, ◌≤◌, ◌<◌, ◌+◌, ◌++◌, ℕ, [], map, true, ◌==◌, ◌&&◌, IfOk, OnOk, All, length, sum_by};
ghost use Rattle.walk_model.specs.Cuts.{owner};
ghost use Rattle.csr_store.specs.RowGraph.{RowGraph};
ghost use Rattle.vertex_partition.specs.PartViews.{IsPartOf};
ghost use Rattle.traveller.specs.Walkers.{is_fresh};
ghost use Rattle.world_law.specs.Worlds.{Piece, Printed, Resident};
ghost use Rattle.shard_core.specs.Abreast.{IsReadyIn};
ghost use Rattle.shard_core.specs.Leaving.{HasTurned, IsLeft, IsMore, left_weight, resident_weight, turn_weight, turns_ahead};
ghost use Rattle.shard_core.specs.Offers.{BecomesIn};
ghost use Rattle.shard_core.specs.Turning.{at_hand, turned_pieces};

use crate::abreast::{ABREAST, turn_each};
use crate::leaving::Left;
use crate::prints::Prints;
use std::alloc::Global;
use std::sync::ledger::Ledger;
use traveller::{Lane, Traveller, WalkPart};
use walk_model::{Memory, Steps};

/// Whether the traveller of a lane has made a step that didn't lead out of the part.
fn stays(here: &WalkPart<'_>, lane: &Lane) -> bool
    requires { HasTurned here.now.run here.now.part lane.now }
    ensures { result ≡ (is_fresh lane.now.mode && owner here.now.part.cuts lane.now.state.at == here.now.part.part) }
{
    match lane.print() {
        Some(print) => here.part().owns(print.at),
        None => false,
    }
}

/// The last walkers that can go on, in lanes: at most as many as go abreast.
fn first_lanes(
    alloc: Global,
    here: &WalkPart<'_>,
    ready: &mut Vec<Traveller>,
) -> Result<Vec<Lane>, Memory>
    requires { All (IsReadyIn here.now.run here.now.part) ready.old.items }
    ensures ready { IfOk result (λ lanes. All (IsReadyIn here.now.run here.now.part) lanes.items) }
    ensures rest { OnOk result (All (IsReadyIn here.now.run here.now.part) ready.new.items) }
    ensures few { IfOk result (λ lanes. length lanes.items ≤ 16) }
    ensures full { IfOk result (λ lanes. 0 < length ready.new.items → 0 < length lanes.items) }
    ensures same { IfOk result (λ lanes. (h : Piece → ℕ) → resident_weight h here.now.part lanes.items + resident_weight h here.now.part ready.new.items
        ≡ resident_weight h here.now.part ready.old.items) }
{
    let mut lanes = Vec::with_capacity(alloc, ABREAST)?;
    'filling: while lanes.len() < ABREAST {
        match ready.pop() {
            Some(traveller) => lanes.push(Lane::of(here.run(), traveller))?,
            None => return Ok(lanes),
        }
    }
    Ok(lanes)
}

/// Each walker makes a turn.
fn turn_pass<L: Ledger>(
    lanes: &mut Vec<Lane>,
    here: &WalkPart<'_>,
    prints: &mut Prints,
    steps: &mut Steps<L>,
)
    requires ready { All (IsReadyIn here.now.run here.now.part) lanes.old.items }
    requires room { length lanes.old.items ≤ prints.old.room }
    ensures turned { All (HasTurned here.now.run here.now.part) lanes.new.items }
    ensures long { length lanes.new.items ≡ length lanes.old.items }
    ensures fewer { sum_by turns_ahead lanes.new.items + length lanes.old.items ≤ sum_by turns_ahead lanes.old.items }
    ensures prints { IsMore prints.old.prints prints.new.prints }
    ensures becomes { BecomesIn here.now.run here.now.part
        (map (Resident here.now.part.part) lanes.old.items ++ map (Printed here.now.part.part) prints.old.prints)
        (turned_pieces here.now.part lanes.new.items ++ map (Printed here.now.part.part) prints.new.prints) }
{
    turn_each(lanes, here, prints, steps);
}

/// Walkers that can't make their next turn here make place for others that can, as long as there are any.
fn settle(
    lanes: &mut Vec<Lane>,
    here: &WalkPart<'_>,
    ready: &mut Vec<Traveller>,
    left: &mut Left,
) -> Result<(), Memory>
    requires turned { All (HasTurned here.now.run here.now.part) lanes.old.items }
    requires ready { All (IsReadyIn here.now.run here.now.part) ready.old.items }
    requires left { IsLeft here.now.run here.now.part left.old }
    ensures lanes { OnOk result (All (IsReadyIn here.now.run here.now.part) lanes.new.items) }
    ensures rest { OnOk result (All (IsReadyIn here.now.run here.now.part) ready.new.items) }
    ensures left { OnOk result (IsLeft here.now.run here.now.part left.new) }
    ensures few { OnOk result (length lanes.new.items ≤ length lanes.old.items) }
    ensures full { OnOk result (0 < length ready.new.items → length lanes.new.items ≡ length lanes.old.items) }
    ensures fewer { OnOk result (sum_by turns_ahead lanes.new.items + sum_by turns_ahead ready.new.items
        ≤ sum_by turns_ahead lanes.old.items + sum_by turns_ahead ready.old.items) }
    ensures same { OnOk result ((h : Piece → ℕ)
        → resident_weight h here.now.part lanes.new.items + resident_weight h here.now.part ready.new.items + left_weight h here.now.part left.new
        ≡ sum_by (turn_weight h here.now.part) lanes.old.items + resident_weight h here.now.part ready.old.items + left_weight h here.now.part left.old) }
{
    let mut k = 0usize;
    'settling: while k < lanes.len() {
        if stays(here, &lanes[k]) {
            k += 1;
            continue;
        }
        match ready.pop() {
            Some(next) => {
                let gone = lanes[k].change(next);
                left.take(here, gone)?;
                k += 1;
            }
            None => {
                let gone = lanes.remove(k);
                left.take(here, gone.into_traveller())?;
            }
        }
    }
    Ok(())
}

/// Walkers that can go on make their turns, until each waits, has left the part or has ended its walk.
///
/// # Errors
///
/// `Memory` where there is too little of it.
pub(crate) fn turn_ready<L: Ledger>(
    alloc: Global,
    here: &WalkPart<'_>,
    ready: Vec<Traveller>,
    left: &mut Left,
    prints: &mut Prints,
    steps: &mut Steps<L>,
) -> Result<(), Memory>
    requires ready { All (IsReadyIn here.now.run here.now.part) ready.items }
    requires left { IsLeft here.now.run here.now.part left.old }
    ensures left { OnOk result (IsLeft here.now.run here.now.part left.new) }
    ensures prints { OnOk result (IsMore prints.old.prints prints.new.prints) }
    ensures becomes { OnOk result (BecomesIn here.now.run here.now.part
        (at_hand here.now.part ready.items left.old prints.old.prints) (at_hand here.now.part [] left.new prints.new.prints)) }
{
    let mut ready = ready;
    let mut lanes = first_lanes(alloc, here, &mut ready)?;
    'turning: while lanes.len() > 0 {
        prints.make_room(alloc, ABREAST)?;
        turn_pass(&mut lanes, here, prints, steps);
        settle(&mut lanes, here, &mut ready, left)?;
    }
    Ok(())
}
