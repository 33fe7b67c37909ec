//! Travellers of one part go abreast: while one waits for memory, the processor goes on with the next.

ghost use Rattle.std.specs.Prelude.{◌≡◌, ◌≤◌, ◌<◌, ◌+◌, ◌-◌, ◌*◌, ◌++◌, ℕ, IfOk, All, length, sum_by};
ghost use Rattle.walk_model.specs.declared.results.Print.{Print as ThePrint};
ghost use Rattle.walk_model.specs.Walk.{walker_count};
ghost use Rattle.csr_store.specs.RowGraph.{RowGraph};
ghost use Rattle.vertex_partition.specs.PartViews.{IsPartOf};
ghost use Rattle.traveller.specs.Ahead.{left_print};
ghost use Rattle.traveller.specs.Runs.{start_rank};
ghost use Rattle.traveller.specs.Standing.{IsWithin};
ghost use Rattle.traveller.specs.Walkers.{first_walker};
ghost use Rattle.shard_core.specs.Abreast.{OwnsAll, IsReadyIn, IsOnWay, IsBetween, CanGoFrom, Decides, Goes, Turns, EachBecomes, heft, first_heft, turn_prints, turns_left};

use crate::prints::Prints;
use std::alloc::Global;
use std::sync::ledger::Ledger;
use traveller::{Lane, Run, Traveller, WalkPart};
use walk_model::{Memory, Print, Rule, Steps};

/// How many travellers go abreast.
pub(crate) const ABREAST: usize = 16;

/// Each traveller reads the record of its table. Nothing here waits for another's record.
fn arrive_each(lanes: &mut [Lane], here: &WalkPart<'_>)
    requires { All (IsReadyIn here.now.run here.now.part) lanes.old }
    ensures { lanes.new ≡ lanes.old }
{
    for lane in lanes.iter_mut() {
        lane.arrive(here);
    }
}

/// Each traveller finds the column that it may read next.
fn aim_each(lanes: &mut [Lane], here: &WalkPart<'_>)
    requires { All (IsReadyIn here.now.run here.now.part) lanes.old }
    ensures { lanes.new ≡ lanes.old }
{
    for lane in lanes.iter_mut() {
        lane.aim(here);
    }
}

/// Each traveller reads that column. Nothing here waits for another's column.
fn read_ahead_each(lanes: &mut [Lane], here: &WalkPart<'_>)
    requires { All (IsReadyIn here.now.run here.now.part) lanes.old }
    ensures { lanes.new ≡ lanes.old }
{
    for lane in lanes.iter_mut() {
        lane.read_ahead(here);
    }
}

/// The travellers look ahead at what their steps will wait for: their tables and, by weight, where each row
/// has columns of its own, the columns of their first darts. A step begins with a dart where there are no
/// coins; by p and q the board is a higher one.
fn look_ahead(lanes: &mut [Lane], here: &WalkPart<'_>)
    requires { All (IsReadyIn here.now.run here.now.part) lanes.old }
    ensures { lanes.new ≡ lanes.old }
{
    let plan = &here.run().plan;
    let coins = plan.stop.top > 0 || plan.restart.top > 0;
    let higher = matches!(plan.rule, Rule::Node2vec { .. });
    arrive_each(lanes, here);
    if plan.weighted && !coins && !higher {
        aim_each(lanes, here);
        read_ahead_each(lanes, here);
    }
}

/// Each traveller decides its step.
fn decide_each<L: Ledger>(lanes: &mut [Lane], here: &WalkPart<'_>, steps: &mut Steps<L>)
    requires { All (IsReadyIn here.now.run here.now.part) lanes.old }
    ensures { EachBecomes (Decides here.now.run here.now.part) lanes.old lanes.new }
{
    for lane in lanes.iter_mut() {
        lane.decide(here, steps);
    }
}

/// Each traveller goes where it decided to. Nothing here waits for another's destination.
fn go_each(lanes: &mut [Lane], here: &WalkPart<'_>)
    requires { All (CanGoFrom here.now.part) lanes.old }
    ensures { EachBecomes (Goes here.now.run here.now.part) lanes.old lanes.new }
{
    for lane in lanes.iter_mut() {
        lane.go(here);
    }
}

/// A traveller that made a step leaves its print.
fn print_one(lane: &Lane, prints: &mut Prints)
    requires { 0 < prints.old.room }
    ensures prints { prints.new.prints ≡ prints.old.prints ++ left_print lane.now }
    ensures room { prints.old.room ≤ prints.new.room + 1 }
{
    if let Some(print) = lane.print() {
        prints.push(print);
    }
}

/// Each traveller that made a step leaves its print.
fn print_each(lanes: &[Lane], prints: &mut Prints)
    requires { length lanes.now ≤ prints.old.room }
    ensures prints { prints.new.prints ≡ prints.old.prints ++ turn_prints lanes.now }
    ensures room { prints.old.room ≤ prints.new.room + length lanes.now }
{
    for lane in lanes {
        print_one(lane, prints);
    }
}

/// Each traveller makes a turn.
pub(crate) fn turn_each<L: Ledger>(
    lanes: &mut [Lane],
    here: &WalkPart<'_>,
    prints: &mut Prints,
    steps: &mut Steps<L>,
)
    requires ready { All (IsReadyIn here.now.run here.now.part) lanes.old }
    requires room { length lanes.old ≤ prints.old.room }
    ensures turned { EachBecomes (Turns here.now.run here.now.part) lanes.old lanes.new }
    ensures prints { prints.new.prints ≡ prints.old.prints ++ turn_prints lanes.new }
    ensures room { prints.old.room ≤ prints.new.room + length lanes.old }
{
    look_ahead(lanes, here);
    decide_each(lanes, here, steps);
    go_each(lanes, here);
    print_each(lanes, prints);
}

/// The same of all lanes: the prints that are left behind are those by which the ones ahead are fewer.
fn turn_all<L: Ledger>(
    lanes: &mut Vec<Lane>,
    here: &WalkPart<'_>,
    prints: &mut Prints,
    steps: &mut Steps<L>,
)
    requires all { OwnsAll here.now.part }
    requires on_way { All (IsOnWay here.now.run here.now.part) lanes.old.items }
    requires room { length lanes.old.items ≤ prints.old.room }
    ensures between { All (IsBetween here.now.run here.now.part) lanes.new.items }
    ensures long { length lanes.new.items ≡ length lanes.old.items }
    ensures hefts { (h : ThePrint → ℕ) (g : RowGraph) → IsPartOf g here.now.part
        → sum_by h prints.new.prints + sum_by (heft h g here.now.run here.now.part) lanes.new.items
        ≡ sum_by h prints.old.prints + sum_by (heft h g here.now.run here.now.part) lanes.old.items }
    ensures left { sum_by turns_left lanes.new.items + length lanes.old.items ≤ sum_by turns_left lanes.old.items }
    ensures room { prints.old.room ≤ prints.new.room + length lanes.old.items }
{
    turn_each(lanes, here, prints, steps);
}

/// The traveller of a number at its start.
pub(crate) fn traveller_of(run: &Run, number: u64) -> Traveller
    requires number { number < walker_count run.now.plan.start run.now.vertices }
    requires some { 0 < run.now.vertices }
    ensures first { result ≡ first_walker number (start_rank run.now.plan.start run.now.vertices run.now.start number) run.now.plan.length }
    ensures within { IsWithin run.now.vertices result }
{
    let start = run.start_of(number);
    Traveller::new(run, number, start, run.plan.length)
}

/// The next traveller begins its walk, and leaves its print at its start.
fn begin_next(here: &WalkPart<'_>, number: u64, prints: &mut Prints) -> Traveller
    requires all { OwnsAll here.now.part }
    requires number { number < walker_count here.now.run.plan.start here.now.run.vertices }
    requires some { 0 < here.now.run.vertices }
    requires room { 0 < prints.old.room }
    ensures on_way { IsOnWay here.now.run here.now.part result }
    ensures left { turns_left result ≡ here.now.run.plan.length + 1 }
    ensures hefts { (h : ThePrint → ℕ) (g : RowGraph) → IsPartOf g here.now.part
        → sum_by h prints.new.prints + heft h g here.now.run here.now.part result + first_heft h g here.now.run here.now.part number
        ≡ sum_by h prints.old.prints + first_heft h g here.now.run here.now.part (number + 1) }
    ensures room { prints.new.room + 1 ≡ prints.old.room }
{
    let traveller = traveller_of(here.run(), number);
    prints.push(Print {
        walker: number,
        step: 0,
        at: traveller.at(),
    });
    traveller
}

/// The travellers from one number up to another in lanes, at most as many as go abreast.
fn first_lanes(
    alloc: Global,
    here: &WalkPart<'_>,
    first: u64,
    next: u64,
    prints: &mut Prints,
) -> Result<Vec<Lane>, Memory>
    requires all { OwnsAll here.now.part }
    requires rising { first ≤ next }
    requires next { next ≤ walker_count here.now.run.plan.start here.now.run.vertices }
    requires some { first < next → 0 < here.now.run.vertices }
    requires room { next ≤ prints.old.room + first }
    ensures on_way { IfOk result (λ ls. All (IsOnWay here.now.run here.now.part) ls.items) }
    ensures count { IfOk result (λ ls. length ls.items + first ≡ next) }
    ensures hefts { IfOk result (λ ls. (h : ThePrint → ℕ) (g : RowGraph) → IsPartOf g here.now.part
        → sum_by h prints.new.prints + sum_by (heft h g here.now.run here.now.part) ls.items + first_heft h g here.now.run here.now.part first
        ≡ sum_by h prints.old.prints + first_heft h g here.now.run here.now.part next) }
{
    let mut lanes = Vec::with_capacity(alloc, ABREAST)?;
    for number in first..next {
        let traveller = begin_next(here, number, prints);
        lanes.push(Lane::of(here.run(), traveller))?;
    }
    Ok(lanes)
}

/// Those whose walks have ended make place for the next travellers, from one number up to another, as long
/// as there are any. The number of the next one is the result.
fn refresh(
    lanes: &mut Vec<Lane>,
    here: &WalkPart<'_>,
    next: u64,
    end: u64,
    prints: &mut Prints,
) -> u64
    requires all { OwnsAll here.now.part }
    requires between { All (IsBetween here.now.run here.now.part) lanes.old.items }
    requires next { next ≤ end }
    requires end { end ≤ walker_count here.now.run.plan.start here.now.run.vertices }
    requires some { next < end → 0 < here.now.run.vertices }
    requires room { length lanes.old.items ≤ prints.old.room }
    ensures on_way { All (IsOnWay here.now.run here.now.part) lanes.new.items }
    ensures next { result ≤ end }
    ensures later { next ≤ result }
    ensures few { length lanes.new.items ≤ length lanes.old.items }
    ensures full { result < end → length lanes.new.items ≡ length lanes.old.items }
    ensures hefts { (h : ThePrint → ℕ) (g : RowGraph) → IsPartOf g here.now.part
        → sum_by h prints.new.prints + sum_by (heft h g here.now.run here.now.part) lanes.new.items + first_heft h g here.now.run here.now.part next
        ≡ sum_by h prints.old.prints + sum_by (heft h g here.now.run here.now.part) lanes.old.items + first_heft h g here.now.run here.now.part result }
    ensures left { sum_by turns_left lanes.new.items + (end - result) * (here.now.run.plan.length + 2)
        ≤ sum_by turns_left lanes.old.items + (end - next) * (here.now.run.plan.length + 2) }
{
    let mut next = next;
    let mut k = 0usize;
    'refreshing: while k < lanes.len() {
        if !lanes[k].has_ended() {
            k += 1;
        } else if next < end {
            let traveller = begin_next(here, next, prints);
            lanes[k].take(here.run(), traveller);
            next += 1;
            k += 1;
        } else {
            let _ended = lanes.remove(k);
        }
    }
    next
}

/// Walks the travellers of a run from one number up to another to their ends, on a part that owns all
/// vertices, several abreast, and keeps the prints of their walks.
///
/// # Errors
///
/// `Memory` where there is too little of it.
pub fn walk_abreast<L: Ledger>(
    alloc: Global,
    here: &WalkPart<'_>,
    first: u64,
    end: u64,
    prints: &mut Prints,
    steps: &mut Steps<L>,
) -> Result<(), Memory>
    requires all { OwnsAll here.now.part }
    requires rising { first ≤ end }
    requires end { end ≤ walker_count here.now.run.plan.start here.now.run.vertices }
    requires some { first < end → 0 < here.now.run.vertices }
    ensures { IfOk result (λ _. (h : ThePrint → ℕ) (g : RowGraph) → IsPartOf g here.now.part
        → sum_by h prints.new.prints + first_heft h g here.now.run here.now.part first
        ≡ sum_by h prints.old.prints + first_heft h g here.now.run here.now.part end) }
{
    prints.make_room(alloc, ABREAST)?;
    let mut next = first + (end - first).min(ABREAST as u64);
    let mut lanes = first_lanes(alloc, here, first, next, prints)?;
    'walking: while lanes.len() > 0 {
        prints.make_room(alloc, 2 * ABREAST)?;
        turn_all(&mut lanes, here, prints, steps);
        next = refresh(&mut lanes, here, next, end, prints);
    }
    Ok(())
}
