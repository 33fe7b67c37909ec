//! Worlds that are run to their ends.

ghost use Rattle.std.specs.Prelude.{◌≡◌, ◌≤◌, ◌+◌, ◌^◌, ℕ, List, [], Option, true, All, IfOk, OnOk};
ghost use Rattle.csr_store.specs.RowGraph.{RowGraph};
ghost use Rattle.traveller.specs.declared.runs.Run.{Run};
ghost use Rattle.traveller.specs.PartedRuns.{letters_in};
ghost use Rattle.traveller.specs.Standing.{parted};
ghost use Rattle.shard_core.specs.SoundWorlds.{HasBegun, HasBegunSomehow, IsSomeWorld, IsSoundWorld, world_data};
ghost use Rattle.shard_core.specs.Walks.{walks_in};
ghost use Rattle.superstep.specs.Carried.{IsLogged, count_letters};
ghost use Rattle.superstep.specs.Moments.{IsSettled, Stands, moment};
ghost use Rattle.superstep.specs.ToPost.{to_post};
ghost use Rattle.walk_model.specs.declared.messages.Letter.{Letter};
ghost use Rattle.walk_model.specs.Walk.{walker_count};
ghost use Rattle.world_law.specs.Worlds.{world_pieces};

use crate::limits::look_up;
use crate::supersteps::walk_through;
use shard_core::{Item, Shard, World};
use std::alloc::Global;
use std::thread::Threads;
use walk_model::{Finished, Memory};
use walker_mail::{Carrier, Gate};

/// Walks a world from its beginning to its end by 1 to 16 workers. In each superstep, of which the first is number 1,
/// each worker enters the gate with its own number, from 0, and the superstep's, and then each shard whose number
/// modulo `workers` is the worker's makes one round. What leaves is packed in parcels of at most 256 items and posted in
/// the order of the shards, and one hand-over is delivered. With one worker no thread is started.
///
/// # Errors
///
/// `Memory` where there is too little of it; then nothing is known of the carrier.
pub fn run<R: Threads + Sync, C: Carrier<Item>, G: Gate + Sync>(
    rt: &R,
    alloc: Global,
    world: World,
    workers: u32,
    carrier: &mut C,
    gate: &G,
) -> Result<Finished, Memory>
    requires begun { HasBegunSomehow world }
    requires some { 1 ≤ workers }
    requires most { workers ≤ 16 }
    requires held { C.held carrier.old ≡ [] }
    requires count { C.carried carrier.old ≤ 2 ^ 63 }
    ensures walks { IfOk result (λ f. (g : RowGraph) (run : Run) (cuts : List ℕ) → HasBegun g run cuts world → f ≡ walks_in (parted g run cuts)) }
    ensures empty { OnOk result (C.held carrier.new ≡ []) }
    ensures carried { OnOk result ((g : RowGraph) (run : Run) (cuts : List ℕ) → HasBegun g run cuts world
        → C.carried carrier.new ≡ C.carried carrier.old + count_letters (walker_count run.plan.start run.vertices) (letters_in (parted g run cuts))) }
    ensures logged { OnOk result ((g : RowGraph) (run : Run) (cuts : List ℕ) → HasBegun g run cuts world
        → IsLogged (walker_count run.plan.start run.vertices) (letters_in (parted g run cuts)) (C.log carrier.old) (C.log carrier.new)) }
{
    let mut total = 0u64;
    let finished = run_counted(rt, alloc, world, workers, carrier, gate, &mut total)?;
    Ok(finished)
}

/// Walks a world as `run` does, and says how many items were posted.
///
/// # Errors
///
/// `Memory` where there is too little of it; then nothing is known of the carrier and of the number.
pub fn run_counted<R: Threads + Sync, C: Carrier<Item>, G: Gate + Sync>(
    rt: &R,
    alloc: Global,
    world: World,
    workers: u32,
    carrier: &mut C,
    gate: &G,
    total: &mut u64,
) -> Result<Finished, Memory>
    requires begun { HasBegunSomehow world }
    requires some { 1 ≤ workers }
    requires most { workers ≤ 16 }
    requires held { C.held carrier.old ≡ [] }
    requires count { C.carried carrier.old ≤ 2 ^ 63 }
    ensures walks { IfOk result (λ f. (g : RowGraph) (run : Run) (cuts : List ℕ) → HasBegun g run cuts world → f ≡ walks_in (parted g run cuts)) }
    ensures empty { OnOk result (C.held carrier.new ≡ []) }
    ensures carried { OnOk result ((g : RowGraph) (run : Run) (cuts : List ℕ) → HasBegun g run cuts world
        → C.carried carrier.new ≡ C.carried carrier.old + count_letters (walker_count run.plan.start run.vertices) (letters_in (parted g run cuts))) }
    ensures logged { OnOk result ((g : RowGraph) (run : Run) (cuts : List ℕ) → HasBegun g run cuts world
        → IsLogged (walker_count run.plan.start run.vertices) (letters_in (parted g run cuts)) (C.log carrier.old) (C.log carrier.new)) }
    ensures counted { OnOk result ((g : RowGraph) (run : Run) (cuts : List ℕ) → HasBegun g run cuts world
        → total.new ≡ count_letters (walker_count run.plan.start run.vertices) (letters_in (parted g run cuts))) }
{
    let finished = go_to_the_end(rt, alloc, world, workers, carrier, gate, total)?;
    Ok(finished)
}

/// The walks of shards at the end, with nothing in flight.
fn finish(alloc: Global, shards: Vec<Shard>) -> Result<Finished, Memory>
    requires { All IsSettled shards.items }
    ensures { IfOk result (λ f. (g : RowGraph) (run : Run) (cuts : List ℕ) (carried : ℕ) (log : Option (List Letter))
        → Stands g run cuts (moment shards.items [] [] carried log) → f ≡ walks_in (parted g run cuts)) }
{
    let world = World {
        shards,
        flight: Vec::new(alloc),
    };
    let finished = world.finish(alloc)?;
    Ok(finished)
}

/// Goes on from a sound world to its end, as `run` does. What is in flight is posted first, each item from the sender
/// in its letter.
///
/// # Errors
///
/// `Memory` where there is too little of it; then nothing is known of the carrier.
pub fn go_on<R: Threads + Sync, C: Carrier<Item>, G: Gate + Sync>(
    rt: &R,
    alloc: Global,
    world: World,
    workers: u32,
    carrier: &mut C,
    gate: &G,
) -> Result<Finished, Memory>
    requires sound { IsSomeWorld world }
    requires whole { All (λ s. s.whole ≡ true) world.shards.items }
    requires some { 1 ≤ workers }
    requires most { workers ≤ 16 }
    requires held { C.held carrier.old ≡ [] }
    requires count { C.carried carrier.old ≤ 2 ^ 63 }
    ensures walks { IfOk result (λ f. (g : RowGraph) (run : Run) (cuts : List ℕ) → IsSoundWorld g run cuts world → f ≡ walks_in (parted g run cuts)) }
    ensures empty { OnOk result (C.held carrier.new ≡ []) }
    ensures carried { OnOk result ((g : RowGraph) (run : Run) (cuts : List ℕ) → IsSoundWorld g run cuts world
        → C.carried carrier.new ≡ C.carried carrier.old
        + count_letters (walker_count run.plan.start run.vertices) (to_post (parted g run cuts) (world_pieces (world_data world)))) }
    ensures logged { OnOk result ((g : RowGraph) (run : Run) (cuts : List ℕ) → IsSoundWorld g run cuts world
        → IsLogged (walker_count run.plan.start run.vertices) (to_post (parted g run cuts) (world_pieces (world_data world))) (C.log carrier.old) (C.log carrier.new)) }
{
    let mut total = 0u64;
    let finished = go_to_the_end(rt, alloc, world, workers, carrier, gate, &mut total)?;
    Ok(finished)
}

/// Goes on from a sound world to its end, and says how many items were posted.
fn go_to_the_end<R: Threads + Sync, C: Carrier<Item>, G: Gate + Sync>(
    rt: &R,
    alloc: Global,
    world: World,
    workers: u32,
    carrier: &mut C,
    gate: &G,
    total: &mut u64,
) -> Result<Finished, Memory>
    requires sound { IsSomeWorld world }
    requires whole { All (λ s. s.whole ≡ true) world.shards.items }
    requires some { 1 ≤ workers }
    requires most { workers ≤ 16 }
    requires held { C.held carrier.old ≡ [] }
    requires count { C.carried carrier.old ≤ 2 ^ 63 }
    ensures walks { IfOk result (λ f. (g : RowGraph) (run : Run) (cuts : List ℕ) → IsSoundWorld g run cuts world → f ≡ walks_in (parted g run cuts)) }
    ensures empty { OnOk result (C.held carrier.new ≡ []) }
    ensures carried { OnOk result ((g : RowGraph) (run : Run) (cuts : List ℕ) → IsSoundWorld g run cuts world
        → C.carried carrier.new ≡ C.carried carrier.old
        + count_letters (walker_count run.plan.start run.vertices) (to_post (parted g run cuts) (world_pieces (world_data world)))) }
    ensures logged { OnOk result ((g : RowGraph) (run : Run) (cuts : List ℕ) → IsSoundWorld g run cuts world
        → IsLogged (walker_count run.plan.start run.vertices) (to_post (parted g run cuts) (world_pieces (world_data world))) (C.log carrier.old) (C.log carrier.new)) }
    ensures total { OnOk result (C.carried carrier.new ≡ C.carried carrier.old + total.new) }
{
    let World { shards, flight } = world;
    let mut shards = shards;
    look_up(shards.as_slice());
    let posted = walk_through(rt, alloc, &mut shards, flight, workers, carrier, gate)?;
    *total = posted;
    let finished = finish(alloc, shards)?;
    Ok(finished)
}
