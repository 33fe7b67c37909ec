//! Worlds that are gone on from, and items that are counted.

ghost use Rattle.std.specs.Prelude.{◌≡◌, ◌≤◌, ◌++◌, map, true, All, IfOk, OnOk};
ghost use Rattle.walker_mail.specs.Posts.{all_items, items_of};
ghost use Rattle.shard_core.specs.SoundWorlds.{IsSomeWorld};
ghost use Rattle.superstep.specs.Boxes.{addressed_of};

use crate::limits::look_up;
use crate::running::{go_on, run_counted};
use crate::supersteps::{set_out, walk_through};
use crate::worker_tests::{begun, expect_round, plan_of};
use shard_core::{Item, Shard, World};
use std::alloc::Global;
use std::test::Fail;
use std::thread::Threads;
use walk_model::{Memory, Print, Rule};
use walker_mail::{Addressed, Carrier, InOrder, NoGate, Parcel, Recording};

/// Adds the items of a parcel to what is in flight.
fn unpack(flight: &mut Vec<Addressed<Item>>, parcel: Parcel<Item>) -> Result<(), Memory>
    ensures { OnOk result (flight.new.items ≡ flight.old.items ++ map addressed_of (items_of parcel)) }
{
    let Parcel { from: _, to, items } = parcel;
    'unpacking: for item in items {
        flight.push(Addressed { to, item })?;
    }
    Ok(())
}

/// The items of parcels, in flight.
fn in_flight(alloc: Global, parcels: Vec<Parcel<Item>>) -> Result<Vec<Addressed<Item>>, Memory>
    ensures { IfOk result (λ flight. flight.items ≡ map addressed_of (all_items parcels.items)) }
{
    let mut flight = Vec::new(alloc);
    'flying: for parcel in parcels {
        unpack(&mut flight, parcel)?;
    }
    Ok(flight)
}

/// A world after its first superstep, with what was posted in flight.
fn one_superstep_later<R: Threads + Sync>(
    rt: &R,
    alloc: Global,
    world: World,
) -> Result<World, Memory>
    requires sound { IsSomeWorld world }
    requires whole { All (λ s. s.whole ≡ true) world.shards.items }
    ensures sound { IfOk result IsSomeWorld }
    ensures whole { IfOk result (λ w. All (λ s. s.whole ≡ true) w.shards.items) }
{
    let World { shards, flight } = world;
    let mut shards = shards;
    look_up(shards.as_slice());
    let mut carrier: InOrder<Item> = InOrder::new(alloc);
    let _afloat = set_out(rt, alloc, &mut shards, flight, 1, &mut carrier, &NoGate)?;
    let parcels = carrier.hand_over(alloc)?;
    let flight = in_flight(alloc, parcels)?;
    Ok(World { shards, flight })
}

/// The shards of a world after its last superstep.
fn shards_at_the_end<R: Threads + Sync>(
    rt: &R,
    alloc: Global,
    world: World,
    workers: u32,
) -> Result<Vec<Shard>, Memory>
    requires sound { IsSomeWorld world }
    requires whole { All (λ s. s.whole ≡ true) world.shards.items }
    requires some { 1 ≤ workers }
{
    let World { shards, flight } = world;
    let mut shards = shards;
    look_up(shards.as_slice());
    let mut carrier: InOrder<Item> = InOrder::new(alloc);
    let _posted = walk_through(
        rt,
        alloc,
        &mut shards,
        flight,
        workers,
        &mut carrier,
        &NoGate,
    )?;
    Ok(shards)
}

/// Each step leaves its print in the part that made it: four in each of three parts, round which three walkers go once.
#[test]
fn prints_stay_where_steps_are_made(rt: HostRuntime) -> Result<(), Fail> {
    let alloc = rt.alloc();
    for workers in [1, 2] {
        let world = begun(&rt, &[2, 2, 2], 3, plan_of(3, 32, Rule::Plain))?;
        let shards = shards_at_the_end(&rt, alloc, world, workers)?;
        assert_eq!(rt; shards.len(), 3);
        for (k, shard) in shards.iter().enumerate() {
            assert_eq!(rt; shard.print_count(), 4);
            for (walker, step, at) in [(0, 0, 0), (0, 1, 1), (2, 2, 1), (1, 3, 1)] {
                let want = Print {
                    walker: (walker + k as u64) % 3,
                    step,
                    at: (at + k as u32) % 3,
                };
                let found = (0..4u64).any(|j| shard.print(j) == want);
                assert!(rt; found, "step {step} in part {k} by {workers} workers");
            }
        }
    }
    Ok(())
}

/// Three walkers that are on their way to the next of three parts come to the same walks as from the beginning.
#[test]
fn a_world_in_flight_is_gone_on_from(rt: HostRuntime) -> Result<(), Fail> {
    let alloc = rt.alloc();
    let world = begun(&rt, &[2, 2, 2], 3, plan_of(3, 32, Rule::Plain))?;
    let world = one_superstep_later(&rt, alloc, world)?;
    assert_eq!(rt; world.flight.len(), 3);
    let mut carrier: InOrder<Item> = InOrder::new(alloc);
    let walks = go_on(&rt, alloc, world, 2, &mut carrier, &NoGate)?;
    expect_round(&rt, &walks, 3, 3);
    Ok(())
}

/// As many items are counted as letters are told. Each of three walkers goes round three vertices in two parts, and so
/// from part to part twice.
#[test]
fn as_many_items_as_letters(rt: HostRuntime) -> Result<(), Fail> {
    let alloc = rt.alloc();
    let world = begun(&rt, &[2, 2, 2], 2, plan_of(3, 32, Rule::Plain))?;
    let mut carrier: Recording<Item, InOrder<Item>> = Recording::new(alloc, InOrder::new(alloc));
    let mut total = 1u64;
    let walks = run_counted(&rt, alloc, world, 2, &mut carrier, &NoGate, &mut total)?;
    expect_round(&rt, &walks, 3, 3);
    assert_eq!(rt; carrier.letters().len(), 6);
    assert_eq!(rt; total, 6);
    Ok(())
}
