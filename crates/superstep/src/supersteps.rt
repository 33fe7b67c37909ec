//! Supersteps, one after another.

ghost use Rattle.std.specs.Prelude.{◌≡◌, ◌+◌, ◌<◌, ◌++◌, ◌^◌, ◌≤◌, ℕ, true, [], length, All, IfOk, OnOk};
ghost use Rattle.world_law.specs.Items.{letter_of};
ghost use Rattle.shard_core.specs.Items.{item_of};
ghost use Rattle.shard_core.specs.SoundWorlds.{flight_of};
ghost use Rattle.superstep.specs.Boxes.{AreAtHome, IsDue, joined, opened};
ghost use Rattle.superstep.specs.Moments.{IsAddressed, IsGoing, IsSettled, Passes, moment, sent_of};
ghost use Rattle.superstep.specs.Rounding.{AreReached, HavePacked, arrived};

use crate::boxes::{by_addressee, by_sender, empty_boxes, post_all, post_each};
use crate::seats::{part_all, seat_each};
use crate::workers::work_side_by_side;
use shard_core::{Item, Shard};
use std::alloc::Global;
use std::mem;
use std::thread::Threads;
use walk_model::Memory;
use walker_mail::{Addressed, Carrier, Gate, Parcel, count_items};

/// Each shard makes a round, with the parcels that came for it in its box. The shards after it, and the parcels of all
/// that they gave out, in the order of the shards, are the result.
fn make_rounds<R: Threads + Sync, G: Gate + Sync>(
    rt: &R,
    alloc: Global,
    shards: Vec<Shard>,
    boxes: Vec<Vec<Parcel<Item>>>,
    workers: u32,
    gate: &G,
    turn: u64,
) -> Result<(Vec<Shard>, Vec<Parcel<Item>>), Memory>
    requires some { 1 ≤ workers }
    requires whole { All (λ s. s.whole ≡ true) shards.items }
    requires reached { AreReached shards.items (opened boxes.items) }
    ensures made { IfOk result (λ r. HavePacked shards.items (opened boxes.items) r.0.items r.1.items) }
    ensures whole { IfOk result (λ r. All (λ s. s.whole ≡ true) r.0.items) }
{
    let seats = seat_each(alloc, shards, boxes)?;
    let turned = work_side_by_side(rt, alloc, seats, workers, gate, turn)?;
    let parted = part_all(alloc, turned)?;
    Ok(parted)
}

/// A superstep: the workers enter, the shards make their rounds, and what they give out is posted. How many items these
/// are is the result.
fn superstep<R: Threads + Sync, C: Carrier<Item>, G: Gate + Sync>(
    rt: &R,
    alloc: Global,
    shards: &mut Vec<Shard>,
    boxes: Vec<Vec<Parcel<Item>>>,
    workers: u32,
    carrier: &mut C,
    gate: &G,
    turn: u64,
) -> Result<u64, Memory>
    requires workers { 1 ≤ workers }
    requires whole { All (λ s. s.whole ≡ true) shards.old.items }
    requires long { length boxes.items ≡ length shards.old.items }
    requires sorted { AreAtHome (opened boxes.items) }
    requires addressed { All IsAddressed (C.held carrier.old) }
    requires going { IsGoing (moment shards.old.items [] (arrived (joined (opened boxes.items)) ++ sent_of (C.held carrier.old)) (C.carried carrier.old) (C.log carrier.old)) }
    ensures passes { OnOk result (Passes (length (joined (opened boxes.items)))
        (moment shards.old.items [] (arrived (joined (opened boxes.items)) ++ sent_of (C.held carrier.old)) (C.carried carrier.old) (C.log carrier.old))
        (moment shards.new.items [] (sent_of (C.held carrier.new)) (C.carried carrier.new) (C.log carrier.new))) }
    ensures settled { OnOk result (All IsSettled shards.new.items) }
    ensures whole { OnOk result (All (λ s. s.whole ≡ true) shards.new.items) }
    ensures addressed { OnOk result (All IsAddressed (C.held carrier.new)) }
    ensures count { IfOk result (λ n. length (C.held carrier.new) ≡ length (C.held carrier.old) + n) }
    ensures total { IfOk result (λ n. C.carried carrier.new ≡ C.carried carrier.old + n) }
{
    let before = mem::replace(shards, Vec::new(alloc));
    let (after, parcels) = make_rounds(rt, alloc, before, boxes, workers, gate, turn)?;
    *shards = after;
    let count = post_all(parcels, carrier)?;
    Ok(count)
}

/// One hand-over is delivered, and the next superstep is made. How many items are held then is the result. Those that
/// were posted are added to a total.
fn next_superstep<R: Threads + Sync, C: Carrier<Item>, G: Gate + Sync>(
    rt: &R,
    alloc: Global,
    shards: &mut Vec<Shard>,
    afloat: u64,
    workers: u32,
    carrier: &mut C,
    gate: &G,
    turn: u64,
    total: &mut u64,
) -> Result<u64, Memory>
    requires workers { 1 ≤ workers }
    requires whole { All (λ s. s.whole ≡ true) shards.old.items }
    requires addressed { All IsAddressed (C.held carrier.old) }
    requires going { IsGoing (moment shards.old.items [] (sent_of (C.held carrier.old)) (C.carried carrier.old) (C.log carrier.old)) }
    requires afloat { afloat ≡ length (C.held carrier.old) }
    requires some { 0 < afloat }
    requires total { total.old ≤ C.carried carrier.old }
    ensures passes { OnOk result (Passes 1
        (moment shards.old.items [] (sent_of (C.held carrier.old)) (C.carried carrier.old) (C.log carrier.old))
        (moment shards.new.items [] (sent_of (C.held carrier.new)) (C.carried carrier.new) (C.log carrier.new))) }
    ensures settled { OnOk result (All IsSettled shards.new.items) }
    ensures whole { OnOk result (All (λ s. s.whole ≡ true) shards.new.items) }
    ensures addressed { OnOk result (All IsAddressed (C.held carrier.new)) }
    ensures afloat { IfOk result (λ n. n ≡ length (C.held carrier.new)) }
    ensures total { OnOk result (total.new + C.carried carrier.old ≡ total.old + C.carried carrier.new) }
{
    let parcels = carrier.hand_over(alloc)?;
    let handed = count_items(&parcels);
    let boxes = by_addressee(alloc, parcels, shards.len())?;
    let posted = superstep(rt, alloc, shards, boxes, workers, carrier, gate, turn)?;
    *total += posted;
    Ok(afloat - handed + posted)
}

/// Posts what is in flight, each item from its sender, and makes the first superstep. How many items are held then is
/// the result; all of them were posted here.
pub(crate) fn set_out<R: Threads + Sync, C: Carrier<Item>, G: Gate + Sync>(
    rt: &R,
    alloc: Global,
    shards: &mut Vec<Shard>,
    flight: Vec<Addressed<Item>>,
    workers: u32,
    carrier: &mut C,
    gate: &G,
) -> Result<u64, Memory>
    requires workers { 1 ≤ workers }
    requires few { length shards.old.items ≤ 256 }
    requires whole { All (λ s. s.whole ≡ true) shards.old.items }
    requires due { All IsDue flight.items }
    requires from { All (λ a. (letter_of (item_of a.item)).from < length shards.old.items) flight.items }
    requires held { C.held carrier.old ≡ [] }
    requires going { IsGoing (moment shards.old.items (flight_of flight.items) [] (C.carried carrier.old) (C.log carrier.old)) }
    ensures passes { OnOk result (Passes 0
        (moment shards.old.items (flight_of flight.items) [] (C.carried carrier.old) (C.log carrier.old))
        (moment shards.new.items [] (sent_of (C.held carrier.new)) (C.carried carrier.new) (C.log carrier.new))) }
    ensures settled { OnOk result (All IsSettled shards.new.items) }
    ensures whole { OnOk result (All (λ s. s.whole ≡ true) shards.new.items) }
    ensures addressed { OnOk result (All IsAddressed (C.held carrier.new)) }
    ensures afloat { IfOk result (λ n. n ≡ length (C.held carrier.new)) }
    ensures total { IfOk result (λ n. C.carried carrier.new ≡ C.carried carrier.old + n) }
{
    let parts = shards.len();
    let boxes = by_sender(alloc, flight, parts)?;
    let posted = post_each(alloc, boxes, carrier)?;
    let none = empty_boxes(alloc, parts)?;
    let more = superstep(rt, alloc, shards, none, workers, carrier, gate, 1)?;
    Ok(posted + more)
}

/// Delivers and makes supersteps until nothing is held. Items that are posted are added to a total.
fn go_through<R: Threads + Sync, C: Carrier<Item>, G: Gate + Sync>(
    rt: &R,
    alloc: Global,
    shards: &mut Vec<Shard>,
    afloat: u64,
    workers: u32,
    carrier: &mut C,
    gate: &G,
    total: &mut u64,
) -> Result<(), Memory>
    requires workers { 1 ≤ workers }
    requires whole { All (λ s. s.whole ≡ true) shards.old.items }
    requires settled { All IsSettled shards.old.items }
    requires addressed { All IsAddressed (C.held carrier.old) }
    requires going { IsGoing (moment shards.old.items [] (sent_of (C.held carrier.old)) (C.carried carrier.old) (C.log carrier.old)) }
    requires afloat { afloat ≡ length (C.held carrier.old) }
    requires total { total.old ≤ C.carried carrier.old }
    ensures passes { OnOk result ((n : ℕ) × Passes n
        (moment shards.old.items [] (sent_of (C.held carrier.old)) (C.carried carrier.old) (C.log carrier.old))
        (moment shards.new.items [] (sent_of (C.held carrier.new)) (C.carried carrier.new) (C.log carrier.new))) }
    ensures settled { OnOk result (All IsSettled shards.new.items) }
    ensures held { OnOk result (C.held carrier.new ≡ []) }
    ensures total { OnOk result (total.new + C.carried carrier.old ≡ total.old + C.carried carrier.new) }
{
    let mut afloat = afloat;
    let mut deliveries = 0u64;
    'delivering: while afloat > 0 {
        afloat = next_superstep(
            rt,
            alloc,
            shards,
            afloat,
            workers,
            carrier,
            gate,
            deliveries + 2,
            total,
        )?;
        deliveries += 1;
    }
    Ok(())
}

/// Posts what is in flight, and makes supersteps until nothing is held. How many items were posted is the result.
pub(crate) fn walk_through<R: Threads + Sync, C: Carrier<Item>, G: Gate + Sync>(
    rt: &R,
    alloc: Global,
    shards: &mut Vec<Shard>,
    flight: Vec<Addressed<Item>>,
    workers: u32,
    carrier: &mut C,
    gate: &G,
) -> Result<u64, Memory>
    requires workers { 1 ≤ workers }
    requires few { length shards.old.items ≤ 256 }
    requires whole { All (λ s. s.whole ≡ true) shards.old.items }
    requires due { All IsDue flight.items }
    requires from { All (λ a. (letter_of (item_of a.item)).from < length shards.old.items) flight.items }
    requires held { C.held carrier.old ≡ [] }
    requires going { IsGoing (moment shards.old.items (flight_of flight.items) [] (C.carried carrier.old) (C.log carrier.old)) }
    ensures passes { OnOk result ((n : ℕ) × Passes n
        (moment shards.old.items (flight_of flight.items) [] (C.carried carrier.old) (C.log carrier.old))
        (moment shards.new.items [] [] (C.carried carrier.new) (C.log carrier.new))) }
    ensures settled { OnOk result (All IsSettled shards.new.items) }
    ensures held { OnOk result (C.held carrier.new ≡ []) }
    ensures total { IfOk result (λ n. C.carried carrier.new ≡ C.carried carrier.old + n) }
{
    let afloat = set_out(rt, alloc, shards, flight, workers, carrier, gate)?;
    let mut total = afloat;
    go_through(
        rt, alloc, shards, afloat, workers, carrier, gate, &mut total,
    )?;
    Ok(total)
}
