//! Shards with what arrives there or leaves them, and their rounds.

ghost use Rattle.std.specs.Prelude.{◌≡◌, true, length, map, All, IfOk, OnOk};
ghost use Rattle.std.specs.List.{flat_map};
ghost use Rattle.walker_mail.specs.Posts.{all_items};
ghost use Rattle.superstep.specs.Boxes.{items_in};
ghost use Rattle.superstep.specs.Rounding.{HasTurned, IsReady, Reaches, RoundIs};

use shard_core::{Item, Shard};
use std::alloc::Global;
use walk_model::Memory;
use walker_mail::{Addressed, Parcel, pack};

/// The most items of a parcel.
pub(crate) const PARCEL: u32 = 256;

/// A shard with parcels: before its round those that arrive there, and after it those that leave.
#[derive(Drop)]
pub(crate) struct Seat {
    pub shard: Shard,
    pub parcels: Vec<Parcel<Item>>,
}

/// The items of parcels, one after another.
fn unpack(alloc: Global, parcels: Vec<Parcel<Item>>) -> Result<Vec<Item>, Memory>
    ensures { IfOk result (λ is. is.items ≡ items_in (all_items parcels.items)) }
{
    let mut items = Vec::new(alloc);
    'unpacking: for parcel in parcels {
        let Parcel { items: own, .. } = parcel;
        let mut own = own;
        items.append(&mut own)?;
    }
    Ok(items)
}

/// A shard's round. The shard's run suits its part, so it takes in what goes there and fits among the parts.
fn round_of_shard(
    alloc: Global,
    shard: &mut Shard,
    arrivals: Vec<Item>,
) -> Result<Vec<Addressed<Item>>, Memory>
    requires whole { shard.old.whole ≡ true }
    requires reached { All (Reaches shard.old) arrivals.items }
    ensures made { IfOk result (λ out. RoundIs shard.old arrivals.items shard.new out.items) }
    ensures whole { OnOk result (shard.new.whole ≡ true) }
{
    let _run = shard.run();
    let out = shard.round(alloc, arrivals)?;
    Ok(out)
}

/// Unpacks the parcels that came for a shard, makes its round, and packs what it gives out.
pub(crate) fn take_turn(alloc: Global, seat: Seat) -> Result<Seat, Memory>
    requires { IsReady seat }
    ensures { IfOk result (λ after. HasTurned seat after) }
{
    let Seat { shard, parcels } = seat;
    let mut shard = shard;
    let arrivals = unpack(alloc, parcels)?;
    let out = round_of_shard(alloc, &mut shard, arrivals)?;
    let parcels = pack(alloc, shard.part(), out, PARCEL)?;
    Ok(Seat { shard, parcels })
}

/// Each shard with the parcels in the box of its number.
pub(crate) fn seat_each(
    alloc: Global,
    shards: Vec<Shard>,
    boxes: Vec<Vec<Parcel<Item>>>,
) -> Result<Vec<Seat>, Memory>
    requires { length boxes.items ≡ length shards.items }
    ensures shards { IfOk result (λ ss. map (λ s. s.shard) ss.items ≡ shards.items) }
    ensures parcels { IfOk result (λ ss. map (λ s. s.parcels) ss.items ≡ boxes.items) }
{
    let mut seats = Vec::with_capacity(alloc, shards.len())?;
    'seating: for (shard, parcels) in shards.into_iter().zip(boxes) {
        seats.push(Seat { shard, parcels })?;
    }
    Ok(seats)
}

/// The shards by themselves, and all their parcels.
pub(crate) fn part_all(
    alloc: Global,
    seats: Vec<Seat>,
) -> Result<(Vec<Shard>, Vec<Parcel<Item>>), Memory>
    ensures shards { IfOk result (λ r. r.0.items ≡ map (λ s. s.shard) seats.items) }
    ensures parcels { IfOk result (λ r. r.1.items ≡ flat_map (λ s. s.parcels.items) seats.items) }
{
    let mut shards = Vec::with_capacity(alloc, seats.len())?;
    let mut parcels = Vec::new(alloc);
    'parting: for seat in seats {
        let Seat {
            shard,
            parcels: own,
        } = seat;
        let mut own = own;
        shards.push(shard)?;
        parcels.append(&mut own)?;
    }
    Ok((shards, parcels))
}
