//! Parcels taken apart, counted, and made of one item.

ghost use Rattle.std.specs.Prelude.{◌≡◌, ◌^◌, ◌<◌, [], ◌∷◌, ◌++◌, length, IfOk, OnOk};
ghost use Rattle.walker_mail.specs.Posts.{items_of, all_items};

use crate::parcels::{Parcel, Posted};
use std::alloc::Global;
use std::collections::VecDeque;
use walk_model::Memory;

/// Adds the items of a parcel behind those that are kept.
fn unpack<I: Drop>(kept: &mut VecDeque<Posted<I>>, parcel: Parcel<I>) -> Result<(), Memory>
    ensures { OnOk result (kept.new.items ≡ kept.old.items ++ items_of parcel) }
{
    let Parcel { from, to, items } = parcel;
    for item in items {
        kept.push_back(Posted { from, to, item })?;
    }
    Ok(())
}

/// Adds the items of parcels, in order, behind those that are kept.
pub(crate) fn unpack_all<I: Drop>(
    kept: &mut VecDeque<Posted<I>>,
    parcels: Vec<Parcel<I>>,
) -> Result<(), Memory>
    ensures { OnOk result (kept.new.items ≡ kept.old.items ++ all_items parcels.items) }
{
    for parcel in parcels {
        unpack(kept, parcel)?;
    }
    Ok(())
}

#[tactic(auto, using(crate::proofs::PostLemmas::length_more))]
/// How many items parcels have.
pub fn count_items<I>(parcels: &[Parcel<I>]) -> u64
    requires { length (all_items parcels.now) < 2 ^ 64 }
    ensures { result ≡ length (all_items parcels.now) }
{
    let mut count = 0;
    for parcel in parcels {
        count += parcel.items.len() as u64;
    }
    count
}

/// One parcel with one item.
pub(crate) fn single<I: Drop>(alloc: Global, posted: Posted<I>) -> Result<Vec<Parcel<I>>, Memory>
    ensures { IfOk result (λ ps. all_items ps.items ≡ posted ∷ []) }
{
    let Posted { from, to, item } = posted;
    let mut items = Vec::with_capacity(alloc, 1)?;
    items.push(item)?;
    let mut parcels = Vec::with_capacity(alloc, 1)?;
    parcels.push(Parcel { from, to, items })?;
    Ok(parcels)
}
