//! Items packed into parcels.

ghost use Rattle.std.specs.Prelude.{◌≡◌, ◌≤◌, [], ◌∷◌, ◌++◌, ℕ, List, IfOk, OnOk};
ghost use Rattle.std.specs.List.Sorted.{IsPermutation};
ghost use Rattle.walker_mail.specs.declared.parcels.Addressed.{Addressed};
ghost use Rattle.walker_mail.specs.Packing.{IsPacked, IsPacking};
ghost use Rattle.walker_mail.specs.Posts.{all_items, sent_from};

use crate::parcels::{Addressed, Parcel};
use std::alloc::Global;
use std::mem;
use walk_model::Memory;

/// What was packed so far: the parcels that are full, and the last one of each addressee, by rising addressee.
#[derive(Drop)]
struct Packing<I> {
    full: Vec<Parcel<I>>,
    last: Vec<Parcel<I>>,
}

/// The most items for which a parcel has room from the beginning where the one before it is full.
const ROOM: usize = 256;

/// A parcel with its first item, and room for so many.
fn begun<I: Drop>(
    alloc: Global,
    from: u32,
    to: u32,
    item: I,
    room: usize,
) -> Result<Parcel<I>, Memory>
    ensures from { IfOk result (λ p. p.from ≡ from) }
    ensures to { IfOk result (λ p. p.to ≡ to) }
    ensures items { IfOk result (λ p. p.items.items ≡ item ∷ []) }
{
    let mut items = Vec::with_capacity(alloc, room)?;
    items.push(item)?;
    Ok(Parcel { from, to, items })
}

impl<I: Drop> Packing<I> {
    /// Puts an item into the last parcel of its addressee, or into a new one where that is full.
    fn add(
        &mut self,
        alloc: Global,
        from: u32,
        addressed: Addressed<I>,
        limit: u32,
    ) -> Result<(), Memory>
        requires { 1 ≤ limit }
        ensures { OnOk result ((xs : List (Addressed I)) → IsPacking from limit xs self.old.full.items self.old.last.items → IsPacking from limit (xs ++ addressed ∷ []) self.new.full.items self.new.last.items) }
    {
        let Addressed { to, item } = addressed;
        let place = self.last.partition_point(|p| p.to < to);
        if place == self.last.len() || self.last[place].to != to {
            let parcel = begun(alloc, from, to, item, 1)?;
            self.last.insert(place, parcel)?;
            return Ok(());
        }
        if self.last[place].items.len() < limit as usize {
            self.last[place].items.push(item)?;
            return Ok(());
        }
        let room = ROOM.min(limit as usize);
        let parcel = begun(alloc, from, to, item, room)?;
        let filled = mem::replace(&mut self.last[place], parcel);
        self.full.push(filled)?;
        Ok(())
    }

    /// All parcels, by rising addressee.
    fn finish(self) -> Result<Vec<Parcel<I>>, Memory>
        ensures packed { IfOk result (λ ps. (from limit : ℕ) (xs : List (Addressed I)) → IsPacking from limit xs self.full.items self.last.items → IsPacked from limit xs ps.items) }
        ensures all { IfOk result (λ ps. (from limit : ℕ) (xs : List (Addressed I)) → IsPacking from limit xs self.full.items self.last.items → IsPermutation (sent_from from xs) (all_items ps.items)) }
    {
        let Packing { full, last } = self;
        let mut parcels = full;
        let mut last = last;
        parcels.append(&mut last)?;
        // stable, so that the parcels of one addressee keep their order
        parcels.sort_by_key(|p| p.to)?;
        Ok(parcels)
    }
}

/// Puts all items into the parcels of their addressees.
fn add_all<I: Drop>(
    alloc: Global,
    from: u32,
    items: Vec<Addressed<I>>,
    limit: u32,
) -> Result<Packing<I>, Memory>
    requires { 1 ≤ limit }
    ensures { IfOk result (λ p. IsPacking from limit items.items p.full.items p.last.items) }
{
    let mut packing = Packing {
        full: Vec::new(alloc),
        last: Vec::new(alloc),
    };
    for addressed in items {
        packing.add(alloc, from, addressed, limit)?;
    }
    Ok(packing)
}

/// Packs the items of one sender: parcels by rising addressee, the items of one addressee in their order, at most
/// `limit` in a parcel, and as many in each but the last. No parcel is empty, and no item is copied.
///
/// # Errors
///
/// `Memory` where there is none; then the items are gone.
pub fn pack<I: Drop>(
    alloc: Global,
    from: u32,
    items: Vec<Addressed<I>>,
    limit: u32,
) -> Result<Vec<Parcel<I>>, Memory>
    requires { 1 ≤ limit }
    ensures packed { IfOk result (λ ps. IsPacked from limit items.items ps.items) }
    ensures all { IfOk result (λ ps. IsPermutation (sent_from from items.items) (all_items ps.items)) }
{
    let packing = add_all(alloc, from, items, limit)?;
    let parcels = packing.finish()?;
    Ok(parcels)
}
