//! The carrier that hands over one item at a time, from a place that goes by a seed.

ghost use Rattle.std.specs.Prelude.{◌≡◌, ◌+◌, ◌^◌, ◌%◌, ◌<◌, [], ◌∷◌, ◌++◌, length, slice_get, option_to_list, remove, IfOk, OnOk};
ghost use Rattle.walker_mail.specs.Carriers.{place_by};
ghost use Rattle.std.specs.List.Sorted.{IsPermutation};
ghost use Rattle.walker_mail.specs.Posts.{all_items};

use crate::carriers::Carrier;
use crate::mail::Mail;
use crate::parcels::{Parcel, Posted};
use crate::unpacking::{count_items, single, unpack_all};
use std::alloc::Global;
use std::collections::VecDeque;
use std::marker::Model;
use walk_model::Memory;

/// How far the place goes on with each hand-over: the multiplier of Knuth's linear congruential generator.
const STRIDE: u64 = 6_364_136_223_846_793_005;

/// A carrier that hands over one of its items, in a parcel of its own: with `m` items, the oldest first, the one at the
/// place `(seed + turns * 6364136223846793005) mod 2^64 mod m`, where `turns` is how often it has handed over an item.
/// A hand-over shifts the items on the shorter side of that place.
#[derive(Debug, Drop)]
pub struct Shuffled<I> {
    items: VecDeque<Posted<I>>,
    carried: u64,
    seed: u64,
    turns: u64,
}

impl<I> Model for Shuffled<I> {
    ghost use Rattle.walker_mail.specs.Carriers.{Shuffle};

    ghost Value = { Shuffle I };

    ghost view = { λ c. record { held = c.items.items; carried = c.carried; seed = c.seed; turns = c.turns } };
}

/// The place of the next item among so many.
fn next_place(seed: u64, turns: u64, count: usize) -> usize
    requires { 0 < count }
    ensures place { result ≡ place_by seed turns count }
    ensures within { result < count }
{
    let sum = seed as u128 + turns as u128 * STRIDE as u128;
    let word = (sum % (1 << 64)) as u64;
    (word % count as u64) as usize
}

impl<I> Shuffled<I> {
    /// A carrier that holds nothing. It takes no memory.
    pub fn new(alloc: Global, seed: u64) -> Shuffled<I>
        ensures held { result.held ≡ [] }
        ensures count { result.carried ≡ 0 }
        ensures seed { result.seed ≡ seed }
        ensures turns { result.turns ≡ 0 }
    {
        Shuffled {
            items: VecDeque::new(alloc),
            carried: 0,
            seed,
            turns: 0,
        }
    }
}

impl<I: Mail> Carrier<I> for Shuffled<I> {
    ghost use Rattle.std.specs.Prelude.{None};

    ghost held = { λ c. c.held };

    ghost carried = { λ c. c.carried };

    ghost log = { λ _. None };

    fn post(&mut self, parcels: Vec<Parcel<I>>) -> Result<(), Memory>
        requires { self.old.carried + length (all_items parcels.items) < 2 ^ 64 }
        ensures behind { OnOk result (self.new.held ≡ self.old.held ++ all_items parcels.items) }
        ensures counted { OnOk result (self.new.carried ≡ self.old.carried + length (all_items parcels.items)) }
        ensures stays { OnOk result ((self.new.seed ≡ self.old.seed) × (self.new.turns ≡ self.old.turns)) }
    {
        let count = count_items(&parcels);
        unpack_all(&mut self.items, parcels)?;
        self.carried += count;
        Ok(())
    }

    fn hand_over(&mut self, alloc: Global) -> Result<Vec<Parcel<I>>, Memory>
        // What each carrier promises.
        ensures rearranged { IfOk result (λ ps. IsPermutation self.old.held (all_items ps.items ++ self.new.held)) }
        ensures some { IfOk result (λ ps. 0 < length self.old.held → 0 < length (all_items ps.items)) }

        // With items held, it gives the one at its place.
        ensures one { IfOk result (λ ps. all_items ps.items ≡ option_to_list (slice_get self.old.held (place_by self.old.seed self.old.turns (length self.old.held)))) }
        ensures rest { OnOk result (0 < length self.old.held → self.new.held ≡ remove self.old.held (place_by self.old.seed self.old.turns (length self.old.held))) }
        ensures turn { OnOk result (0 < length self.old.held → self.new.turns ≡ (self.old.turns + 1) % 2 ^ 64) }

        // With none, nothing changes.
        ensures none { length self.old.held ≡ 0 → self.new ≡ self.old }
        ensures stays { OnOk result ((self.new.seed ≡ self.old.seed) × (self.new.carried ≡ self.old.carried)) }
    {
        if self.items.is_empty() {
            return Ok(Vec::new(alloc));
        }
        let place = next_place(self.seed, self.turns, self.items.len());
        self.turns = self.turns.wrapping_add(1);
        match self.items.remove(place) {
            Some(item) => {
                let given = single(alloc, item)?;
                Ok(given)
            }
            // the place is within
            None => unreachable!(),
        }
    }
}
