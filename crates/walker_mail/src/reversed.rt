//! The carrier that hands over all, newest first.

ghost use Rattle.std.specs.Prelude.{◌≡◌, ◌+◌, ◌^◌, ◌<◌, [], ◌++◌, length, reverse, IfOk, OnOk};
ghost use Rattle.std.specs.List.Sorted.{IsPermutation};
ghost use Rattle.walker_mail.specs.Posts.{all_items};

use crate::carriers::Carrier;
use crate::mail::Mail;
use crate::parcels::Parcel;
use crate::unpacking::count_items;
use std::alloc::Global;
use std::marker::Model;
use std::mem;
use walk_model::Memory;

/// A carrier that hands over all items that it holds, the newest first, in the parcels in which they were posted. A
/// hand-over exchanges the items of each parcel in place.
#[derive(Debug, Drop)]
pub struct Reversed<I> {
    parcels: Vec<Parcel<I>>,
    carried: u64,
}

impl<I> Model for Reversed<I> {
    ghost use Rattle.walker_mail.specs.Carriers.{Bag};
    ghost use Rattle.walker_mail.specs.Posts.{all_items};

    ghost Value = { Bag I };

    ghost view = { λ c. record { held = all_items c.parcels.items; carried = c.carried } };
}

/// Turns the order of parcels round, and that of the items in each.
fn turn_round<I>(parcels: &mut [Parcel<I>])
    ensures { all_items parcels.new ≡ reverse (all_items parcels.old) }
{
    for parcel in parcels.iter_mut() {
        parcel.items.reverse();
    }
    parcels.reverse();
}

/// Parcels in reverse, with their items in reverse.
fn turned_round<I>(parcels: Vec<Parcel<I>>) -> Vec<Parcel<I>>
    ensures all { all_items result.items ≡ reverse (all_items parcels.items) }
    ensures moved { IsPermutation (all_items parcels.items) (all_items result.items) }
{
    let mut parcels = parcels;
    turn_round(parcels.as_mut_slice());
    parcels
}

impl<I> Reversed<I> {
    /// A carrier that holds nothing. It takes no memory.
    pub fn new(alloc: Global) -> Reversed<I>
        ensures held { result.held ≡ [] }
        ensures count { result.carried ≡ 0 }
    {
        Reversed {
            parcels: Vec::new(alloc),
            carried: 0,
        }
    }
}

impl<I: Mail> Carrier<I> for Reversed<I> {
    ghost use Rattle.std.specs.Prelude.{None};

    ghost held = { λ c. c.held };

    ghost carried = { λ c. c.carried };

    ghost log = { λ _. None };

    fn post(&mut self, parcels: Vec<Parcel<I>>) -> Result<(), Memory>
        requires { self.old.carried + length (all_items parcels.items) < 2 ^ 64 }
        ensures behind { OnOk result (self.new.held ≡ self.old.held ++ all_items parcels.items) }
        ensures counted { OnOk result (self.new.carried ≡ self.old.carried + length (all_items parcels.items)) }
    {
        let count = count_items(&parcels);
        let mut parcels = parcels;
        self.parcels.append(&mut parcels)?;
        self.carried += count;
        Ok(())
    }

    fn hand_over(&mut self, alloc: Global) -> Result<Vec<Parcel<I>>, Memory>
        // What each carrier promises.
        ensures rearranged { IfOk result (λ ps. IsPermutation self.old.held (all_items ps.items ++ self.new.held)) }
        ensures some { IfOk result (λ ps. 0 < length self.old.held → 0 < length (all_items ps.items)) }

        ensures all { IfOk result (λ ps. all_items ps.items ≡ reverse self.old.held) }
        ensures none { OnOk result (self.new.held ≡ []) }
        ensures count { OnOk result (self.new.carried ≡ self.old.carried) }
    {
        let parcels = mem::replace(&mut self.parcels, Vec::new(alloc));
        Ok(turned_round(parcels))
    }
}
