//! The carrier that hands over all, oldest first.

ghost use Rattle.std.specs.Prelude.{◌≡◌, ◌+◌, ◌^◌, ◌<◌, [], ◌++◌, length, IfOk, OnOk};
ghost use Rattle.walker_mail.specs.Posts.{all_items};

use crate::carriers::Carrier;
use crate::mail::Mail;
use crate::parcels::Parcel;
use crate::unpacking::count_items;
use std::alloc::Global;
use std::marker::Model;
use std::mem;
use walk_model::Memory;

/// A carrier that hands over all items that it holds, the oldest first, in the parcels in which they were posted. It
/// moves parcels and touches no item.
#[derive(Debug, Drop)]
pub struct InOrder<I> {
    parcels: Vec<Parcel<I>>,
    carried: u64,
}

impl<I> Model for InOrder<I> {
    ghost use Rattle.walker_mail.specs.Carriers.{Bag};
    ghost use Rattle.walker_mail.specs.Posts.{all_items};

    ghost Value = { Bag I };

    ghost view = { λ c. record { held = all_items c.parcels.items; carried = c.carried } };
}

impl<I> InOrder<I> {
    /// A carrier that holds nothing. It takes no memory.
    pub fn new(alloc: Global) -> InOrder<I>
        ensures held { result.held ≡ [] }
        ensures count { result.carried ≡ 0 }
    {
        InOrder {
            parcels: Vec::new(alloc),
            carried: 0,
        }
    }
}

impl<I: Mail> Carrier<I> for InOrder<I> {
    ghost use Rattle.std.specs.Prelude.{None};

    ghost held = { λ c. c.held };

    ghost carried = { λ c. c.carried };

    ghost log = { λ _. None };

    fn post(&mut self, parcels: Vec<Parcel<I>>) -> Result<(), Memory>
        requires { self.old.carried + length (all_items parcels.items) < 2 ^ 64 }
        ensures behind { OnOk result (self.new.held ≡ self.old.held ++ all_items parcels.items) }
        ensures counted { OnOk result (self.new.carried ≡ self.old.carried + length (all_items parcels.items)) }
    {
        let count = count_items(&parcels);
        let mut parcels = parcels;
        self.parcels.append(&mut parcels)?;
        self.carried += count;
        Ok(())
    }

    fn hand_over(&mut self, alloc: Global) -> Result<Vec<Parcel<I>>, Memory>
        ensures all { IfOk result (λ ps. all_items ps.items ≡ self.old.held) }
        ensures none { OnOk result (self.new.held ≡ []) }
        ensures count { OnOk result (self.new.carried ≡ self.old.carried) }
    {
        Ok(mem::replace(&mut self.parcels, Vec::new(alloc)))
    }
}
