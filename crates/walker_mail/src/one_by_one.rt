//! The carrier that hands over one item at a time.

ghost use Rattle.std.specs.Prelude.{◌≡◌, ◌+◌, ◌^◌, ◌<◌, [], ◌++◌, length, take, drop, IfOk, OnOk};
ghost use Rattle.walker_mail.specs.Posts.{all_items};

use crate::carriers::Carrier;
use crate::mail::Mail;
use crate::parcels::{Parcel, Posted};
use crate::unpacking::{count_items, single, unpack_all};
use std::alloc::Global;
use std::collections::VecDeque;
use std::marker::Model;
use walk_model::Memory;

/// A carrier that hands over the oldest item that it holds, in a parcel of its own. Each item is moved once when it is
/// posted and once when it is handed over.
#[derive(Debug, Drop)]
pub struct OneByOne<I> {
    items: VecDeque<Posted<I>>,
    carried: u64,
}

impl<I> Model for OneByOne<I> {
    ghost use Rattle.walker_mail.specs.Carriers.{Bag};

    ghost Value = { Bag I };

    ghost view = { λ c. record { held = c.items.items; carried = c.carried } };
}

impl<I> OneByOne<I> {
    /// A carrier that holds nothing. It takes no memory.
    pub fn new(alloc: Global) -> OneByOne<I>
        ensures held { result.held ≡ [] }
        ensures count { result.carried ≡ 0 }
    {
        OneByOne {
            items: VecDeque::new(alloc),
            carried: 0,
        }
    }
}

impl<I: Mail> Carrier<I> for OneByOne<I> {
    ghost use Rattle.std.specs.Prelude.{None};

    ghost held = { λ c. c.held };

    ghost carried = { λ c. c.carried };

    ghost log = { λ _. None };

    fn post(&mut self, parcels: Vec<Parcel<I>>) -> Result<(), Memory>
        requires { self.old.carried + length (all_items parcels.items) < 2 ^ 64 }
        ensures behind { OnOk result (self.new.held ≡ self.old.held ++ all_items parcels.items) }
        ensures counted { OnOk result (self.new.carried ≡ self.old.carried + length (all_items parcels.items)) }
    {
        let count = count_items(&parcels);
        unpack_all(&mut self.items, parcels)?;
        self.carried += count;
        Ok(())
    }

    fn hand_over(&mut self, alloc: Global) -> Result<Vec<Parcel<I>>, Memory>
        ensures oldest { IfOk result (λ ps. all_items ps.items ≡ take 1 self.old.held) }
        ensures rest { OnOk result (self.new.held ≡ drop 1 self.old.held) }
        ensures count { OnOk result (self.new.carried ≡ self.old.carried) }
    {
        match self.items.pop_front() {
            None => Ok(Vec::new(alloc)),
            Some(oldest) => single(alloc, oldest),
        }
    }
}
