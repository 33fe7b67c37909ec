//! The carrier that tells the letters of what is posted.

ghost use Rattle.std.specs.Prelude.{◌≡◌, ◌+◌, ◌^◌, ◌<◌, [], ◌++◌, length, IfOk, OnOk};
ghost use Rattle.std.specs.List.Sorted.{IsPermutation};
ghost use Rattle.walker_mail.specs.Posts.{items_of, all_items, letters_of};

use crate::carriers::Carrier;
use crate::mail::Mail;
use crate::parcels::Parcel;
use std::alloc::Global;
use std::marker::{Model, PhantomData};
use walk_model::{Letter, Memory};

/// A carrier that passes on to another one, and keeps the letters of all items that it posted, in order.
#[derive(Debug, Drop)]
pub struct Recording<I: Mail, C: Carrier<I>> {
    inner: C,
    letters: Vec<Letter>,
    of: PhantomData<I>,
}

impl<I: Mail, C: Carrier<I>> Model for Recording<I, C> {
    ghost use Rattle.walker_mail.specs.Carriers.{Recorded};

    ghost Value = { Recorded C };

    ghost view = { λ r. record { inner = r.inner; letters = r.letters.items } };
}

/// Adds the letters of a parcel's items.
fn note<I: Mail>(letters: &mut Vec<Letter>, parcel: &Parcel<I>) -> Result<(), Memory>
    ensures { OnOk result (letters.new.items ≡ letters.old.items ++ letters_of I.description (items_of parcel.now)) }
{
    for item in &parcel.items {
        letters.push(item.letter())?;
    }
    Ok(())
}

/// Adds the letters of all items of parcels, in order.
fn note_all<I: Mail>(letters: &mut Vec<Letter>, parcels: &[Parcel<I>]) -> Result<(), Memory>
    ensures { OnOk result (letters.new.items ≡ letters.old.items ++ letters_of I.description (all_items parcels.now)) }
{
    for parcel in parcels {
        note(letters, parcel)?;
    }
    Ok(())
}

impl<I: Mail, C: Carrier<I>> Recording<I, C> {
    /// A carrier round one that holds nothing, with no letter. It takes no memory.
    pub fn new(alloc: Global, inner: C) -> Recording<I, C>
        requires { C.held inner ≡ [] }
        ensures inner { result.inner ≡ inner }
        ensures letters { result.letters ≡ [] }
    {
        Recording {
            inner,
            letters: Vec::new(alloc),
            of: PhantomData,
        }
    }

    /// The letters of all items that it posted, in order.
    pub fn letters(&self) -> &[Letter]
        ensures { result.now ≡ self.now.letters }
    {
        self.letters.as_slice()
    }
}

impl<I: Mail, C: Carrier<I>> Carrier<I> for Recording<I, C> {
    ghost use Rattle.std.specs.Prelude.{Some};

    ghost held = { λ r. C.held r.inner };

    ghost carried = { λ r. C.carried r.inner };

    ghost log = { λ r. Some r.letters };

    fn post(&mut self, parcels: Vec<Parcel<I>>) -> Result<(), Memory>
        requires { C.carried self.old.inner + length (all_items parcels.items) < 2 ^ 64 }
        ensures besides { OnOk result (IsPermutation (C.held self.old.inner ++ all_items parcels.items) (C.held self.new.inner)) }
        ensures counted { OnOk result (C.carried self.new.inner ≡ C.carried self.old.inner + length (all_items parcels.items)) }
        ensures letters { OnOk result (self.new.letters ≡ self.old.letters ++ letters_of I.description (all_items parcels.items)) }
    {
        note_all(&mut self.letters, &parcels)?;
        self.inner.post(parcels)
    }

    fn hand_over(&mut self, alloc: Global) -> Result<Vec<Parcel<I>>, Memory>
        ensures rearranged { IfOk result (λ ps. IsPermutation (C.held self.old.inner) (all_items ps.items ++ C.held self.new.inner)) }
        ensures some { IfOk result (λ ps. 0 < length (C.held self.old.inner) → 0 < length (all_items ps.items)) }
        ensures count { OnOk result (C.carried self.new.inner ≡ C.carried self.old.inner) }
        ensures kept { self.new.letters ≡ self.old.letters }
    {
        self.inner.hand_over(alloc)
    }
}
