//! Carriers of parcels.

ghost use Rattle.std.specs.Prelude.{◌≡◌, ◌+◌, ◌^◌, ◌<◌, ◌++◌, ℕ, List, Option, option_map, length, IfOk, OnOk};
ghost use Rattle.std.specs.List.Sorted.{IsPermutation};
ghost use Rattle.walk_model.specs.declared.messages.Letter.{Letter};
ghost use Rattle.walker_mail.specs.declared.parcels.Posted.{Posted};
ghost use Rattle.walker_mail.specs.Posts.{all_items, letters_of};

use crate::mail::Mail;
use crate::parcels::Parcel;
use std::alloc::Global;
use walk_model::Memory;

/// What takes items to their addressees: it hands over what was posted, each item once, in whatever order and parcels.
pub trait Carrier<I: Mail> {
    /// The items that it holds, each with its sender and its addressee.
    ghost held: { Self → List (Posted I) };

    /// How many items were ever posted.
    ghost carried: { Self → ℕ };

    /// The letters of all items that were ever posted, in order, where they are told.
    ghost log: { Self → Option (List Letter) };

    /// Takes the items of parcels.
    ///
    /// # Errors
    ///
    /// `Memory` where there is none; then nothing is known of what it holds, of the count and of the log.
    fn post(&mut self, parcels: Vec<Parcel<I>>) -> Result<(), Memory>
        requires { carried self.old + length (all_items parcels.items) < 2 ^ 64 }
        ensures besides { OnOk result (IsPermutation (held self.old ++ all_items parcels.items) (held self.new)) }
        ensures counted { OnOk result (carried self.new ≡ carried self.old + length (all_items parcels.items)) }
        ensures logged { OnOk result (log self.new ≡ option_map (λ before. before ++ letters_of I.description (all_items parcels.items)) (log self.old)) };

    /// Gives out items that it holds, at least one where it holds any.
    ///
    /// # Errors
    ///
    /// `Memory` where there is none; then nothing is known of what it holds, of the count and of the log.
    fn hand_over(&mut self, alloc: Global) -> Result<Vec<Parcel<I>>, Memory>
        ensures rearranged { IfOk result (λ ps. IsPermutation (held self.old) (all_items ps.items ++ held self.new)) }
        ensures some { IfOk result (λ ps. 0 < length (held self.old) → 0 < length (all_items ps.items)) }
        ensures count { OnOk result (carried self.new ≡ carried self.old) }
        ensures letters { OnOk result (log self.new ≡ log self.old) };
}
