//! Clients.
ghost use Rattle.std.specs.Prelude.{◌≡◌, ◌<◌, ◌^◌, ◌++◌, [], ◌∷◌, length, slice_get, Some, IfOk, OnOk, OnErr, IfSome, IfNone, IsOk, IsSome};
ghost use Rattle.walk_desk.specs.Seats.{Seat};

use crate::asks::{Full, WalkAnswer, WalkAsk};
use crate::engine::{DeskName, Numbered};
use rtrb::{Consumer, Producer};
use std::alloc::Global;
use std::marker::{Model, PhantomData};

/// A client of a desk, which may be moved into a thread. It has its place and its own ends of its
/// two rings.
#[derive(Drop)]
pub struct Client<L: DeskName> {
    pub(crate) place: u32,
    pub(crate) asked: u64,
    pub(crate) asks: Producer<WalkAsk, Global, Numbered>,
    pub(crate) answers: Consumer<WalkAnswer>,
    pub(crate) name: PhantomData<L>,
}

impl<L: DeskName> Model for Client<L> {
    ghost use Rattle.std.specs.Prelude.{◌≡◌, Some, length, slice_get};
    ghost use Rattle.rtrb.specs.Ring.{sent, received, known_free, known_items, producer_capacity};
    ghost use Rattle.walk_desk.specs.Rings.{producer_ring, consumer_ring};
    ghost use Rattle.walk_desk.specs.Seats.{Seat};

    ghost Value = { Seat };

    ghost view = { λ c. record { place = c.place; capacity = producer_capacity c.asks; asks = sent c.asks; answers = received c.answers; free = known_free c.asks; shown = known_items c.answers } };

    ghost invariant = { λ c. (slice_get L.lines c.place ≡ Some (record { asks = producer_ring c.asks; answers = consumer_ring c.answers })) × (c.asked ≡ length (sent c.asks)) };
}

impl<L: DeskName> Client<L> {
    /// The client's place among the desk's, from 0.
    pub fn place(&self) -> u32
        ensures { result ≡ self.now.place }
    {
        self.place
    }

    /// How many asks the client made.
    pub fn asked(&self) -> u64
        ensures { result ≡ length self.now.asks }
    {
        self.asked
    }

    /// Asks for a walk, and gives the ask's number among the client's, from 0.
    ///
    /// # Errors
    ///
    /// `Full` where the ring gave the ask back, which it never does while fewer asks than the
    /// capacity were made.
    pub fn ask(&mut self, ask: WalkAsk) -> Result<u64, Full>
        requires { length self.old.asks < 2 ^ 63 }
        ensures number { IfOk result (λ n. n ≡ length self.old.asks) }
        ensures asks { OnOk result (self.new.asks ≡ self.old.asks ++ ask ∷ []) }
        ensures full { OnErr result ((self.new.asks ≡ self.old.asks) × (self.new.free ≡ 0)) }
        ensures room { 0 < self.old.free → IsOk result }
        ensures begun { length self.old.asks < self.old.capacity → IsOk result }
        ensures same { self.new ≡ record self.old { asks = self.new.asks; free = self.new.free } }
    {
        match self.asks.push(ask) {
            Ok(()) => {
                let number = self.asked;
                self.asked = number + 1;
                Ok(number)
            }
            Err(_) => Err(Full),
        }
    }

    /// The answer to the oldest ask that the client has no answer to, if its ring shows it.
    pub fn answer(&mut self) -> Option<WalkAnswer>
        ensures answers { IfSome result (λ a. self.new.answers ≡ self.old.answers ++ a ∷ []) }
        ensures none { IfNone result ((self.new.answers ≡ self.old.answers) × (self.new.shown ≡ [])) }
        ensures shown { 0 < length self.old.shown → IsSome result }
        ensures same { self.new ≡ record self.old { answers = self.new.answers; shown = self.new.shown } }
    {
        self.answers.pop().ok()
    }
}
