//! The desk's side of each client.
ghost use Rattle.std.specs.Prelude.{◌≡◌, ◌<◌, ◌^◌, ◌++◌, [], ◌∷◌, length, map, slice_get, Some, None, OnOk, OnErr, IsFalse, IsSome};
ghost use Rattle.walk_desk.specs.Posts.{Post};
ghost use Rattle.walk_desk.specs.declared.asks.WalkAsk.{WalkAsk};

use crate::asks::{WalkAnswer, WalkAsk};
use crate::engine::{DeskName, Engine, Numbered};
use rtrb::{Consumer, Producer};
use std::alloc::Global;
use std::marker::{Model, PhantomData};
use walk_model::Memory;

/// The desk's ends of a client's rings, the number of the next answer, and the ask that was taken
/// and not answered yet. There is room for its answer.
#[derive(Drop)]
pub(crate) struct Lane<L: DeskName> {
    pub(crate) place: u32,
    pub(crate) asks: Consumer<WalkAsk, Global, Numbered>,
    pub(crate) answers: Producer<WalkAnswer>,
    pub(crate) next: u64,
    pub(crate) taken: Option<WalkAsk>,
    pub(crate) name: PhantomData<L>,
}

impl<L: DeskName> Model for Lane<L> {
    ghost use Rattle.std.specs.Prelude.{◌≡◌, ◌<◌, ◌≤◌, ◌^◌, Some, length, slice_get, IsSome};
    ghost use Rattle.rtrb.specs.Ring.{sent, received, known_free};
    ghost use Rattle.walk_desk.specs.Rings.{producer_ring, consumer_ring};
    ghost use Rattle.walk_desk.specs.Posts.{Post, IsAnswered};

    ghost Value = { Post };

    ghost view = { λ l. record { place = l.place; asks = received l.asks; answers = sent l.answers; taken = l.taken } };

    ghost invariant = { λ l.
        (slice_get L.lines l.place ≡ Some (record { asks = consumer_ring l.asks; answers = producer_ring l.answers }))
        × IsAnswered L.walk (received l.asks) (sent l.answers) l.taken
        × (l.next ≡ length (sent l.answers))
        × (length (received l.asks) ≤ 2 ^ 63)
        × (IsSome l.taken → 0 < known_free l.answers) };
}

impl<L: DeskName> Lane<L> {
    /// Takes an ask, where one is shown and there is room for its answer.
    fn take(&mut self) -> bool
        requires { self.old.taken ≡ None }
        ensures same { IsFalse result → self.new ≡ self.old }
        ensures place { self.new.place ≡ self.old.place }
    {
        if self.answers.is_full() {
            return false;
        }
        let Ok(ask) = self.asks.pop() else {
            return false;
        };
        self.taken = Some(ask);
        true
    }

    /// Answers the ask that was taken, if there is one.
    fn answer_taken<N: Engine>(&mut self, alloc: Global, engine: &N) -> Result<(), Memory>
        requires { (a : WalkAsk) → N.walk_of engine.now a ≡ L.walk a }
        ensures done { OnOk result (self.new.taken ≡ None) }
        ensures failed { OnErr result ((self.new ≡ self.old) × IsSome self.old.taken) }
        ensures same { (self.new.place ≡ self.old.place) × (self.new.asks ≡ self.old.asks) }
    {
        let Some(ask) = self.taken else {
            return Ok(());
        };
        let walk = engine.walk(alloc, &ask)?;
        let number = self.next;
        self.answers.push_reserved(WalkAnswer { number, ask, walk });
        self.next = number + 1;
        self.taken = None;
        Ok(())
    }

    /// Answers the ask that was taken, and then each ask that is shown while there is room.
    pub(crate) fn serve<N: Engine>(&mut self, alloc: Global, engine: &N) -> Result<(), Memory>
        requires { (a : WalkAsk) → N.walk_of engine.now a ≡ L.walk a }
        ensures done { OnOk result (self.new.taken ≡ None) }
        ensures failed { OnErr result (IsSome self.new.taken) }
        ensures place { self.new.place ≡ self.old.place }
    {
        self.answer_taken(alloc, engine)?;
        let shown = self.asks.slots();
        for _ in 0..shown {
            if !self.take() {
                break;
            }
            self.answer_taken(alloc, engine)?;
        }
        Ok(())
    }
}
