//! The desk and its lock.
ghost use Rattle.std.specs.Prelude.{◌≡◌, length, map, None, OnOk, All};
ghost use Rattle.walk_desk.specs.Posts.{Post, Opened};
ghost use Rattle.walk_desk.specs.declared.asks.WalkAsk.{WalkAsk};

use crate::engine::{DeskName, Engine};
use crate::lane::Lane;
use std::alloc::Global;
use std::marker::Model;
use std::sync::{Mutex, Wait};
use walk_model::Memory;

/// What stands behind the lock: the desk's side of each client, by place.
#[derive(Drop)]
pub(crate) struct Lanes<L: DeskName> {
    pub(crate) lanes: Vec<Lane<L>>,
}

impl<L: DeskName> Model for Lanes<L> {
    ghost use Rattle.std.specs.Prelude.{◌≡◌, List, length, map};
    ghost use Rattle.walk_desk.specs.Posts.{Post};
    ghost use Rattle.walk_desk.specs.Seats.{places_from};

    ghost Value = { List Post };

    ghost view = { λ d. d.lanes.items };

    ghost invariant = { λ d. map (λ (p : Post). p.place) d.lanes.items ≡ places_from 0 (length L.lines) };
}

impl<L: DeskName> Lanes<L> {
    /// Serves client by client. No ask is then taken and not answered.
    fn serve<N: Engine>(&mut self, alloc: Global, engine: &N) -> Result<(), Memory>
        requires { (a : WalkAsk) → N.walk_of engine.now a ≡ L.walk a }
        ensures { OnOk result (All (λ (p : Post). p.taken ≡ None) self.new) }
    {
        let lanes = &mut self.lanes;
        for k in 0..lanes.len() {
            lanes[k].serve(alloc, engine)?;
        }
        Ok(())
    }
}

/// A desk that any number of threads may serve.
#[derive(Drop)]
pub struct Desk<N: Engine, L: DeskName> {
    pub(crate) engine: N,
    pub(crate) clients: u32,
    pub(crate) lanes: Mutex<Lanes<L>>,
}

impl<N: Engine, L: DeskName> Model for Desk<N, L> {
    ghost use Rattle.std.specs.Prelude.{◌≡◌, length};
    ghost use Rattle.walk_desk.specs.Posts.{Opened};
    ghost use Rattle.walk_desk.specs.declared.asks.WalkAsk.{WalkAsk};

    ghost Value = { Opened N };

    ghost view = { λ d. record { engine = d.engine; clients = d.clients } };

    ghost invariant = { λ d. (d.clients ≡ length L.lines) × ((a : WalkAsk) → N.walk_of d.engine a ≡ L.walk a) };
}

impl<N: Engine, L: DeskName> Desk<N, L> {
    /// How many clients the desk has.
    pub fn clients(&self) -> u32
        ensures { result ≡ self.now.clients }
    {
        self.clients
    }

    /// Takes the lock and, client by client, answers each ask that is shown while there is room for
    /// its answer. May wait for the lock.
    ///
    /// # Errors
    ///
    /// `Memory`: an ask that was taken stays with the desk, and is served first.
    pub fn serve<R: Wait>(&self, rt: &R, alloc: Global) -> Result<(), Memory> {
        self.lanes.lock(rt).serve(alloc, &self.engine)
    }
}
