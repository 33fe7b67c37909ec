//! The rings of a desk, and its opening.
ghost use Rattle.std.specs.Prelude.{◌≡◌, ◌≤◌, vec_len, All, IfOk};
ghost use Rattle.walk_desk.specs.Lines.{room_of};

use crate::asks::WalkAsk;
use crate::client::Client;
use crate::desk::{Desk, Lanes};
use crate::ends::{Ends, two_rings};
use crate::engine::{DeskName, Engine};
use crate::seating::seated;
use std::alloc::Global;
use std::sync::Mutex;
use walk_model::Memory;

/// The rings of a desk's clients, two for each.
#[derive(Drop)]
pub struct DeskRings {
    capacity: usize,
    ends: Vec<Ends>,
    ghost even: { All (λ e. room_of e ≡ capacity) ends.items },
    ghost few: { vec_len ends ≤ 16 },
}

/// The ends of so many clients' rings.
fn all_ends(alloc: Global, clients: u32, capacity: usize) -> Result<Vec<Ends>, Memory>
    ensures { IfOk result (λ v. (vec_len v ≡ clients) × All (λ e. room_of e ≡ capacity) v.items) }
{
    let mut all = Vec::new(alloc);
    for _ in 0..clients {
        all.push(two_rings(alloc, capacity)?)?;
    }
    Ok(all)
}

impl DeskRings {
    ghost use Rattle.std.specs.Prelude.{◌≡◌, ◌≤◌, ◌<◌, length, map, vec_len, IfOk};
    ghost use Rattle.walk_desk.specs.Opening.{lines_of, capacity_of};
    ghost use Rattle.walk_desk.specs.Seats.{Seat, new_seats, places_from};
    ghost use Rattle.walk_desk.specs.declared.asks.WalkAsk.{WalkAsk};

    /// The rings of 1 to 16 clients, each with room for 1 to 65,536 items.
    ///
    /// # Errors
    ///
    /// `Memory` where there is none.
    pub fn new(alloc: Global, clients: u32, capacity: u32) -> Result<DeskRings, Memory>
        requires clients { (1 ≤ clients) × (clients ≤ 16) }
        requires capacity { (1 ≤ capacity) × (capacity ≤ 65536) }
        ensures clients { IfOk result (λ r. length (lines_of r) ≡ clients) }
        ensures capacity { IfOk result (λ r. capacity_of r ≡ capacity) }
    {
        let ends = all_ends(alloc, clients, capacity as usize)?;
        Ok(DeskRings {
            capacity: capacity as usize,
            ends,
        })
    }

    /// Opens the desk, under a name that stands for these rings and the engine's answers. The
    /// clients come by rising place, from 0.
    ///
    /// # Errors
    ///
    /// `Memory` where there is none.
    pub fn start<N: Engine, L: DeskName>(
        self,
        alloc: Global,
        engine: N,
    ) -> Result<(Desk<N, L>, Vec<Client<L>>), Memory>
        requires rings { L.lines ≡ lines_of self }
        requires answers { (a : WalkAsk) → N.walk_of engine a ≡ L.walk a }
        ensures desk { IfOk result (λ r. (r.0.engine ≡ engine) × (r.0.clients ≡ length L.lines)) }
        ensures clients { IfOk result (λ r. r.1.items ≡ new_seats (capacity_of self) 0 (length L.lines)) }
        ensures places { IfOk result (λ r. map (λ (s : Seat). s.place) r.1.items ≡ places_from 0 (vec_len r.1)) }
    {
        let clients = self.ends.len() as u32;
        let (lanes, seats) = seated(alloc, self.ends)?;
        let lanes = Mutex::new(Lanes { lanes });
        Ok((
            Desk {
                engine,
                clients,
                lanes,
            },
            seats,
        ))
    }
}
