//! A lane and a client for each pair of rings.
ghost use Rattle.std.specs.Prelude.{◌≡◌, ◌≤◌, ℕ, [], None, Some, length, map, vec_len, slice_get, IfOk, All};
ghost use Rattle.walk_desk.specs.Lines.{line_of, room_of};
ghost use Rattle.walk_desk.specs.Posts.{Post};
ghost use Rattle.walk_desk.specs.Seats.{new_seat, new_seats, places_from};

use crate::client::Client;
use crate::ends::Ends;
use crate::engine::DeskName;
use crate::lane::Lane;
use std::alloc::Global;
use std::marker::PhantomData;
use walk_model::Memory;

/// The two sides of a client's rings.
fn two_sides<L: DeskName>(place: u32, ends: Ends) -> (Lane<L>, Client<L>)
    requires { slice_get L.lines place ≡ Some (line_of ends) }
    ensures lane { result.0 ≡ record { place = place; asks = []; answers = []; taken = None } }
    ensures client { result.1 ≡ new_seat (room_of ends) place }
{
    let Ends {
        ask,
        asked,
        answer,
        answered,
        capacity: _,
    } = ends;
    let lane = Lane {
        place,
        asks: asked,
        answers: answer,
        next: 0,
        taken: None,
        name: PhantomData,
    };
    let client = Client {
        place,
        asked: 0,
        asks: ask,
        answers: answered,
        name: PhantomData,
    };
    (lane, client)
}

/// The desk's side and the client of each pair of rings, by rising place.
pub(crate) fn seated<L: DeskName>(
    alloc: Global,
    all: Vec<Ends>,
) -> Result<(Vec<Lane<L>>, Vec<Client<L>>), Memory>
    requires rings { L.lines ≡ map line_of all.items }
    requires few { vec_len all ≤ 16 }
    ensures lanes { IfOk result (λ r. map (λ (p : Post). p.place) r.0.items ≡ places_from 0 (vec_len all)) }
    ensures clients { IfOk result (λ r. (capacity : ℕ) → All (λ e. room_of e ≡ capacity) all.items → r.1.items ≡ new_seats capacity 0 (vec_len all)) }
{
    let mut lanes = Vec::new(alloc);
    let mut clients = Vec::new(alloc);
    let mut place = 0u32;
    for ends in all {
        let (lane, client) = two_sides::<L>(place, ends);
        lanes.push(lane)?;
        clients.push(client)?;
        place += 1;
    }
    Ok((lanes, clients))
}
