//! The closing of a desk.
ghost use Rattle.std.specs.Prelude.{◌≡◌, ◌<◌, ◌^◌, ◌+◌, ◌++◌, List, [], ◌∷◌, length, map, option_to_list, vec_len, IfOk, OnOk, IsSome};
ghost use Rattle.std.specs.List.{AllZip};
ghost use Rattle.std.specs.declared.alloc.Global.{Global};
ghost use Rattle.std.specs.declared.vec.Vec.{Vec};
ghost use Rattle.rtrb.specs.Ring.{sent, received, IsPair};
ghost use Rattle.walk_desk.specs.Answers.{answers_from};
ghost use Rattle.walk_desk.specs.Seats.{Seat, places_from};
ghost use Rattle.walk_desk.specs.declared.asks.WalkAsk.{WalkAsk};
ghost use Rattle.walk_desk.specs.declared.asks.WalkAnswer.{WalkAnswer};

use crate::asks::{WalkAnswer, WalkAsk};
use crate::client::Client;
use crate::desk::{Desk, Lanes};
use crate::engine::{DeskName, Engine, Numbered};
use crate::lane::Lane;
use rtrb::{Consumer, Producer};
use std::alloc::Global;
use walk_model::Memory;

/// The answers that a client hasn't taken.
fn untaken(
    alloc: Global,
    answers: Consumer<WalkAnswer>,
    from: &mut Producer<WalkAnswer>,
) -> Result<Vec<WalkAnswer>, Memory>
    requires { IsPair from.old answers }
    ensures { IfOk result (λ v. received answers ++ v.items ≡ sent from.old) }
{
    let mut answers = answers;
    let mut left = Vec::new(alloc);
    let count = answers.slots_beside(from);
    for _ in 0..count {
        left.push(answers.pop_known())?;
    }
    Ok(left)
}

/// Adds the answer to an ask.
fn add_answer<N: Engine>(
    alloc: Global,
    engine: &N,
    number: u64,
    ask: WalkAsk,
    left: &mut Vec<WalkAnswer>,
) -> Result<(), Memory>
    ensures { OnOk result (left.new.items ≡ left.old.items ++ record { number = number; ask = ask; walk = N.walk_of engine.now ask } ∷ []) }
{
    let walk = engine.walk(alloc, &ask)?;
    left.push(WalkAnswer { number, ask, walk })?;
    Ok(())
}

/// Adds the answer to the ask that was taken, if there is one, and gives the number of the next.
fn add_taken<N: Engine>(
    alloc: Global,
    engine: &N,
    next: u64,
    taken: Option<WalkAsk>,
    left: &mut Vec<WalkAnswer>,
) -> Result<u64, Memory>
    requires { next + length (option_to_list taken) < 2 ^ 64 }
    ensures left { OnOk result (left.new.items ≡ left.old.items ++ answers_from (N.walk_of engine.now) next (option_to_list taken)) }
    ensures next { IfOk result (λ n. n ≡ next + length (option_to_list taken)) }
{
    let Some(ask) = taken else {
        return Ok(next);
    };
    add_answer(alloc, engine, next, ask, left)?;
    Ok(next + 1)
}

/// Adds the answers to the asks that weren't taken.
fn add_rest<N: Engine>(
    alloc: Global,
    engine: &N,
    asks: Consumer<WalkAsk, Global, Numbered>,
    from: &mut Producer<WalkAsk, Global, Numbered>,
    next: u64,
    left: &mut Vec<WalkAnswer>,
) -> Result<(), Memory>
    requires pair { IsPair from.old asks }
    requires next { next ≡ length (received asks) }
    ensures { OnOk result ((before : List WalkAnswer) → answers_from (N.walk_of engine.now) 0 (received asks) ≡ before ++ left.old.items → answers_from (N.walk_of engine.now) 0 (sent from.old) ≡ before ++ left.new.items) }
{
    let mut asks = asks;
    let mut number = next;
    let count = asks.slots_beside(from);
    for _ in 0..count {
        let ask = asks.pop_known();
        add_answer(alloc, engine, number, ask, left)?;
        number += 1;
    }
    Ok(())
}

/// The answers to a client's asks that the client hasn't taken.
fn settle<N: Engine, L: DeskName>(
    alloc: Global,
    engine: &N,
    lane: Lane<L>,
    client: Client<L>,
) -> Result<Vec<WalkAnswer>, Memory>
    requires place { lane.place ≡ client.place }
    requires same { (a : WalkAsk) → N.walk_of engine.now a ≡ L.walk a }
    ensures { IfOk result (λ v. client.answers ++ v.items ≡ answers_from (N.walk_of engine.now) 0 client.asks) }
{
    let Lane {
        place: _,
        asks,
        mut answers,
        next,
        taken,
        name: _,
    } = lane;
    let Client {
        place: _,
        asked: _,
        asks: mut asked,
        answers: answered,
        name: _,
    } = client;
    let mut left = untaken(alloc, answered, &mut answers)?;
    let next = add_taken(alloc, engine, next, taken, &mut left)?;
    add_rest(alloc, engine, asks, &mut asked, next, &mut left)?;
    Ok(left)
}

/// Closes the desk: serves every ask that is left and gives, client by client, the answers that the
/// client hasn't taken. The clients are the desk's, by rising place.
///
/// # Errors
///
/// `Memory` where there is none.
pub fn gather<N: Engine, L: DeskName>(
    alloc: Global,
    desk: Desk<N, L>,
    clients: Vec<Client<L>>,
) -> Result<Vec<Vec<WalkAnswer>>, Memory>
    requires count { vec_len clients ≡ desk.clients }
    requires places { map (λ (s : Seat). s.place) clients.items ≡ places_from 0 (vec_len clients) }
    ensures { IfOk result (λ given. AllZip (λ (s : Seat) (left : Vec WalkAnswer Global). s.answers ++ left.items ≡ answers_from (N.walk_of desk.engine) 0 s.asks) clients.items given.items) }
{
    let Desk {
        engine,
        clients: _,
        lanes,
    } = desk;
    let Lanes { mut lanes } = lanes.into_inner();
    let mut given = Vec::new(alloc);
    for client in clients {
        let lane = lanes.remove(0);
        given.push(settle(alloc, &engine, lane, client)?)?;
    }
    Ok(given)
}
