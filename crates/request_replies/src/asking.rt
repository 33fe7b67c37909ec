//! The requests of several files go through a desk, which has a client for each file.

ghost use Rattle.std.specs.Prelude.{◌≡◌, ◌≤◌, ◌<◌, ◌^◌, ℕ, [], length, map, IfOk, OnOk};
ghost use Rattle.walk_desk.specs.Opening.{lines_of};
ghost use Rattle.walk_desk.specs.declared.asks.WalkAsk.{WalkAsk};
ghost use Rattle.request_replies.specs.Answered.{AreAllAnswered, AreAllShort, AreShort, HasAsked, good_ones, request_in};
ghost use Rattle.request_replies.specs.PartWalks.{part_walk};

use crate::engine::PartEngine;
use request_reader::Request;
use std::alloc::Global;
use std::sync::Wait;
use walk_desk::{Client, Desk, DeskName, DeskRings, Engine, WalkAnswer, WalkAsk, gather};
use walk_model::Memory;

/// How many items each ring of a client has room for.
pub(crate) const ROOM: u32 = 64;

/// The answers to the good requests of each file: those that its client took, and those that were left at the closing.
#[derive(Drop)]
pub(crate) struct Answered {
    pub(crate) taken: Vec<Vec<WalkAnswer>>,
    pub(crate) left: Vec<Vec<WalkAnswer>>,
}

/// A request as an ask.
fn ask_of(request: Request) -> WalkAsk
    requires { request.length ≤ 65536 }
    ensures { request_in result ≡ request }
{
    WalkAsk {
        stream: request.stream,
        start: request.start,
        length: request.length,
    }
}

/// Asks for the good ones of the requests from a place on, until the ring is full, and answers the place of the first that wasn't
/// asked for.
fn ask_more<L: DeskName>(client: &mut Client<L>, requests: &[Option<Request>], next: usize) -> usize
    requires few { length requests.now < 2 ^ 63 }
    requires short { AreShort requests.now }
    requires asked { HasAsked requests.now next client.old.asks }
    ensures asked { HasAsked requests.now result client.new.asks }
    ensures same { client.new ≡ record client.old { asks = client.new.asks; free = client.new.free } }
{
    let mut at = next;
    'asking: while at < requests.len() {
        if let Some(request) = requests[at] {
            match client.ask(ask_of(request)) {
                Ok(_) => {}
                Err(_) => return at,
            }
        }
        at += 1;
    }
    at
}

/// Takes the answers that are shown, as many as the ring has room for at most.
fn take_answers<L: DeskName>(
    client: &mut Client<L>,
    answers: &mut Vec<WalkAnswer>,
) -> Result<(), Memory>
    requires { client.old.answers ≡ answers.old.items }
    ensures answers { OnOk result (client.new.answers ≡ answers.new.items) }
    ensures same { client.new ≡ record client.old { answers = client.new.answers; shown = client.new.shown } }
{
    'taking: for _ in 0..ROOM {
        match client.answer() {
            Some(answer) => answers.push(answer)?,
            None => return Ok(()),
        }
    }
    Ok(())
}

/// Asks for all good requests of a file, round by round: it asks until the ring is full, the desk is served, and the answers are
/// taken.
fn ask_all<R: Wait, N: Engine, L: DeskName>(
    rt: &R,
    alloc: Global,
    desk: &Desk<N, L>,
    client: &mut Client<L>,
    requests: &[Option<Request>],
) -> Result<Vec<WalkAnswer>, Memory>
    requires fresh { (client.old.asks ≡ []) × (client.old.answers ≡ []) }
    requires few { length requests.now < 2 ^ 63 }
    requires short { AreShort requests.now }
    ensures place { client.new.place ≡ client.old.place }
    ensures asks { OnOk result (map request_in client.new.asks ≡ good_ones requests.now) }
    ensures answers { IfOk result (λ v. client.new.answers ≡ v.items) }
{
    let mut answers = Vec::new(alloc);
    let mut next = 0usize;
    'rounds: for _ in rt.forever() {
        next = ask_more(client, requests, next);
        desk.serve(rt, alloc)?;
        take_answers(client, &mut answers)?;
        if next == requests.len() {
            break 'rounds;
        }
    }
    Ok(answers)
}

/// Asks for the good requests of all files, each file's by its own client, one after another, and closes the desk.
pub(crate) fn ask_files<R: Wait, L: DeskName>(
    rt: &R,
    alloc: Global,
    rings: DeskRings,
    engine: PartEngine<'_>,
    files: &[Vec<Option<Request>>],
) -> Result<Answered, Memory>
    requires rings { L.lines ≡ lines_of rings }
    requires answers { (a : WalkAsk) → part_walk engine.names.now engine.here (request_in a) ≡ L.walk a }
    requires count { length (lines_of rings) ≡ length files.now }
    requires short { AreAllShort files.now }
    ensures { IfOk result (λ r. AreAllAnswered (part_walk engine.entry.names.now engine.entry.here) files.now r.taken.items r.left.items) }
{
    let (desk, mut clients) = rings.start::<PartEngine<'_>, L>(alloc, engine)?;
    let mut taken = Vec::new(alloc);
    'files: for k in 0..files.len() {
        let answers = ask_all(rt, alloc, &desk, &mut clients[k], files[k].as_slice())?;
        taken.push(answers)?;
    }
    let left = gather(alloc, desk, clients)?;
    Ok(Answered { taken, left })
}
