ghost use Rattle.std.specs.Prelude.{◌≡◌, ◌<◌, ℕ, List, [], ◌∷◌, Option, Some, true, length, map, vec_len};
ghost use Rattle.walk_desk.specs.Opening.{lines_of};
ghost use Rattle.walk_desk.specs.Seats.{Seat, places_from};
ghost use Rattle.walk_desk.specs.declared.asks.WalkAsk.{WalkAsk};

use super::*;
use std::alloc::Global;
use std::marker::Brand;
use std::sync::Wait;
use std::sync::atomic::{AtomicU64, Ordering};
use std::test::Fail;
use std::thread;
use std::thread::Threads;
use walk_model::{Memory, Path};

/// Answers with the start and the length. The call of one number finds no memory.
#[derive(Drop)]
struct Echo {
    calls: AtomicU64,
    fails: u64,
}

impl Engine for Echo {
    ghost walk_of = { λ _ a. Some (a.start ∷ a.length ∷ []) };

    fn walk(&self, alloc: Global, ask: &WalkAsk) -> Result<Option<Path>, Memory> {
        if self.calls.fetch_add(1, Ordering::SeqCst) == self.fails {
            return Err(Memory);
        }
        let mut entries = Vec::new(alloc);
        entries.push(ask.start)?;
        entries.push(ask.length)?;
        Ok(Some(Path::of(entries)))
    }
}

/// An engine whose call of this number finds no memory.
fn echo_but(fails: u64) -> Echo {
    Echo {
        calls: AtomicU64::new(0),
        fails,
    }
}

/// An ask with a number in each field.
fn ask_of(number: u32) -> WalkAsk {
    WalkAsk {
        stream: u64::from(number) * 3,
        start: number,
        length: number % 1000,
    }
}

/// Whether an answer is the one to the ask that was made of a number.
fn fits(answer: &WalkAnswer, number: u32) -> bool {
    let ask = ask_of(number);
    let same = answer.ask.stream == ask.stream
        && answer.ask.start == ask.start
        && answer.ask.length == ask.length;
    match &answer.walk {
        Some(path) => same && path.as_slice() == [ask.start, ask.length].as_slice(),
        None => false,
    }
}

/// Whether clients stand by rising place.
fn in_order<L: DeskName>(clients: &[Client<L>]) -> bool
    ensures { result ≡ true → map (λ (s : Seat). s.place) clients.now ≡ places_from 0 (length clients.now) }
{
    for k in 0..clients.len() {
        if clients[k].place() as usize != k {
            return false;
        }
    }
    true
}

/// What a desk gives at its end.
fn closed<L: DeskName>(
    alloc: Global,
    desk: Desk<Echo, L>,
    clients: Vec<Client<L>>,
) -> Result<Vec<Vec<WalkAnswer>>, Fail> {
    if clients.len() != desk.clients() as usize || !in_order(clients.as_slice()) {
        return Err(Fail::new("clients of another desk"));
    }
    Ok(gather(alloc, desk, clients)?)
}

/// Asks with this number, unless more than a thousand asks were made.
fn try_ask<L: DeskName>(client: &mut Client<L>, number: u32) -> Option<u64> {
    if client.asked() > 1000 {
        return None;
    }
    client.ask(ask_of(number)).ok()
}

/// The number of the next answer.
fn next_number<L: DeskName>(client: &mut Client<L>) -> Option<u64> {
    let answer = client.answer()?;
    Some(answer.number)
}

/// Numbers told by one client and its desk, in one thread.
fn one_client<L: DeskName, R: Wait>(
    rt: &R,
    alloc: Global,
    rings: DeskRings,
) -> Result<Vec<Option<u64>>, Fail>
    requires rings { L.lines ≡ lines_of rings }
    requires answers { (a : WalkAsk) → Some (a.start ∷ a.length ∷ []) ≡ L.walk a }
{
    let (desk, mut clients) = rings.start::<Echo, L>(alloc, echo_but(u64::MAX))?;
    let mut told = Vec::new(alloc);
    let Some(mut client) = clients.pop() else {
        return Err(Fail::new("no client"));
    };
    told.push(next_number(&mut client))?;
    for number in 0..3 {
        told.push(try_ask(&mut client, number))?;
    }
    desk.serve(rt, alloc)?;
    told.push(next_number(&mut client))?;
    told.push(try_ask(&mut client, 3))?;
    for left in closed(alloc, desk, vec![in alloc; client]?)? {
        for answer in left {
            told.push(Some(answer.number))?;
        }
    }
    Ok(told)
}

#[test]
fn one_client_in_one_thread(rt: HostRuntime) -> Result<(), Fail> {
    let alloc = rt.alloc();
    let rings = DeskRings::new(alloc, 1, 2)?;
    let told = one_client::<Brand, HostRuntime>(&rt, alloc, rings)?;
    let want = [
        None,
        Some(0),
        Some(1),
        None,
        Some(0),
        Some(2),
        Some(1),
        Some(2),
    ];
    assert_eq!(rt; told.as_slice(), want.as_slice());
    Ok(())
}

/// Numbers told by a client whose desk finds no memory for the second answer, and is then served
/// again or closed at once.
fn failing<L: DeskName, R: Wait>(
    rt: &R,
    alloc: Global,
    rings: DeskRings,
    again: bool,
) -> Result<Vec<Option<u64>>, Fail>
    requires rings { L.lines ≡ lines_of rings }
    requires answers { (a : WalkAsk) → Some (a.start ∷ a.length ∷ []) ≡ L.walk a }
{
    let (desk, mut clients) = rings.start::<Echo, L>(alloc, echo_but(1))?;
    let mut told = Vec::new(alloc);
    let Some(mut client) = clients.pop() else {
        return Err(Fail::new("no client"));
    };
    for number in 0..3 {
        told.push(try_ask(&mut client, number))?;
    }
    if desk.serve(rt, alloc).is_ok() {
        return Err(Fail::new("memory for the second answer"));
    }
    told.push(next_number(&mut client))?;
    told.push(next_number(&mut client))?;
    if again {
        desk.serve(rt, alloc)?;
        told.push(next_number(&mut client))?;
    }
    for left in closed(alloc, desk, vec![in alloc; client]?)? {
        for answer in left {
            if answer.number > 2 || !fits(&answer, answer.number as u32) {
                return Err(Fail::new("the answer to another ask"));
            }
            told.push(Some(answer.number))?;
        }
    }
    Ok(told)
}

#[test]
fn an_ask_outlives_a_failure(rt: HostRuntime) -> Result<(), Fail> {
    let alloc = rt.alloc();
    let want = [Some(0), Some(1), Some(2), Some(0), None, Some(1), Some(2)];
    for again in [false, true] {
        let rings = DeskRings::new(alloc, 1, 4)?;
        let told = failing::<Brand, HostRuntime>(&rt, alloc, rings, again)?;
        assert_eq!(rt; told.as_slice(), want.as_slice());
    }
    Ok(())
}

/// Whether these are the answers to asks that were made of these numbers, in order.
fn all_fit(answers: &[WalkAnswer], numbers: &[u32]) -> bool {
    for k in 0..answers.len() {
        if k >= numbers.len() || answers[k].number != k as u64 || !fits(&answers[k], numbers[k]) {
            return false;
        }
    }
    answers.len() == numbers.len()
}

/// A client that comes back, with the numbers of which its asks were made and the answers that it
/// took.
#[derive(Drop)]
struct Tried<L: DeskName> {
    client: Client<L>,
    numbers: Vec<u32>,
    answers: Vec<WalkAnswer>,
}

/// A client tries to ask so many times, and after each try takes an answer, if it sees one.
fn tries<L: DeskName>(alloc: Global, client: Client<L>, count: u32) -> Result<Tried<L>, Memory> {
    let mut client = client;
    let mut numbers = Vec::new(alloc);
    let mut answers = Vec::new(alloc);
    let first = client.place().wrapping_mul(1000);
    for k in 0..count {
        let number = first.wrapping_add(k);
        if try_ask(&mut client, number).is_some() {
            numbers.push(number)?;
        }
        if let Some(answer) = client.answer() {
            answers.push(answer)?;
        }
        thread::yield_now();
    }
    Ok(Tried {
        client,
        numbers,
        answers,
    })
}

/// Serves fifty times.
fn serves<L: DeskName, R: Wait>(rt: &R, alloc: Global, desk: &Desk<Echo, L>) -> Result<(), Memory> {
    for _ in 0..50 {
        desk.serve(rt, alloc)?;
        thread::yield_now();
    }
    Ok(())
}

/// Whether the answers taken and those left are the ones to the asks that each client made, and
/// each made as many asks as its ring has room for.
fn are_answered<L: DeskName>(
    alloc: Global,
    desk: Desk<Echo, L>,
    tried: Vec<Tried<L>>,
    least: usize,
) -> Result<bool, Fail> {
    let mut clients = Vec::new(alloc);
    let mut numbers = Vec::new(alloc);
    let mut answers = Vec::new(alloc);
    for one in tried {
        let Tried {
            client,
            numbers: mine,
            answers: got,
        } = one;
        clients.push(client)?;
        numbers.push(mine)?;
        answers.push(got)?;
    }
    let mut k = 0usize;
    for left in closed(alloc, desk, clients)? {
        let mut left = left;
        if k >= answers.len() || k >= numbers.len() {
            return Ok(false);
        }
        answers[k].append(&mut left)?;
        if numbers[k].len() < least || !all_fit(answers[k].as_slice(), numbers[k].as_slice()) {
            return Ok(false);
        }
        k += 1;
    }
    Ok(k == numbers.len())
}

/// Two clients and two that serve, each in a thread of its own.
fn side_by_side<L: DeskName + Send + Sync, R: Threads + Wait + Sync>(
    rt: &R,
    alloc: Global,
    rings: DeskRings,
) -> Result<bool, Fail>
    requires rings { L.lines ≡ lines_of rings }
    requires answers { (a : WalkAsk) → Some (a.start ∷ a.length ∷ []) ≡ L.walk a }
{
    let (desk, mut clients) = rings.start::<Echo, L>(alloc, echo_but(u64::MAX))?;
    let second = clients.pop();
    let first = clients.pop();
    let (Some(first), Some(second)) = (first, second) else {
        return Err(Fail::new("no two clients"));
    };
    let ((first, second), (one, two)) = thread::join(
        rt,
        move || thread::join(
            rt,
            move || tries(alloc, first, 100),
            move || tries(alloc, second, 100),
        ),
        || thread::join(rt, || serves(rt, alloc, &desk), || serves(rt, alloc, &desk)),
    );
    one?;
    two?;
    are_answered(alloc, desk, vec![in alloc; first?, second?]?, 8)
}

#[test]
fn two_clients_and_two_that_serve(rt: HostRuntime) -> Result<(), Fail> {
    let alloc = rt.alloc();
    let rings = DeskRings::new(alloc, 2, 8)?;
    let all = side_by_side::<Brand, HostRuntime>(&rt, alloc, rings)?;
    assert!(rt; all);
    Ok(())
}

/// Sixteen clients, each of which makes as many asks as its ring has room for, is served and takes
/// one answer.
fn sixteen<L: DeskName, R: Wait>(rt: &R, alloc: Global, rings: DeskRings) -> Result<bool, Fail>
    requires rings { L.lines ≡ lines_of rings }
    requires answers { (a : WalkAsk) → Some (a.start ∷ a.length ∷ []) ≡ L.walk a }
{
    let (desk, clients) = rings.start::<Echo, L>(alloc, echo_but(u64::MAX))?;
    if desk.clients() != 16 {
        return Ok(false);
    }
    let mut tried = Vec::new(alloc);
    for client in clients {
        let mut one = tries(alloc, client, 3)?;
        desk.serve(rt, alloc)?;
        let Some(answer) = one.client.answer() else {
            return Ok(false);
        };
        one.answers.push(answer)?;
        tried.push(one)?;
    }
    are_answered(alloc, desk, tried, 2)
}

#[test]
fn sixteen_clients(rt: HostRuntime) -> Result<(), Fail> {
    let alloc = rt.alloc();
    let rings = DeskRings::new(alloc, 16, 2)?;
    let all = sixteen::<Brand, HostRuntime>(&rt, alloc, rings)?;
    assert!(rt; all);
    Ok(())
}
