//! Batches of asks by example.

ghost use Rattle.std.specs.Prelude.{◌≡◌, ◌≤◌, ◌<◌, ◌^◌, length, IfOk, IsTrue, All};
ghost use Rattle.vertex_partition.specs.PartViews.{Owns};
ghost use Rattle.query_batch.specs.Questions.{CanAnswer};

use super::*;
use csr_store::Rows;
use std::alloc::Global;
use std::marker::Brand;
use std::process::Abort;
use std::sync::ledger::{Blank, Ledger};
use std::test::Fail;
use std::thread::Threads;
use vertex_partition::{Cuts, PartRows, split, whole};
use walk_model::{Ask, Edge, Found, Memory, Question, Reply, Steps};

/// A question, and what is to be found: whether the edge is there, or the row's ends.
#[derive(Clone, Copy)]
struct Case<'a> {
    question: Question,
    near: bool,
    ends: &'a [u32],
}

fn edge_case<'a>(t: u32, x: u32, near: bool) -> Case<'a> {
    Case {
        question: Question::Edge { t, x },
        near,
        ends: &[],
    }
}

fn row_case<'a>(t: u32, ends: &'a [u32]) -> Case<'a> {
    Case {
        question: Question::Row { t },
        near: false,
        ends,
    }
}

fn edge(src: u32, dst: u32) -> Edge
    requires ends { (src < 5) × (dst < 5) }
    ensures ends { (result.src < 5) × (result.dst < 5) }
    ensures weight { (1 ≤ result.weight) × (result.weight < 2 ^ 62) }
{
    Edge {
        src,
        dst,
        weight: 1,
        kind: 0,
    }
}

/// A graph of five vertices: a hub with an edge to itself and two to the next vertex, a vertex with two
/// edges alike, and one that no edge leaves.
fn hub(alloc: Global) -> Result<Rows, Memory> {
    let mut edges = Vec::new(alloc);
    edges.push(edge(0, 3))?;
    edges.push(edge(0, 1))?;
    edges.push(edge(2, 4))?;
    edges.push(edge(0, 0))?;
    edges.push(edge(0, 1))?;
    edges.push(edge(1, 0))?;
    edges.push(edge(2, 1))?;
    edges.push(edge(2, 4))?;
    Rows::build(alloc, edges, 5)
}

/// The cycle of three, beside two vertices alone.
fn cycle(alloc: Global) -> Result<Rows, Memory> {
    let mut edges = Vec::new(alloc);
    edges.push(edge(0, 1))?;
    edges.push(edge(1, 2))?;
    edges.push(edge(2, 0))?;
    Rows::build(alloc, edges, 5)
}

fn is_own(part: &PartRows, v: u32) -> bool
    ensures { IsTrue result → Owns part.now v }
{
    v < part.vertices() && part.owns(v)
}

/// Whether a part can answer a question.
fn can_answer(part: &PartRows, question: Question) -> bool
    ensures { IsTrue result → CanAnswer part.now question }
{
    match question {
        Question::Edge { t, x } => {
            let own = is_own(part, t);
            own && x < part.vertices()
        }
        Question::Row { t } => is_own(part, t),
    }
}

/// The ask at a place of a batch. The walkers are 4, 9, 14 and so on.
fn ask_at(place: usize, question: Question) -> Ask
    ensures { result.question ≡ question }
{
    Ask {
        walker: (place as u64).wrapping_mul(5).wrapping_add(4),
        step: (place % 7) as u32,
        home: (place % 3) as u32,
        question,
    }
}

/// The asks of a batch that a part can answer.
fn asks_to(alloc: Global, part: &PartRows, cases: &[Case<'_>]) -> Result<Vec<Ask>, Memory>
    ensures { IfOk result (λ r. All (λ a. CanAnswer part.now a.question) r.items) }
{
    let mut asks = Vec::new(alloc);
    for (place, case) in cases.iter().enumerate() {
        if !can_answer(part, case.question) {
            continue;
        }
        asks.push(ask_at(place, case.question))?;
    }
    Ok(asks)
}

/// Whether what a reply found is what is to be found.
fn is_found(found: &Found, case: &Case<'_>) -> bool {
    match found {
        Found::Edge { near } => *near == case.near,
        Found::Row { ends } => ends.as_slice() == case.ends,
    }
}

/// Asserts the replies of a part to a batch, in order. Answers how many there are.
fn expect_replies<L: Ledger, R: Abort + AllocGlobal>(
    rt: &R,
    part: &PartRows,
    cases: &[Case<'_>],
    steps: &mut Steps<L>,
) -> Result<usize, Memory> {
    let asks = asks_to(rt.alloc(), part, cases)?;
    let replies = answer(rt.alloc(), part, asks, steps)?;
    let mut next = 0usize;
    for reply in &replies {
        let place = (reply.ask.walker / 5) as usize;
        assert!(rt; next <= place && place < cases.len());
        assert_eq!(rt; reply.ask, ask_at(place, cases[place].question));
        assert!(rt; is_found(&reply.found, &cases[place]));
        next = place.saturating_add(1);
    }
    Ok(replies.len())
}

/// Asserts the replies of all parts of a graph that is cut into so many. Each ask has one reply.
fn expect_parts<L: Ledger, R: Abort + Threads + Sync + AllocGlobal>(
    rt: &R,
    count: u32,
    cases: &[Case<'_>],
    steps: &mut Steps<L>,
) -> Result<(), Memory>
    requires { (1 ≤ count) × (count ≤ 3) }
{
    let cuts = Cuts::balanced(rt.alloc(), &[5, 2, 4, 1, 1], count)?;
    let rows = hub(rt.alloc())?;
    assert_eq!(rt; cuts.vertices(), rows.vertices());
    let parts = split(rt, rows, false, &cuts)?;
    let mut answered = 0usize;
    for part in &parts {
        let replies = expect_replies(rt, part, cases, steps)?;
        answered = answered.saturating_add(replies);
    }
    assert_eq!(rt; answered, cases.len());
    Ok(())
}

fn expect_batch<L: Ledger, R: Abort + Threads + Sync + AllocGlobal>(
    rt: &R,
    cases: &[Case<'_>],
    steps: &mut Steps<L>,
) -> Result<(), Memory> {
    expect_parts(rt, 1, cases, steps)?;
    expect_parts(rt, 2, cases, steps)?;
    expect_parts(rt, 3, cases, steps)
}

/// Asserts what walkers are told of the cycle.
fn expect_cycle<L: Ledger, R: Abort + Threads + Sync + AllocGlobal>(
    rt: &R,
    steps: &mut Steps<L>,
) -> Result<(), Memory> {
    let part = whole(rt, cycle(rt.alloc())?, false)?;
    let near = edge_case(0, 1, true);
    let row = row_case(0, &[1]);
    assert_eq!(rt; expect_replies(rt, &part, &[near, near], steps)?, 2);
    assert_eq!(rt; expect_replies(rt, &part, &[row], steps)?, 1);
    Ok(())
}

fn expect_all<L: Ledger, R: Abort + Threads + Sync + AllocGlobal>(
    rt: &R,
    blank: Blank,
) -> Result<(), Memory>
    requires name { blank.name ≡ L.name }
    requires parts { blank.parts ≡ L.parts }
    requires some { 0 < blank.parts }
{
    let mut steps = Steps::<L>::new(blank);
    expect_cycle(rt, &mut steps)?;
    let there = edge_case(0, 3, true);
    let back = edge_case(3, 0, false);
    let other = edge_case(2, 4, true);
    let own = edge_case(0, 0, true);
    let row = row_case(0, &[0, 1, 3]);
    let alike = row_case(2, &[1, 4]);
    let none = row_case(3, &[]);
    expect_batch(rt, &[], &mut steps)?;
    expect_batch(rt, &[none, alike, row, own, other, back, there], &mut steps)?;
    // questions of a hub, time and again
    expect_batch(
        rt,
        &[row, there, row, row, own, there, row, none, own, row],
        &mut steps,
    )
}

#[test]
fn answers(rt: HostRuntime) -> Result<(), Fail> {
    expect_all::<Brand, HostRuntime>(&rt, Blank::new(1))?;
    Ok(())
}
