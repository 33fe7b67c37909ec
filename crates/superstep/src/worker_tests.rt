//! Worlds that are run by several workers: the same walks and letters for any number of them, and workers that go side
//! by side.

ghost use Rattle.std.specs.Prelude.{◌≡◌, ◌≤◌, ◌<◌, ◌^◌, [], All, IfOk, IsTrue, length, sum};
ghost use Rattle.walk_model.specs.declared.programme.StartRule.TheVariants.{Each};
ghost use Rattle.walk_model.specs.Ranges.{rule_in_range};
ghost use Rattle.vertex_partition.specs.Limits.{most_parts, most_cost};
ghost use Rattle.shard_core.specs.SoundWorlds.{HasBegunSomehow};

use crate::running::run;
use csr_store::Rows;
use shard_core::{Item, World};
use std::alloc::Global;
use std::process::Abort;
use std::sync::atomic::{AtomicU64, Ordering};
use std::test::Fail;
use std::thread;
use std::thread::Threads;
use traveller::Run;
use vertex_partition::{Cuts, first_overflow, split};
use walk_model::{
    Edge, Finished, Fraction, Letter, Memory, Plan, Rule, StartRule, What, greatest_factor,
};
use walker_mail::{Carrier, Gate, InOrder, NoGate, OneByOne, Recording, Reversed, Shuffled};

/// The ring of some vertices: an edge from each to the next, and from the last to the first.
fn ring(alloc: Global, vertices: u32) -> Result<Vec<Edge>, Memory>
    requires { vertices ≤ 5 }
    ensures ends { IfOk result (λ r. All (λ e. (e.src < vertices) × (e.dst < vertices)) r.items) }
    ensures few { IfOk result (λ r. length r.items < 2 ^ 31) }
    ensures weights { IfOk result (λ r. All (λ e. (1 ≤ e.weight) × (e.weight < 2 ^ 62)) r.items) }
{
    let mut edges = Vec::new(alloc);
    'linking: for src in 0..vertices {
        edges.push(Edge {
            src,
            dst: if src + 1 < vertices { src + 1 } else { 0 },
            weight: 1,
            kind: 0,
        })?;
    }
    Ok(edges)
}

/// Walks of so many steps from every vertex.
pub(crate) fn plan_of(length: u32, retries: u32, rule: Rule) -> Plan
    requires length { length ≤ 1048576 }
    requires retries { retries ≤ 1000 }
    requires rule { IsTrue (rule_in_range rule) }
    ensures { result.start ≡ Each }
{
    Plan {
        weighted: false,
        undirected: false,
        length,
        start: StartRule::Each,
        retries,
        stop: Fraction::never(),
        restart: Fraction::never(),
        rule,
    }
}

/// The world of a ring in so many parts, before any step of its walks.
pub(crate) fn begun<R: Threads + Sync + AllocGlobal>(
    rt: &R,
    costs: &[u64],
    parts: u32,
    plan: Plan,
) -> Result<World, Fail>
    requires vertices { length costs.now ≤ 5 }
    requires costs { sum costs.now ≤ most_cost }
    requires some { 1 ≤ parts }
    requires few { parts ≤ most_parts }
    requires start { plan.start ≡ Each }
    ensures { IfOk result HasBegunSomehow }
{
    let alloc = rt.alloc();
    let vertices = costs.len() as u32;
    let rows = Rows::build(alloc, ring(alloc, vertices)?, vertices)?;
    match first_overflow(&rows, plan.weighted, greatest_factor(&plan.rule)) {
        None => {}
        Some(_) => return Err(Fail::new("a vertex that overflows")),
    }
    let cuts = Cuts::balanced(alloc, costs, parts)?;
    let parts = split(rt, rows, plan.weighted, &cuts)?;
    let run = Run {
        plan,
        seed: 7,
        vertices,
        start: None,
    };
    let world = World::begin(alloc, run, parts)?;
    Ok(world)
}

/// Asserts that walks go round a ring, each from its own vertex, in so many steps.
pub(crate) fn expect_round<R: Abort>(rt: &R, walks: &Finished, vertices: u32, length: u32) {
    assert_eq!(rt; walks.count(), u64::from(vertices));
    for i in 0..walks.count() {
        let walk = walks.walk(i);
        assert_eq!(rt; walk.len(), length as usize + 1);
        for (k, at) in walk.iter().enumerate() {
            assert_eq!(rt; u64::from(*at), (i + k as u64) % u64::from(vertices));
        }
    }
}

/// The letters of walker 0 where it goes round three vertices in as many parts and asks for a row before each step but
/// the first.
const ASKING: [(u32, u32, u32, What); 7] = [
    (1, 0, 1, What::Move),
    (2, 1, 0, What::AskRow { t: 0 }),
    (2, 0, 1, What::ReplyRow { t: 0 }),
    (2, 1, 2, What::Move),
    (3, 2, 1, What::AskRow { t: 1 }),
    (3, 1, 2, What::ReplyRow { t: 1 }),
    (3, 2, 0, What::Move),
];

/// Asserts what is carried where three walkers go so, by so many workers over a carrier.
fn expect_asked<R: Abort + Threads + Sync + AllocGlobal, C: Carrier<Item> + Drop>(
    rt: &R,
    workers: u32,
    inner: C,
) -> Result<(), Fail>
    requires some { 1 ≤ workers }
    requires most { workers ≤ 16 }
    requires held { C.held inner ≡ [] }
    requires count { C.carried inner ≤ 2 ^ 63 }
{
    let rule = Rule::Node2vec {
        p: Fraction::of(1, 2),
        q: Fraction::of(2, 1),
    };
    let alloc = rt.alloc();
    let world = begun(rt, &[2, 2, 2], 3, plan_of(3, 0, rule))?;
    let mut carrier: Recording<Item, C> = Recording::new(alloc, inner);
    let walks = run(rt, alloc, world, workers, &mut carrier, &NoGate)?;
    expect_round(rt, &walks, 3, 3);
    assert_eq!(rt; carrier.letters().len(), 21);
    let mut next = 0usize;
    for letter in carrier.letters() {
        if letter.walker == 0 {
            assert!(rt; next < ASKING.len());
            let (step, from, to, what) = ASKING[next];
            let want = Letter {
                walker: 0,
                step,
                from,
                to,
                what,
            };
            assert!(rt; *letter == want, "letter {next} with {workers} workers");
            next += 1;
        }
    }
    assert_eq!(rt; next, ASKING.len());
    Ok(())
}

#[test]
fn workers_and_carriers_change_nothing(rt: HostRuntime) -> Result<(), Fail> {
    let alloc = rt.alloc();
    for workers in [1, 2, 5] {
        expect_asked(&rt, workers, InOrder::<Item>::new(alloc))?;
        expect_asked(&rt, workers, Reversed::<Item>::new(alloc))?;
        expect_asked(&rt, workers, OneByOne::<Item>::new(alloc))?;
        expect_asked(&rt, workers, Shuffled::<Item>::new(alloc, 5))?;
        let recording: Recording<Item, InOrder<Item>> = Recording::new(alloc, InOrder::new(alloc));
        expect_asked(&rt, workers, recording)?;
    }
    Ok(())
}

/// Asserts that walkers go round a ring in so many parts by so many workers, each of whom enters the gate.
fn expect_plain<R: Abort + Threads + Sync + AllocGlobal, G: Gate + Sync>(
    rt: &R,
    costs: &[u64],
    parts: u32,
    workers: u32,
    gate: &G,
) -> Result<(), Fail>
    requires vertices { length costs.now ≤ 5 }
    requires costs { sum costs.now ≤ most_cost }
    requires some { 1 ≤ parts }
    requires few { parts ≤ most_parts }
    requires some_workers { 1 ≤ workers }
    requires most_workers { workers ≤ 16 }
{
    let alloc = rt.alloc();
    let world = begun(rt, costs, parts, plan_of(3, 32, Rule::Plain))?;
    let mut carrier: InOrder<Item> = InOrder::new(alloc);
    let walks = run(rt, alloc, world, workers, &mut carrier, gate)?;
    expect_round(rt, &walks, costs.len() as u32, 3);
    Ok(())
}

/// Workers without a shard, and shards without a vertex.
#[test]
fn any_number_of_workers_and_parts(rt: HostRuntime) -> Result<(), Fail> {
    for (parts, workers) in [(1, 4), (2, 3), (2, 16), (5, 7), (9, 4)] {
        expect_plain(&rt, &[2, 2, 2], parts, workers, &NoGate)?;
    }
    expect_plain(&rt, &[2, 2, 2, 2, 2], 256, 16, &NoGate)?;
    Ok(())
}

/// The most turns of the loop in which a worker waits for the other.
const TURNS: u32 = 200_000_000;

/// Holds the first entry of worker 0 until worker 1 has entered, and that of worker 1 until worker 0 has. It notes
/// whether one of them gave up.
#[derive(Drop)]
struct Meeting {
    entered: [AtomicU64; 2],
    gave_up: AtomicU64,
}

impl Gate for Meeting {
    fn enter(&self, worker: u32, turn: u64) {
        if worker > 1 || turn != 1 {
            return;
        }
        self.entered[worker as usize].store(1, Ordering::SeqCst);
        for _ in 0..TURNS {
            if self.entered[1 - worker as usize].load(Ordering::SeqCst) == 1 {
                return;
            }
            thread::yield_now();
        }
        self.gave_up.store(1, Ordering::SeqCst);
    }
}

/// No worker waits for another to end: two of them meet at a gate that lets neither pass alone.
#[test]
fn two_workers_go_side_by_side(rt: HostRuntime) -> Result<(), Fail> {
    let gate = Meeting {
        entered: [AtomicU64::new(0), AtomicU64::new(0)],
        gave_up: AtomicU64::new(0),
    };
    expect_plain(&rt, &[2, 2, 2], 2, 2, &gate)?;
    assert_eq!(rt; gate.gave_up.load(Ordering::SeqCst), 0);
    Ok(())
}

/// Notes for each of four workers the turns in which it enters, a bit for each, and how often it enters.
#[derive(Drop)]
struct Turns {
    seen: [AtomicU64; 4],
    entries: [AtomicU64; 4],
}

impl Gate for Turns {
    fn enter(&self, worker: u32, turn: u64) {
        if worker < 4 && turn < 64 {
            self.seen[worker as usize].fetch_or(1u64 << turn, Ordering::SeqCst);
            self.entries[worker as usize].fetch_add(1, Ordering::SeqCst);
        }
    }
}

/// Each worker enters once in each superstep, of which there are four here: three moves in flight one after another,
/// and the last round in which they end. A worker without a shard enters too.
#[test]
fn each_worker_enters_each_superstep(rt: HostRuntime) -> Result<(), Fail> {
    let gate = Turns {
        seen: [
            AtomicU64::new(0),
            AtomicU64::new(0),
            AtomicU64::new(0),
            AtomicU64::new(0),
        ],
        entries: [
            AtomicU64::new(0),
            AtomicU64::new(0),
            AtomicU64::new(0),
            AtomicU64::new(0),
        ],
    };
    expect_plain(&rt, &[2, 2, 2], 3, 4, &gate)?;
    for worker in 0..4usize {
        assert_eq!(rt; gate.seen[worker].load(Ordering::SeqCst), 30);
        assert_eq!(rt; gate.entries[worker].load(Ordering::SeqCst), 4);
    }
    Ok(())
}
