//! Runs on small graphs, for tests.

ghost use Rattle.std.specs.Prelude.{◌≡◌, ◌≤◌, ◌<◌, ◌^◌, All, IfOk, IsTrue, length};
ghost use Rattle.walk_model.specs.Ranges.{rule_in_range};
ghost use Rattle.walk_model.specs.declared.programme.StartRule.TheVariants.{Each};
ghost use Rattle.traveller.specs.Standing.{Suits};

use crate::runs::Run;
use csr_store::Rows;
use std::alloc::Global;
use std::test::Fail;
use std::thread::Threads;
use vertex_partition::{Cuts, PartRows, first_overflow, split};
use walk_model::{Edge, Fraction, Kinds, Plan, Rule, StartRule, greatest_factor};

/// The seed of every run.
pub(crate) const SEED: u64 = 7;

/// A line of an edge list: source, destination, weight and type.
pub(crate) type Line = (u32, u32, u64, u8);

/// The rule of a case: none, a scheme of two types, or node2vec by `p` and `q`, each as top and bottom.
#[derive(Clone, Copy)]
pub(crate) enum Choice {
    Plain,
    Scheme(u8, u8),
    Node2vec((u32, u32), (u32, u32)),
}

/// What the walkers of a case do: whether weights count, how many steps and darts they may take, the
/// coins of `stop` and `restart`, and the rule.
#[derive(Clone, Copy)]
pub(crate) struct Case {
    pub weighted: bool,
    pub length: u32,
    pub retries: u32,
    pub stop: (u32, u32),
    pub restart: (u32, u32),
    pub choice: Choice,
}

/// A run, and the parts of its graph in their order.
#[derive(Drop)]
pub(crate) struct Ready {
    pub run: Run,
    pub parts: Vec<PartRows>,
}

/// A fraction, where it is one that plans may have.
fn fraction(terms: (u32, u32)) -> Result<Fraction, Fail> {
    let (top, bottom) = terms;
    if top > 1_000_000 || bottom > 1_000_000 || bottom < 1 {
        return Err(Fail::new("a fraction out of range"));
    }
    Ok(Fraction::of(top, bottom))
}

/// The rule of a case.
fn rule_of(alloc: Global, choice: Choice) -> Result<Rule, Fail>
    ensures { IfOk result (λ rule. IsTrue (rule_in_range rule)) }
{
    match choice {
        Choice::Plain => Ok(Rule::Plain),
        Choice::Scheme(first, second) => {
            let kinds = vec![in alloc; first, second]?;
            Ok(Rule::Scheme {
                kinds: Kinds::of(kinds),
            })
        }
        Choice::Node2vec(p, q) => {
            let p = fraction(p)?;
            let q = fraction(q)?;
            if p.top < 1 || q.top < 1 {
                return Err(Fail::new("a fraction of node2vec that is 0"));
            }
            Ok(Rule::Node2vec { p, q })
        }
    }
}

/// The plan of a case, by which a walker starts from each vertex.
pub(crate) fn plan_of(alloc: Global, case: Case) -> Result<Plan, Fail>
    ensures { IfOk result (λ plan. plan.start ≡ Each) }
{
    let rule = rule_of(alloc, case.choice)?;
    let stop = fraction(case.stop)?;
    let restart = fraction(case.restart)?;
    if stop.top > stop.bottom || restart.top > restart.bottom {
        return Err(Fail::new("a coin above 1"));
    }
    if case.length > 1_048_576 || case.retries > 1_000 {
        return Err(Fail::new("too many steps or darts"));
    }
    Ok(Plan {
        weighted: case.weighted,
        undirected: false,
        length: case.length,
        start: StartRule::Each,
        retries: case.retries,
        stop,
        restart,
        rule,
    })
}

/// The edges of a graph's lines.
pub(crate) fn edges_of(alloc: Global, lines: &[Line]) -> Result<Vec<Edge>, Fail> {
    let mut edges = Vec::new(alloc);
    for line in lines {
        let (src, dst, weight, kind) = *line;
        edges.push(Edge {
            src,
            dst,
            weight,
            kind,
        })?;
    }
    Ok(edges)
}

/// Whether edges can be put in the rows of so many vertices.
fn make_rows(edges: &[Edge], vertices: u32) -> bool
    ensures few { IsTrue result → length edges.now < 2 ^ 31 }
    ensures ends { IsTrue result → All (λ e. (e.src < vertices) × (e.dst < vertices)) edges.now }
    ensures weights { IsTrue result → All (λ e. (1 ≤ e.weight) × (e.weight < 2 ^ 62)) edges.now }
{
    let few = edges.len() < 0x8000_0000;
    let ends = edges.iter().all(|e| e.src < vertices && e.dst < vertices);
    let weights = edges
        .iter()
        .all(|e| 1 <= e.weight && e.weight < 0x4000_0000_0000_0000);
    few && ends && weights
}

/// A run by the plan of a case on the parts between cuts, which it suits.
pub(crate) fn make_ready<R: Threads + Sync + AllocGlobal>(
    rt: &R,
    lines: &[Line],
    case: Case,
    cuts: &Cuts,
) -> Result<Ready, Fail>
    ensures { IfOk result (λ ready. All (Suits ready.run) ready.parts.items) }
{
    let alloc = rt.alloc();
    let vertices = cuts.vertices();
    let plan = plan_of(alloc, case)?;
    let edges = edges_of(alloc, lines)?;
    if !make_rows(&edges, vertices) {
        return Err(Fail::new("edges that make no rows"));
    }
    let rows = Rows::build(alloc, edges, vertices)?;
    match first_overflow(&rows, plan.weighted, greatest_factor(&plan.rule)) {
        None => {}
        Some(_) => return Err(Fail::new("a vertex that overflows")),
    }
    let parts = split(rt, rows, plan.weighted, cuts)?;
    let run = Run {
        plan,
        seed: SEED,
        vertices,
        start: None,
    };
    Ok(Ready { run, parts })
}
