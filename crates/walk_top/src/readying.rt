//! What a plan and a graph are refused for together, and the graph made ready to be walked.

ghost use Rattle.std.specs.Prelude.{◌≡◌, ◌≤◌, ◌<◌, ◌⊎◌, ◌^◌, length, All, IsTrue, Some, None, IfOk, IfErr, IfNone};
ghost use Rattle.walk_model.specs.declared.faults.WalkFault.TheVariants as fault;
ghost use Rattle.walk_top.specs.Limits.{passed_limit, start_fault, count_fault, task_fault};
ghost use Rattle.walk_top.specs.Readiness.{IsReadyFor};
ghost use Rattle.walk_top.specs.Starts.{IsRankOf};
ghost use Rattle.walk_model.specs.Walk.{walker_count};
ghost use Rattle.traveller.specs.Runs.{start_fits};
ghost use Rattle.vertex_partition.specs.Limits.{most_parts, most_vertices};

use crate::cutting::cuts_between;
use crate::ranking::rows_of;
use std::thread::Threads;
use traveller::Run;
use vertex_names::Names;
use vertex_partition::{Cuts, PartRows, first_overflow, split};
use walk_model::limits::{MAX_PATH_ENTRIES, MAX_VERTICES};
use walk_model::{Edge, Limit, Plan, StartRule, WalkFault, greatest_factor};

/// A graph that is ready to be walked: the names of its vertices, what its walkers do, where its vertices are cut into parts, and
/// the parts in order, each with its rows and their tables.
#[derive(Drop)]
pub(crate) struct Ready {
    pub names: Names,
    pub run: Run,
    pub cuts: Cuts,
    pub parts: Vec<PartRows>,
}

/// The limit that is passed by a number of vertices, of 16,777,216 at most, or else by the entries of the paths of walkers that
/// take `length` steps each, of 134,217,728 at most.
pub fn check_counts(vertices: u64, walkers: u64, length: u32) -> Option<Limit>
    requires { length ≤ 1048576 }
    ensures limit { result ≡ passed_limit vertices walkers length }
    ensures few { IfNone result (vertices ≤ most_vertices) }
{
    if vertices > MAX_VERTICES {
        return Some(Limit::Vertices);
    }
    if u128::from(walkers) * (u128::from(length) + 1) > u128::from(MAX_PATH_ENTRIES) {
        return Some(Limit::PathEntries);
    }
    None
}

/// The rank of the plan's own start, if it has one.
#[tactic(auto, unfolding(walk_model::specs::Walk::walker_count))]
fn start_rank(rule: StartRule, names: &Names) -> Result<Option<u32>, WalkFault>
    ensures rank { IfOk result (IsRankOf rule names.now) }
    ensures fits { IfOk result (λ start. IsTrue (start_fits rule (length names.now) start)) }
    ensures some { IfOk result (λ _. 0 < walker_count rule (length names.now) → 0 < length names.now) }
    ensures exists { IfOk result (λ _. start_fault rule names.now ≡ None) }
    ensures fault { IfErr result (λ f. start_fault rule names.now ≡ Some f) }
{
    match rule {
        StartRule::Each => Ok(None),
        StartRule::Spread { walkers } => {
            if 0 < walkers && names.len() == 0 {
                Err(WalkFault::NoStart { id: None })
            } else {
                Ok(None)
            }
        }
        StartRule::From { id, .. } => match names.rank(id) {
            Some(rank) => Ok(Some(rank)),
            None => Err(WalkFault::NoStart { id: Some(id) }),
        },
    }
}

/// The number of walkers over so many vertices.
#[tactic(auto, unfolding(walk_model::specs::Walk::walker_count))]
fn walkers_of(rule: StartRule, vertices: u32) -> u32
    ensures { result ≡ walker_count rule vertices }
{
    match rule {
        StartRule::Each => vertices,
        StartRule::Spread { walkers } => walkers,
        StartRule::From { walkers, .. } => walkers,
    }
}

/// The rank of the plan's own start, if it has one, where its counts are within their limits.
fn judge_counts(plan: &Plan, names: &Names) -> Result<Option<u32>, WalkFault>
    ensures rank { IfOk result (IsRankOf plan.now.start names.now) }
    ensures fits { IfOk result (λ start. IsTrue (start_fits plan.now.start (length names.now) start)) }
    ensures some { IfOk result (λ _. 0 < walker_count plan.now.start (length names.now) → 0 < length names.now) }
    ensures few { IfOk result (λ _. length names.now ≤ most_vertices) }
    ensures none { IfOk result (λ _. count_fault plan.now names.now ≡ None) }
    ensures fault { IfErr result (λ f. count_fault plan.now names.now ≡ Some f) }
{
    let vertices = names.len();
    let walkers = walkers_of(plan.start, vertices);
    match check_counts(u64::from(vertices), u64::from(walkers), plan.length) {
        Some(what) => Err(WalkFault::Limit { what }),
        None => start_rank(plan.start, names),
    }
}

/// Makes a graph ready to be walked by a plan with a seed, in so many parts.
///
/// # Errors
///
/// The first of these: a count that passes its limit, a start that is missing, the least vertex at which a step could overflow.
/// Besides, there may be no memory.
pub(crate) fn make_ready<R: Threads + Sync + AllocGlobal>(
    rt: &R,
    edges: Vec<Edge>,
    plan: Plan,
    seed: u64,
    parts: u32,
) -> Result<Ready, WalkFault>
    requires parts { 1 ≤ parts }
    requires most { parts ≤ most_parts }
    requires few { length edges.items < 2 ^ 31 }
    requires weights { All (λ e. (1 ≤ e.weight) × (e.weight < 2 ^ 62)) edges.items }
    ensures none { IfOk result (λ _. task_fault plan edges.items ≡ None) }
    ensures ready { IfOk result (IsReadyFor edges.items plan seed parts) }
    ensures fault { IfErr result (λ f. (task_fault plan edges.items ≡ Some f) ⊎ (f ≡ fault.Memory)) }
{
    let alloc = rt.alloc();
    let Ok(names) = Names::of(alloc, &edges) else {
        return Err(WalkFault::Memory);
    };
    let start = match judge_counts(&plan, &names) {
        Ok(start) => start,
        Err(fault) => return Err(fault),
    };
    let Ok(rows) = rows_of(alloc, &names, edges) else {
        return Err(WalkFault::Memory);
    };
    match first_overflow(&rows, plan.weighted, greatest_factor(&plan.rule)) {
        None => {}
        Some(rank) => return Err(WalkFault::Overflow { id: names.id(rank) }),
    }
    let Ok(cuts) = cuts_between(alloc, &rows, parts) else {
        return Err(WalkFault::Memory);
    };
    let Ok(parts) = split(rt, rows, plan.weighted, &cuts) else {
        return Err(WalkFault::Memory);
    };
    let run = Run {
        plan,
        seed,
        vertices: names.len(),
        start,
    };
    Ok(Ready {
        names,
        run,
        cuts,
        parts,
    })
}
