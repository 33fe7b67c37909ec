//! The rounds of all shards, by several workers side by side.

ghost use Rattle.std.specs.Prelude.{◌≡◌, ℕ, ◌<◌, ◌≤◌, [], Ok, vec_len, slice_index_or, All, IfOk};
ghost use Rattle.std.specs.List.{AllZip};
ghost use Rattle.superstep.specs.Rounding.{HasTurned, IsReady};
ghost use Rattle.superstep.specs.Share.{share};

use crate::seats::{Seat, take_turn};
use std::alloc::Global;
use std::collections::VecDeque;
use std::snapshot::Snapshot;
use std::thread;
use std::thread::Threads;
use walk_model::Memory;
use walker_mail::Gate;

/// What a worker does in a superstep: its number, and its shards.
#[derive(Drop)]
struct Job {
    pub worker: u32,
    pub seats: Vec<Seat>,
}

/// A worker enters the gate and makes a round of each of its shards, one after another.
fn work<G: Gate>(alloc: Global, gate: &G, turn: u64, job: Job) -> Result<VecDeque<Seat>, Memory>
    requires { All IsReady job.seats.items }
    ensures { IfOk result (λ done. AllZip HasTurned job.seats.items done.items) }
{
    let Job { worker, seats } = job;
    gate.enter(worker, turn);
    let mut done = VecDeque::new(alloc);
    'working: for seat in seats {
        let turned = take_turn(alloc, seat)?;
        done.push_back(turned)?;
    }
    Ok(done)
}

/// So many workers, each without a shard.
fn idle(alloc: Global, workers: u32) -> Result<Vec<Job>, Memory>
    ensures long { IfOk result (λ jobs. vec_len jobs ≡ workers) }
    ensures empty { IfOk result (λ jobs. (w : ℕ) (d : _) → w < workers → (slice_index_or jobs.items w d).seats.items ≡ []) }
{
    let mut jobs = Vec::new(alloc);
    'numbering: for worker in 0..workers {
        jobs.push(Job {
            worker,
            seats: Vec::new(alloc),
        })?;
    }
    Ok(jobs)
}

/// Each worker with the shards whose number modulo `workers` is its own.
fn deal(alloc: Global, seats: Vec<Seat>, workers: u32) -> Result<Vec<Job>, Memory>
    requires { 0 < workers }
    ensures long { IfOk result (λ jobs. vec_len jobs ≡ workers) }
    ensures each { IfOk result (λ jobs. (w : ℕ) (d : _) → w < workers
        → (slice_index_or jobs.items w d).seats.items ≡ share w workers 0 seats.items) }
{
    let mut jobs = idle(alloc, workers)?;
    let mut number = 0usize;
    'dealing: for seat in seats {
        jobs[number % workers as usize].seats.push(seat)?;
        number += 1;
    }
    Ok(jobs)
}

/// What the answers hold, where all are `Ok`.
#[tactic(auto, using(std::proofs::lemmas::Slice::Zip::all_zipped_more))]
fn all_ok<T: Drop>(alloc: Global, answers: Vec<Result<T, Memory>>) -> Result<Vec<T>, Memory>
    ensures { IfOk result (λ all. AllZip (λ answer x. answer ≡ Ok x) answers.items all.items) }
{
    let mut all = Vec::with_capacity(alloc, answers.len())?;
    'asking: for answer in answers {
        all.push(answer?)?;
    }
    Ok(all)
}

/// The shards of all workers in the order in which they were dealt out.
fn gather(
    alloc: Global,
    done: Vec<VecDeque<Seat>>,
    workers: u32,
    was: Snapshot<Vec<Seat>>,
    count: usize,
) -> Result<Vec<Seat>, Memory>
    requires some { 0 < workers }
    requires long { vec_len done ≡ workers }
    requires count { count ≡ vec_len was.value }
    requires each { (w : ℕ) (d : _) → w < workers
        → AllZip HasTurned (share w workers 0 was.value.items) (slice_index_or done.items w d).items }
    ensures { IfOk result (λ seats. AllZip HasTurned was.value.items seats.items) }
{
    let mut done = done;
    let mut ordered = Vec::with_capacity(alloc, count)?;
    'gathering: for k in 0..count {
        let Some(seat) = done[k % workers as usize].pop_front() else {
            unreachable!()
        };
        ordered.push(seat)?;
    }
    Ok(ordered)
}

/// One round of each shard, by several workers side by side; each enters the gate first. The shards come back in their
/// order. With one worker no thread is started.
pub(crate) fn work_side_by_side<R: Threads + Sync, G: Gate + Sync>(
    rt: &R,
    alloc: Global,
    seats: Vec<Seat>,
    workers: u32,
    gate: &G,
    turn: u64,
) -> Result<Vec<Seat>, Memory>
    requires some { 1 ≤ workers }
    requires ready { All IsReady seats.items }
    ensures { IfOk result (λ after. AllZip HasTurned seats.items after.items) }
{
    let was = Snapshot::of(&seats);
    let count = seats.len();
    let jobs = deal(alloc, seats, workers)?;
    let answers = thread::map_vec(
        rt,
        jobs,
        &|job: Job| -> Result<VecDeque<Seat>, Memory>
            requires { All IsReady job.seats.items }
            ensures { IfOk result (λ done. AllZip HasTurned job.seats.items done.items) }
        { work(alloc, gate, turn, job) },
    )?;
    let done = all_ok(alloc, answers)?;
    gather(alloc, done, workers, was, count)
}
