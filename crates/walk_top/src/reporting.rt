//! The report on walks: how many there are, their steps, and what they sent between parts.

ghost use Rattle.std.specs.Prelude.{◌≡◌, ◌≤◌, ◌<◌, ◌+◌, ◌*◌, ◌^◌, [], ℕ, List, length, IfOk, OnOk, OnErr, IfErr};
ghost use Rattle.std.specs.Io.KnownBytes.{append_known};
ghost use Rattle.walk_io.specs.Causes.{Rose};
ghost use Rattle.walk_model.specs.Cuts.{owner};
ghost use Rattle.walk_model.specs.Walk.{walker_count};
ghost use Rattle.csr_store.specs.RowGraph.{RowGraph};
ghost use Rattle.traveller.specs.PartedRuns.{letters_in};
ghost use Rattle.traveller.specs.Standing.{parted};
ghost use Rattle.shard_core.specs.SoundWorlds.{ArePartsOf};
ghost use Rattle.shard_core.specs.Walks.{walks_in};
ghost use Rattle.superstep.specs.Carried.{count_letters};
ghost use Rattle.path_writer.specs.Gains.{GainsFront};
ghost use Rattle.walk_top.specs.Carriage.{HasCarried};
ghost use Rattle.walk_top.specs.Changes.{all_changes, changes, changes_from, steps_in};
ghost use Rattle.walk_top.specs.Jobs.{most_workers};
ghost use Rattle.walk_top.specs.Readiness.{IsWalkable};
ghost use Rattle.walk_top.specs.Reports.{report, report_on};
ghost use Rattle.walk_top.specs.WriteFaults.{IsWriteFault, OnceWalked};

use crate::errors::{Piece, write_pieces};
use crate::readying::Ready;
use crate::walking::WriteFault;
use shard_core::{Item, World};
use std::thread::Threads;
use superstep::run_counted;
use traveller::Run;
use vertex_partition::{Cuts, PartRows};
use walk_io::{Failed, Sink};
use walk_model::{Finished, Memory};
use walker_mail::{Carrier, Gate};

/// How often the owner changes along entries that follow one of the first owner.
fn changes_from(first: u32, entries: &[u32], cuts: &Cuts) -> u64
    ensures { result ≡ changes_from (owner cuts.now.cuts) first entries.now }
{
    let mut before = first;
    let mut count: u64 = 0;
    for v in entries {
        let here = cuts.owner(*v);
        count += u64::from(before != here);
        before = here;
    }
    count
}

/// How often neighbouring entries of a walk have other owners.
fn changes_of(walk: &[u32], cuts: &Cuts) -> u64
    ensures { result ≡ changes (owner cuts.now.cuts) walk.now }
{
    match walk {
        [] => 0,
        [first, rest @ ..] => changes_from(cuts.owner(*first), rest, cuts),
    }
}

/// How often all walks go from one part to another.
fn all_changes(walks: &Finished, cuts: &Cuts) -> u64
    requires { all_changes (owner cuts.now.cuts) walks.now < 2 ^ 64 }
    ensures { result ≡ all_changes (owner cuts.now.cuts) walks.now }
{
    let mut count: u64 = 0;
    for i in 0..walks.count() {
        count += changes_of(walks.walk(i), cuts);
    }
    count
}

/// How many steps all walks have.
fn all_steps(walks: &Finished) -> u64
    requires { steps_in walks.now < 2 ^ 64 }
    ensures { result ≡ steps_in walks.now }
{
    let mut count: u64 = 0;
    for i in 0..walks.count() {
        count += (walks.walk(i).len() as u64).saturating_sub(1);
    }
    count
}

/// Writes the four lines of a report.
#[tactic(auto, unfolding(crate::specs::Reports::report))]
fn write_report<K: Sink>(
    sink: &mut K,
    walks: u64,
    steps: u64,
    moves: u64,
    asks: u64,
) -> Result<(), Failed>
    ensures whole { OnOk result (K.bytes sink.new ≡ append_known (K.bytes sink.old) (report walks steps moves asks)) }
    ensures front { OnErr result (GainsFront (K.bytes sink.old) (K.bytes sink.new) (report walks steps moves asks)) }
    ensures later { K.faults sink.old ≤ K.faults sink.new }
    ensures failed { OnErr result (Rose (K.faults sink.old) (K.faults sink.new)) }
{
    write_pieces(
        sink,
        &[
            Piece::Text(b"walks "),
            Piece::Number(walks),
            Piece::Text(b"\n"),
            Piece::Text(b"steps "),
            Piece::Number(steps),
            Piece::Text(b"\n"),
            Piece::Text(b"moves "),
            Piece::Number(moves),
            Piece::Text(b"\n"),
            Piece::Text(b"asks "),
            Piece::Number(asks),
            Piece::Text(b"\n"),
        ],
    )
}

/// Takes the walks of all walkers over several parts by so many workers, and counts what leaves a part, which the carrier takes to
/// another.
fn walk_counted<R: Threads + Sync + AllocGlobal, C: Carrier<Item>, G: Gate + Sync>(
    rt: &R,
    run: Run,
    parts: Vec<PartRows>,
    workers: u32,
    carrier: &mut C,
    gate: &G,
    total: &mut u64,
) -> Result<Finished, Memory>
    requires walkable { IsWalkable run parts.items }
    requires some { 1 ≤ workers }
    requires most { workers ≤ most_workers }
    requires held { C.held carrier.old ≡ [] }
    requires count { C.carried carrier.old ≤ 2 ^ 63 }
    ensures walks { IfOk result (λ f. (g : RowGraph) (cuts : List ℕ) → ArePartsOf g run.plan.weighted cuts parts.items → f ≡ walks_in (parted g run cuts)) }
    ensures carried { OnOk result ((g : RowGraph) (cuts : List ℕ) → ArePartsOf g run.plan.weighted cuts parts.items
        → HasCarried (walker_count run.plan.start run.vertices) (letters_in (parted g run cuts)) (C.carried carrier.old) (C.carried carrier.new) (C.log carrier.old) (C.log carrier.new)) }
    ensures held { OnOk result (C.held carrier.new ≡ []) }
    ensures counted { OnOk result ((g : RowGraph) (cuts : List ℕ) → ArePartsOf g run.plan.weighted cuts parts.items
        → total.new ≡ count_letters (walker_count run.plan.start run.vertices) (letters_in (parted g run cuts))) }
{
    let alloc = rt.alloc();
    let world = World::begin(alloc, run, parts)?;
    run_counted(rt, alloc, world, workers, carrier, gate, total)
}

/// Takes the walks of all walkers, and writes the report on them. Each ask has one reply, so that half of what was sent besides moves
/// are asks.
pub(crate) fn walk_and_report<
    R: Threads + Sync + AllocGlobal,
    K: Sink,
    C: Carrier<Item>,
    G: Gate + Sync,
>(
    rt: &R,
    out: &mut K,
    ready: Ready,
    workers: u32,
    carrier: &mut C,
    gate: &G,
) -> Result<(), WriteFault>
    requires walkable { IsWalkable ready.run ready.parts.items }
    requires some { 1 ≤ workers }
    requires most { workers ≤ most_workers }
    requires graph { (g : RowGraph) × ArePartsOf g ready.run.plan.weighted ready.cuts.cuts ready.parts.items }
    requires few { walker_count ready.run.plan.start ready.run.vertices * ready.run.plan.length < 2 ^ 64 }
    requires held { C.held carrier.old ≡ [] }
    requires count { C.carried carrier.old ≤ 2 ^ 63 }
    ensures whole { (g : RowGraph) → ArePartsOf g ready.run.plan.weighted ready.cuts.cuts ready.parts.items
        → OnOk result (K.bytes out.new ≡ append_known (K.bytes out.old) (report_on (parted g ready.run ready.cuts.cuts))) }
    ensures front { (g : RowGraph) → ArePartsOf g ready.run.plan.weighted ready.cuts.cuts ready.parts.items
        → OnErr result (GainsFront (K.bytes out.old) (K.bytes out.new) (report_on (parted g ready.run ready.cuts.cuts))) }
    ensures later { K.faults out.old ≤ K.faults out.new }
    ensures fault { IfErr result (IsWriteFault (K.faults out.old) (K.faults out.new)) }
    ensures carried { (g : RowGraph) (cuts : List ℕ) → ArePartsOf g ready.run.plan.weighted cuts ready.parts.items → OnceWalked result
        (HasCarried (walker_count ready.run.plan.start ready.run.vertices) (letters_in (parted g ready.run cuts)) (C.carried carrier.old) (C.carried carrier.new) (C.log carrier.old) (C.log carrier.new)) }
    ensures empty { OnceWalked result (C.held carrier.new ≡ []) }
{
    let Ready {
        run,
        cuts,
        parts,
        ..
    } = ready;
    let mut total: u64 = 0;
    let Ok(walks) = walk_counted(rt, run, parts, workers, carrier, gate, &mut total) else {
        return Err(WriteFault::Memory);
    };
    let steps = all_steps(&walks);
    let moves = all_changes(&walks, &cuts);
    let asks = (total - moves) / 2;
    match write_report(out, walks.count(), steps, moves, asks) {
        Ok(()) => Ok(()),
        Err(_) => Err(WriteFault::Failed),
    }
}
