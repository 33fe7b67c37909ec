//! The top call of `serve`.

ghost use Rattle.std.specs.Prelude.{◌≡◌, ◌≢◌, ◌≤◌, ◌<◌, ◌⊎◌, ◌^◌, ℕ, List, length, All, Some, None, OnOk, IfOk, IfErr};
ghost use Rattle.std.specs.Io.KnownBytes.{append_known};
ghost use Rattle.walk_io.specs.Causes.{Rose};
ghost use Rattle.walk_model.specs.declared.faults.WalkFault.{WalkFault};
ghost use Rattle.walk_model.specs.declared.faults.WalkFault.TheVariants as fault;
ghost use Rattle.walk_model.specs.Status.{status_of};
ghost use Rattle.walk_top.specs.Jobs.{texts};
ghost use Rattle.walk_top.specs.ErrorLines.{line_of, HasLine};
ghost use Rattle.walk_top.specs.Gains.{IsOffered};
ghost use Rattle.walk_top.specs.Outcomes.{IfAccepted, IfRefused, IfLacking, MayEndWell, IsRefusedWith, cause_of};
ghost use Rattle.walk_top.specs.UndividedReadiness.{IsUndividedFor};
ghost use Rattle.walk_top.specs.ServeVerdicts.{serve_verdict, serve_output, graph_fault, for_requests};
ghost use Rattle.walk_top.specs.ServeReadiness.{IsServed};
ghost use Rattle.walk_top.specs.ServeOutcomes.{RoseServed, IsServeCaused, BeginsReplies, LeavesReplies};

use crate::errors::offer;
use crate::files::find_graph;
use crate::programmes::read_programme;
use crate::readying::make_ready;
use crate::request_files::{are_within, find_requests};
use crate::serve_words::read_serve_words;
use crate::undivided::{Undivided, make_undivided};
use request_reader::Request;
use request_replies::{ReplyFault, write_replies};
use std::sync::Wait;
use std::thread::Threads;
use walk_io::{Files, Sink};
use walk_model::{Edge, Limit, Plan, StartRule, WalkFault, status};

/// All that requests are walked by: the graph made ready, and the requests of each file.
#[derive(Drop)]
pub(crate) struct Served {
    pub ready: Undivided,
    pub requests: Vec<Vec<Option<Request>>>,
}

/// Makes a graph ready for requests, which bring their own starts and lengths.
fn ready_for_requests<R: Threads + Sync + AllocGlobal>(
    rt: &R,
    edges: Vec<Edge>,
    plan: Plan,
    seed: u64,
) -> Result<Undivided, WalkFault>
    requires few { length edges.items < 2 ^ 31 }
    requires weights { All (λ e. (1 ≤ e.weight) × (e.weight < 2 ^ 62)) edges.items }
    ensures none { IfOk result (λ _. graph_fault plan edges.items ≡ None) }
    ensures ready { IfOk result (IsUndividedFor edges.items (for_requests plan) seed) }
    ensures fault { IfErr result (λ f. (graph_fault plan edges.items ≡ Some f) ⊎ (f ≡ fault.Memory)) }
    ensures lined { IfErr result HasLine }
{
    let plan = Plan {
        start: StartRule::Each,
        length: 0,
        ..plan
    };
    match make_ready(rt, edges, plan, seed, 1) {
        Ok(ready) => Ok(make_undivided(ready)),
        Err(fault) => Err(fault),
    }
}

/// The graph of `serve` made ready and the requests of each file, by its words.
///
/// # Errors
///
/// The first fault of the words, the programme, the graph, both together, the request files, and the limit of their entries.
fn find_served<R: Threads + Sync + AllocGlobal, F: Files>(
    rt: &R,
    words: &[String],
    files: &mut F,
) -> Result<Served, WalkFault>
    ensures served { IfOk result (IsServed (texts words.now) (F.told files.old)) }
    ensures cause { IfErr result (λ f. (writes writes_after : ℕ) → IsServeCaused (record {
      words = texts words.now;
      told = F.told files.old;
      reads = F.faults files.old;
      reads_after = F.faults files.new;
      writes = writes;
      writes_after = writes_after;
    }) f) }
    ensures lined { IfErr result HasLine }
    ensures kept { (n : List ℕ) → F.told files.new n ≡ F.told files.old n }
    ensures later { (n : List ℕ) → F.faults files.old n ≤ F.faults files.new n }
{
    let alloc = rt.alloc();
    let command = match read_serve_words(alloc, words) {
        Ok(Some(command)) => command,
        Ok(None) => return Err(WalkFault::Words),
        Err(_) => return Err(WalkFault::Memory),
    };
    let plan = match read_programme(alloc, files, command.programme) {
        Ok(plan) => plan,
        Err(fault) => return Err(fault),
    };
    let edges = match find_graph(alloc, files, command.graph, plan.undirected) {
        Ok(edges) => edges,
        Err(fault) => return Err(fault),
    };
    let ready = match ready_for_requests(rt, edges, plan, command.seed) {
        Ok(ready) => ready,
        Err(fault) => return Err(fault),
    };
    let requests = match find_requests(alloc, files, command.requests.as_slice()) {
        Ok(requests) => requests,
        Err(fault) => return Err(fault),
    };
    if !are_within(&ready.names, requests.as_slice()) {
        return Err(WalkFault::Limit {
            what: Limit::PathEntries,
        });
    }
    Ok(Served { ready, requests })
}

/// Serves what the words ask for.
fn serve<R: Threads + Sync + AllocGlobal + Wait, F: Files, K: Sink>(
    rt: &R,
    words: &[String],
    files: &mut F,
    out: &mut K,
) -> Result<(), WalkFault>
    ensures well { OnOk result (MayEndWell (serve_verdict (texts words.now) (F.told files.old))) }
    ensures text { OnOk result (IfAccepted (serve_verdict (texts words.now) (F.told files.old)) (λ task.
        K.bytes out.new ≡ append_known (K.bytes out.old) (serve_output task))) }
    ensures cause { IfErr result (IsServeCaused (record {
      words = texts words.now;
      told = F.told files.old;
      reads = F.faults files.old;
      reads_after = F.faults files.new;
      writes = K.faults out.old;
      writes_after = K.faults out.new;
    })) }
    ensures lined { IfErr result HasLine }
    ensures sink { IfErr result (λ f. LeavesReplies K.bytes (serve_verdict (texts words.now) (F.told files.old)) out.old out.new (cause_of f)) }
    ensures kept { (n : List ℕ) → F.told files.new n ≡ F.told files.old n }
    ensures files_later { (n : List ℕ) → F.faults files.old n ≤ F.faults files.new n }
    ensures out_later { K.faults out.old ≤ K.faults out.new }
{
    let alloc = rt.alloc();
    let served = match find_served(rt, words, files) {
        Ok(served) => served,
        Err(fault) => return Err(fault),
    };
    let requests = served.requests.as_slice();
    let ready = &served.ready;
    match write_replies(
        rt,
        alloc,
        &ready.names,
        &ready.run,
        &ready.part,
        requests,
        out,
    ) {
        Ok(()) => Ok(()),
        Err(ReplyFault::Failed) => Err(WalkFault::Write),
        Err(ReplyFault::Memory) => Err(WalkFault::Memory),
    }
}

/// Does `serve`: walks what the requests of some files ask for, and answers the exit status. It may wait, and promises what it
/// promises if it returns. Any other first word has status 2.
pub fn top_serve<R: Threads + Sync + AllocGlobal + Wait, F: Files, K: Sink, E: Sink>(
    rt: &R,
    words: &[String],
    files: &mut F,
    out: &mut K,
    err: &mut E,
) -> u8
    // With status 0 nothing is refused and no file is missing, and `out` has gained the replies to the requests of each file in the
    // order of the words: each the plain walk of the asked stream, start and length, or that there is none.
    ensures done { result ≡ 0 → MayEndWell (serve_verdict (texts words.now) (F.told files.old)) }
    ensures text { result ≡ 0 → IfAccepted (serve_verdict (texts words.now) (F.told files.old)) (λ task.
        K.bytes out.new ≡ append_known (K.bytes out.old) (serve_output task)) }

    // Each other status is that of a fault, whose cause has come about, and whose line was offered.
    ensures fault { result ≢ 0 → (f : WalkFault) × (status_of f ≡ result)
        × IsServeCaused (record {
          words = texts words.now;
          told = F.told files.old;
          reads = F.faults files.old;
          reads_after = F.faults files.new;
          writes = K.faults out.old;
          writes_after = K.faults out.new;
        }) f
        × IsOffered (E.bytes err.old) (E.bytes err.new) (E.faults err.old) (E.faults err.new) (line_of f) }
    ensures silent { result ≡ 0 → err.new ≡ err.old }
    ensures statuses { (result ≡ 0) ⊎ ((2 ≤ result) × (result ≤ 8)) }

    // The statuses from 2 to 5 are those of what is refused.
    ensures refused { 2 ≤ result → result ≤ 5 → IsRefusedWith (serve_verdict (texts words.now) (F.told files.old)) result }
    ensures read { result ≡ 6 → RoseServed (texts words.now) (F.faults files.old) (F.faults files.new) }
    ensures write { result ≡ 7 → Rose (K.faults out.old) (K.faults out.new) }

    // What is left of `out`.
    ensures untouched { 2 ≤ result → result ≤ 6 → out.new ≡ out.old }
    ensures begun { 7 ≤ result → BeginsReplies K.bytes (serve_verdict (texts words.now) (F.told files.old)) out.old out.new }

    // Where no fault was counted, an accepted job ends with its replies, and a refused one with its refusal; one whose file is known to
    // be missing ends with that.
    ensures complete { IfAccepted (serve_verdict (texts words.now) (F.told files.old)) (λ _.
        (RoseServed (texts words.now) (F.faults files.old) (F.faults files.new) → ⊥) →
        (Rose (K.faults out.old) (K.faults out.new) → ⊥) → (result ≡ 0) ⊎ (result ≡ 8)) }
    ensures written { IfAccepted (serve_verdict (texts words.now) (F.told files.old)) (λ _.
        (RoseServed (texts words.now) (F.faults files.old) (F.faults files.new) → ⊥) → (result ≡ 0) ⊎ (7 ≤ result)) }
    ensures refusal { IfRefused (serve_verdict (texts words.now) (F.told files.old)) (λ f.
        (RoseServed (texts words.now) (F.faults files.old) (F.faults files.new) → ⊥) → (result ≡ status_of f) ⊎ (result ≡ 8)) }
    ensures lacking { IfLacking (serve_verdict (texts words.now) (F.told files.old)) ((result ≡ 6) ⊎ (result ≡ 8)) }

    // No call changes what is told of files, and no count falls.
    ensures kept { (n : List ℕ) → F.told files.new n ≡ F.told files.old n }
    ensures files_later { (n : List ℕ) → F.faults files.old n ≤ F.faults files.new n }
    ensures out_later { K.faults out.old ≤ K.faults out.new }
    ensures err_later { E.faults err.old ≤ E.faults err.new }
{
    match serve(rt, words, files, out) {
        Ok(()) => 0,
        Err(fault) => {
            offer(err, &fault);
            status(&fault)
        }
    }
}
