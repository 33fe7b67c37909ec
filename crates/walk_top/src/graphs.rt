//! The graphs of commands: read from a file, or made.

ghost use Rattle.std.specs.Prelude.{◌≡◌, ◌≤◌, ℕ, List, length, All, IfOk, IfErr};
ghost use Rattle.walk_top.specs.ErrorLines.{HasLine};
ghost use Rattle.walk_top.specs.JobViews.{IsInRange, IsMakeInRange, job_of};
ghost use Rattle.walk_top.specs.Jobs.{files_of};
ghost use Rattle.walk_top.specs.Stages.{IsFaultIn, IsRefusal};
ghost use Rattle.walk_top.specs.Verdicts.{MayBe, graph_made, job_graph};

use crate::files::find_graph;
use crate::words::{MakeWords, Words};
use graph_maker::make;
use std::alloc::Global;
use walk_io::Files;
use walk_model::{Edge, Limit, WalkFault};

/// How many edges a graph may have.
const MOST_EDGES: u32 = 16777216;

/// The graph that is made by the numbers of the words.
fn made_graph(alloc: Global, words: &MakeWords) -> Result<Vec<Edge>, WalkFault>
    requires { IsMakeInRange words.now }
    ensures edges { IfOk result (λ v. MayBe (graph_made words.now.vertices words.now.degree words.now.seed) v.items) }
    ensures few { IfOk result (λ v. length v.items ≤ 16777216) }
    ensures weights { IfOk result (λ v. All (λ e. (1 ≤ e.weight) × (e.weight ≤ 4294967295)) v.items) }
    ensures fault { IfErr result (IsRefusal (graph_made words.now.vertices words.now.degree words.now.seed)) }
    ensures lined { IfErr result HasLine }
{
    if words.vertices * words.degree > MOST_EDGES {
        return Err(WalkFault::Limit { what: Limit::Edges });
    }
    match make(alloc, words.vertices, words.degree, words.seed) {
        Ok(edges) => Ok(edges),
        Err(_) => Err(WalkFault::Memory),
    }
}

/// The graph of a command.
pub(crate) fn graph_of<F: Files>(
    alloc: Global,
    files: &mut F,
    words: &Words<'_>,
    undirected: bool,
) -> Result<Vec<Edge>, WalkFault>
    requires { IsInRange words.now }
    ensures edges { IfOk result (λ v. MayBe (job_graph undirected (F.told files.old) (job_of words.now)) v.items) }
    ensures few { IfOk result (λ v. length v.items ≤ 16777216) }
    ensures weights { IfOk result (λ v. All (λ e. (1 ≤ e.weight) × (e.weight ≤ 4294967295)) v.items) }
    ensures fault { IfErr result (IsFaultIn (λ told. job_graph undirected told (job_of words.now)) (record {
      names = files_of (job_of words.now);
      told = F.told files.old;
      reads = F.faults files.old;
      reads_after = F.faults files.new;
    })) }
    ensures lined { IfErr result HasLine }
    ensures kept { (n : List ℕ) → F.told files.new n ≡ F.told files.old n }
    ensures later { (n : List ℕ) → F.faults files.old n ≤ F.faults files.new n }
{
    match words {
        Words::Quick(quick) => find_graph(alloc, files, quick.graph, undirected),
        Words::Walk(walk) => find_graph(alloc, files, walk.graph, undirected),
        Words::Make(make) => made_graph(alloc, make),
    }
}
