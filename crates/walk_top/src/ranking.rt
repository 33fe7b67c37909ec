//! A graph in ranks.

ghost use Rattle.std.specs.Prelude.{◌≤◌, ◌<◌, ◌^◌, length, All, IfOk};
ghost use Rattle.vertex_names.specs.Ranks.{AreNamed};
ghost use Rattle.walk_top.specs.Ranked.{IsRankedBy};

use csr_store::Rows;
use std::alloc::Global;
use vertex_names::Names;
use walk_model::{Edge, Memory};

/// Puts the edges of a graph in rows, with ranks in place of names.
pub(crate) fn rows_of(alloc: Global, names: &Names, edges: Vec<Edge>) -> Result<Rows, Memory>
    requires named { AreNamed names.now edges.items }
    requires few { length edges.items < 2 ^ 31 }
    requires weights { All (λ e. (1 ≤ e.weight) × (e.weight < 2 ^ 62)) edges.items }
    ensures { IfOk result (IsRankedBy names.now edges.items) }
{
    let mut edges = edges;
    names.rename(&mut edges);
    Rows::build(alloc, edges, names.len())
}
