//! Where the vertices of a graph are cut into parts.

ghost use Rattle.std.specs.Prelude.{◌≡◌, ◌≤◌, ◌<◌, ◌^◌, length, IfOk};
ghost use Rattle.walk_model.specs.Cuts.{costs_of, cuts_of};
ghost use Rattle.walk_model.specs.Numbers.{below};
ghost use Rattle.vertex_partition.specs.Limits.{most_parts, most_vertices};

use csr_store::Rows;
use std::alloc::Global;
use vertex_partition::Cuts;
use walk_model::Memory;

/// What each vertex costs: 1, and 1 for each edge from it.
fn vertex_costs(alloc: Global, rows: &Rows) -> Result<Vec<u64>, Memory>
    ensures { IfOk result (λ costs. costs.items ≡ costs_of rows.now.edges (below rows.now.vertices)) }
{
    let mut costs = Vec::with_capacity(alloc, rows.vertices() as usize)?;
    for v in 0..rows.vertices() {
        costs.push(1 + rows.dsts(v).len() as u64)?;
    }
    Ok(costs)
}

/// The cuts between so many parts of like cost. One part needs no costs.
pub(crate) fn cuts_between(alloc: Global, rows: &Rows, parts: u32) -> Result<Cuts, Memory>
    requires some { 1 ≤ parts }
    requires few { parts ≤ most_parts }
    requires vertices { rows.now.vertices ≤ most_vertices }
    requires edges { length rows.now.edges < 2 ^ 31 }
    ensures cuts { IfOk result (λ c. c.cuts ≡ cuts_of (costs_of rows.now.edges (below rows.now.vertices)) parts) }
    ensures vertices { IfOk result (λ c. c.vertices ≡ rows.now.vertices) }
{
    if parts == 1 {
        return Ok(Cuts::none(alloc, rows.vertices()));
    }
    let costs = vertex_costs(alloc, rows)?;
    Cuts::balanced(alloc, &costs, parts)
}
