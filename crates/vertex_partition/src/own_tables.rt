//! The tables of rows that share none, built in several threads.

ghost use Rattle.std.specs.Prelude.{◌≡◌, length, map, All, IfOk};
ghost use Rattle.std.specs.List.{AllZip};
ghost use Rattle.vertex_partition.specs.OutWeights.{out_weight};
ghost use Rattle.vertex_partition.specs.Tabled.{HasEdges, row_weights};

use alias_table::AliasTable;
use csr_store::{OutEdge, RowRange};
use rayon::prelude::*;
use std::alloc::Global;
use std::thread::Threads;
use walk_model::Memory;

/// The static weight of an edge.
fn weight_of(weighted: bool, edge: &OutEdge) -> u64
    ensures { result ≡ out_weight weighted edge.now }
{
    if weighted { edge.weight } else { 1 }
}

/// The static weights of a row.
fn weights_from(alloc: Global, weighted: bool, row: &[OutEdge]) -> Result<Vec<u64>, Memory>
    ensures { IfOk result (λ ws. ws.items ≡ map (out_weight weighted) row.now) }
{
    let weights = row.iter().map(|e| weight_of(weighted, e)).collect(alloc)?;
    Ok(weights)
}

/// The table of one row.
fn own_table(alloc: Global, rows: &RowRange, weighted: bool, v: u32) -> Result<AliasTable, Memory>
    requires { HasEdges rows.now v }
    ensures { IfOk result (λ t. t ≡ row_weights weighted rows.now v) }
{
    let weights = weights_from(alloc, weighted, rows.row(v))?;
    AliasTable::build(alloc, &weights)
}

/// The tables of the rows of some vertices, in their order. From 2,048 vertices on they are built in pieces, by as many threads as
/// there are processors; fewer are built in the calling thread.
pub(crate) fn own_tables<R: Threads + Sync>(
    rt: &R,
    alloc: Global,
    rows: &RowRange,
    weighted: bool,
    lone: &[u32],
) -> Result<Vec<AliasTable>, Memory>
    requires { All (HasEdges rows.now) lone.now }
    ensures { IfOk result (λ ts. AllZip (λ v t. t ≡ row_weights weighted rows.now v) lone.now ts.items) }
{
    let made: Result<Vec<AliasTable>, Memory> = lone
        .par_iter()
        .map(
            |v: &u32| -> Result<AliasTable, Memory>
                requires { HasEdges rows.now v.now }
                ensures { IfOk result (λ t. t ≡ row_weights weighted rows.entry.now v.now) }
            { own_table(alloc, rows, weighted, *v) },
        )
        .collect(rt, alloc)?;
    made
}
