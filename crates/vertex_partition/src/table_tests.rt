//! The tables of many rows, which are built in several threads.

ghost use Rattle.std.specs.Prelude.{◌≡◌, ◌≤◌, ◌<◌, ◌^◌, length, sum, All, IfOk, IsTrue};

use crate::tests::expect_table;
use crate::{Cuts, PartRows, split};
use alias_table::AliasTable;
use csr_store::{OutEdge, Rows};
use std::alloc::Global;
use std::process::Abort;
use std::test::Fail;
use walk_model::{Edge, Memory};

/// The edges from a vertex. Their weights are uneven, but for one vertex in seven, whose edges weigh 1 each.
fn add_edges(edges: &mut Vec<Edge>, src: u32, count: u32) -> Result<(), Memory> {
    for k in 0..count {
        let weight = if src % 7 == 0 {
            1
        } else {
            1 + u64::from(src.wrapping_mul(k) % 97)
        };
        edges.push(Edge {
            src,
            dst: src.wrapping_mul(7).wrapping_add(k.wrapping_mul(13)) % 5000,
            weight,
            kind: 0,
        })?;
    }
    Ok(())
}

/// Edges over 5,000 vertices: none to five from each, and 3,000 from one.
fn uneven(alloc: Global) -> Result<Vec<Edge>, Memory> {
    let mut edges = Vec::new(alloc);
    for src in 0..5000u32 {
        add_edges(&mut edges, src, if src == 78 { 3000 } else { src % 6 })?;
    }
    Ok(edges)
}

/// Whether edges can be put in the rows of 5,000 vertices.
fn make_rows(edges: &[Edge]) -> bool
    ensures few { IsTrue result → length edges.now < 2 ^ 31 }
    ensures ends { IsTrue result → All (λ e. (e.src < 5000) × (e.dst < 5000)) edges.now }
    ensures weights { IsTrue result → All (λ e. (1 ≤ e.weight) × (e.weight < 2 ^ 62)) edges.now }
{
    let few = edges.len() < 0x8000_0000;
    let ends = edges.iter().all(|e| e.src < 5000 && e.dst < 5000);
    let weights = edges
        .iter()
        .all(|e| 1 <= e.weight && e.weight < 0x4000_0000_0000_0000);
    few && ends && weights
}

/// The rows of these edges.
fn uneven_rows(alloc: Global) -> Result<Rows, Fail>
    ensures { IfOk result (λ r. r.vertices ≡ 5000) }
{
    let edges = uneven(alloc)?;
    if !make_rows(&edges) {
        return Err(Fail::new("edges that make no rows"));
    }
    Ok(Rows::build(alloc, edges, 5000)?)
}

/// The same cost for each vertex.
fn even_costs(alloc: Global) -> Result<Vec<u64>, Memory>
    ensures vertices { IfOk result (λ costs. length costs.items ≡ 5000) }
    ensures sum { IfOk result (λ costs. sum costs.items ≡ 5000) }
{
    let costs = vec![in alloc; 1u64; 5000]?;
    Ok(costs)
}

/// Asserts that a table is the one that is built of the weights of a row.
fn expect_built<R: Abort + AllocGlobal>(
    rt: &R,
    table: &AliasTable,
    row: &[OutEdge],
) -> Result<(), Memory> {
    expect_table(rt, table.weights(), row, true);
    let built = AliasTable::build(rt.alloc(), table.weights())?;
    for column in 0..built.len() {
        assert_eq!(rt; table.own(column), built.own(column));
        assert_eq!(rt; table.alias(column), built.alias(column));
    }
    Ok(())
}

/// Asserts that a part has the tables of its vertices, and answers how many it owns.
fn expect_tables<R: Abort + AllocGlobal>(
    rt: &R,
    whole: &Rows,
    part: &PartRows,
) -> Result<u32, Memory> {
    assert_eq!(rt; part.vertices(), whole.vertices());
    let mut owned = 0u32;
    for v in 0..whole.vertices() {
        if part.owns(v) {
            owned = owned.saturating_add(1);
            match part.table(v) {
                Some(table) => expect_built(rt, table, whole.row(v))?,
                None => assert!(rt; whole.row(v).is_empty()),
            }
        }
    }
    Ok(owned)
}

#[test]
fn tables_of_many_rows(rt: HostRuntime) -> Result<(), Fail> {
    let whole = uneven_rows(rt.alloc())?;
    let costs = even_costs(rt.alloc())?;
    for count in [1, 3, 8] {
        assert!(rt; 1 <= count && count <= 256);
        let cuts = Cuts::balanced(rt.alloc(), &costs, count)?;
        let parts = split(&rt, uneven_rows(rt.alloc())?, true, &cuts)?;
        let mut owned = 0u32;
        for part in &parts {
            owned = owned.saturating_add(expect_tables(&rt, &whole, part)?);
        }
        assert_eq!(rt; owned, 5000);
    }
    Ok(())
}
