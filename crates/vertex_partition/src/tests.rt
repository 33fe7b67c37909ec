ghost use Rattle.std.specs.Prelude.{◌≡◌, ◌≤◌, ◌<◌, ◌^◌, length, sum, IfOk, All};
ghost use Rattle.vertex_partition.specs.Limits.{most_cost, most_parts, most_vertices};

use super::*;
use csr_store::{OutEdge, Rows};
use std::alloc::Global;
use std::process::Abort;
use std::test::Fail;
use walk_model::{Edge, Memory};

/// Asserts where the parts end, who owns each vertex, and that no part costs more than a bound.
fn expect_cuts<R: Abort + AllocGlobal>(
    rt: &R,
    costs: &[u64],
    ends: &[u32],
    owners: &[u32],
    bound: u64,
) -> Result<(), Memory>
    requires some { 1 ≤ length ends.now }
    requires few { length ends.now ≤ most_parts }
    requires vertices { length costs.now ≤ most_vertices }
    requires sum { sum costs.now ≤ most_cost }
    requires owners { length owners.now ≡ length costs.now }
{
    let cuts = Cuts::balanced(rt.alloc(), costs, ends.len() as u32)?;
    assert_eq!(rt; cuts.parts() as usize, ends.len());
    for (part, end) in ends.iter().enumerate() {
        assert_eq!(rt; cuts.end(part as u32), *end);
        let mut cost = 0u64;
        for (v, owner) in owners.iter().enumerate() {
            if *owner as usize == part {
                cost = cost.saturating_add(costs[v]);
            }
        }
        assert!(rt; cost <= bound);
    }
    for v in 0..cuts.vertices() {
        assert_eq!(rt; cuts.owner(v), owners[v as usize]);
    }
    Ok(())
}

/// The costs of a star of four vertices, whose sum is 10 and greatest 4. No part costs more than a share
/// of 10, rounded up, and 4.
#[test]
fn cuts_of_a_star(rt: HostRuntime) -> Result<(), Fail> {
    let costs = [4, 2, 2, 2];
    expect_cuts(&rt, &costs, &[4], &[0, 0, 0, 0], 14)?;
    expect_cuts(&rt, &costs, &[2, 4], &[0, 0, 1, 1], 9)?;
    expect_cuts(&rt, &costs, &[1, 3, 4], &[0, 1, 1, 2], 8)?;
    expect_cuts(&rt, &costs, &[1, 1, 1, 2, 3, 3, 4, 4], &[0, 3, 4, 6], 6)?;
    expect_cuts(&rt, &[], &[0, 0, 0], &[], 0)?;
    Ok(())
}

fn edge(src: u32, dst: u32, weight: u64, kind: u8) -> Edge
    requires ends { (src < 5) × (dst < 5) }
    requires weight { (1 ≤ weight) × (weight < 2 ^ 62) }
    ensures ends { (result.src < 5) × (result.dst < 5) }
    ensures weight { (1 ≤ result.weight) × (result.weight < 2 ^ 62) }
{
    Edge {
        src,
        dst,
        weight,
        kind,
    }
}

/// A star, whose first vertex has an edge to each of the next three and one back, and a vertex alone.
fn star(alloc: Global) -> Result<Vec<Edge>, Memory>
    ensures ends { IfOk result (λ r. All (λ e. (e.src < 5) × (e.dst < 5)) r.items) }
    ensures few { IfOk result (λ r. length r.items < 2 ^ 31) }
    ensures weights { IfOk result (λ r. All (λ e. (1 ≤ e.weight) × (e.weight < 2 ^ 62)) r.items) }
{
    let mut edges = Vec::new(alloc);
    edges.push(edge(3, 0, 7, 4))?;
    edges.push(edge(0, 3, 1, 1))?;
    edges.push(edge(0, 1, 5, 2))?;
    edges.push(edge(1, 0, 1, 0))?;
    edges.push(edge(0, 2, 4, 1))?;
    edges.push(edge(2, 0, 2, 3))?;
    Ok(edges)
}

/// Edges from one vertex to the first.
fn alike(alloc: Global, src: u32, weight: u64, count: usize) -> Result<Vec<Edge>, Memory>
    requires src { src < 5 }
    requires weight { (1 ≤ weight) × (weight < 2 ^ 62) }
    requires count { count < 2 ^ 31 }
    ensures ends { IfOk result (λ r. All (λ e. (e.src < 5) × (e.dst < 5)) r.items) }
    ensures few { IfOk result (λ r. length r.items < 2 ^ 31) }
    ensures weights { IfOk result (λ r. All (λ e. (1 ≤ e.weight) × (e.weight < 2 ^ 62)) r.items) }
{
    let edges = vec![in alloc; edge(src, 0, weight, 0); count]?;
    Ok(edges)
}

/// Rows whose reach is 2^62 at most pass, and no others.
#[test]
fn overflows_at_the_limit(rt: HostRuntime) -> Result<(), Fail> {
    let cases = [
        // 4398046510080000000 and 4677219384255000000
        (0u32, 4294967295u64, 32u32, true, 1000000u64, None),
        (3, 4294967295, 33, true, 1000000, Some(3)),
        // 2^62, and 4 more
        (2, 1152921504606846976, 2, true, 1, None),
        (2, 1152921504606846977, 2, true, 1, Some(2)),
        // weights that don't count
        (0, 4294967295, 33, false, 1000000, None),
        (0, 1, 2048, false, 1099511627776, None),
        (1, 1, 2049, false, 1099511627776, Some(1)),
    ];
    for (src, weight, count, weighted, factor, want) in cases {
        assert!(rt; src < 5 && count < 10000 && 1 <= weight && weight < 4611686018427387904);
        let edges = alike(rt.alloc(), src, weight, count as usize)?;
        let rows = Rows::build(rt.alloc(), edges, 5)?;
        assert_eq!(rt; first_overflow(&rows, weighted, factor), want);
    }
    Ok(())
}

/// Asserts that a table has the static weights of a row.
pub(crate) fn expect_table<R: Abort>(rt: &R, weights: &[u64], row: &[OutEdge], weighted: bool) {
    assert_eq!(rt; weights.len(), row.len());
    for (weight, edge) in weights.iter().zip(row) {
        assert_eq!(rt; *weight, if weighted { edge.weight } else { 1 });
    }
}

/// Asserts that a part answers for the vertices that it owns as the whole does, and answers how many.
fn expect_part<R: Abort>(rt: &R, whole: &Rows, cuts: &Cuts, part: &PartRows) -> u32 {
    let vertices = whole.vertices();
    assert_eq!(rt; part.vertices(), vertices);
    assert_eq!(rt; part.parts(), cuts.parts());
    let mut owned = 0u32;
    for v in 0..vertices {
        assert_eq!(rt; part.owner(v), cuts.owner(v));
        assert_eq!(rt; part.owns(v), part.owner(v) == part.part());
        if part.owns(v) {
            owned = owned.saturating_add(1);
            assert!(rt; part.row(v) == whole.row(v));
            assert!(rt; part.dsts(v) == whole.dsts(v));
            assert!(rt; part.kinds(v) == whole.kinds(v));
            for x in 0..vertices {
                assert_eq!(rt; part.has(v, x), whole.has(v, x));
                assert_eq!(rt; part.run(v, x), whole.run(v, x));
            }
            match part.table(v) {
                Some(table) => expect_table(rt, table.weights(), whole.row(v), part.weighted()),
                None => assert!(rt; whole.row(v).is_empty()),
            }
        }
    }
    owned
}

/// Each vertex has its row, its table and its slices in the one part that owns it.
#[test]
fn parts_of_a_star(rt: HostRuntime) -> Result<(), Fail> {
    let whole = Rows::build(rt.alloc(), star(rt.alloc())?, 5)?;
    for (count, weighted) in [(1, true), (2, true), (3, true), (8, true), (3, false)] {
        assert!(rt; 1 <= count && count <= 256);
        let rows = Rows::build(rt.alloc(), star(rt.alloc())?, 5)?;
        let cuts = Cuts::balanced(rt.alloc(), &[4, 2, 2, 2, 1], count)?;
        assert_eq!(rt; cuts.vertices(), rows.vertices());
        let parts = split(&rt, rows, weighted, &cuts)?;
        assert_eq!(rt; parts.len(), count as usize);
        let mut owned = 0u32;
        for (number, part) in parts.iter().enumerate() {
            assert_eq!(rt; part.part() as usize, number);
            assert_eq!(rt; part.weighted(), weighted);
            owned = owned.saturating_add(expect_part(&rt, &whole, &cuts, part));
        }
        assert_eq!(rt; owned, 5);
    }
    Ok(())
}
