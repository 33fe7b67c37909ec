ghost use Rattle.std.specs.Prelude.{◌≤◌, ◌<◌, ◌^◌, length, IfOk, All};

use super::*;
use std::alloc::Global;
use std::test::Fail;
use walk_model::{Edge, Memory};

fn edge(src: u32, dst: u32, weight: u64, kind: u8) -> Edge
    requires ends { (src < 3) × (dst < 3) }
    requires weight { (1 ≤ weight) × (weight < 100) }
    ensures ends { (result.src < 3) × (result.dst < 3) }
    ensures weight { (1 ≤ result.weight) × (result.weight < 2 ^ 62) }
{
    Edge {
        src,
        dst,
        weight,
        kind,
    }
}

/// The cycle of three vertices, with a second edge from 0 to 1 placed last.
fn cycle(alloc: Global) -> Result<Vec<Edge>, Memory>
    ensures ends { IfOk result (λ r. All (λ e. (e.src < 3) × (e.dst < 3)) r.items) }
    ensures few { IfOk result (λ r. length r.items < 2 ^ 31) }
    ensures weights { IfOk result (λ r. All (λ e. (1 ≤ e.weight) × (e.weight < 2 ^ 62)) r.items) }
{
    let mut edges = Vec::new(alloc);
    edges.push(edge(0, 1, 1, 4))?;
    edges.push(edge(1, 2, 1, 5))?;
    edges.push(edge(2, 0, 1, 6))?;
    edges.push(edge(0, 1, 2, 7))?;
    Ok(edges)
}

#[test]
fn rows_of_the_cycle(rt: HostRuntime) -> Result<(), Fail> {
    let edges = cycle(rt.alloc())?;
    let rows = Rows::build(rt.alloc(), edges, 3)?;
    assert_eq!(rt; rows.edges(), 4);
    let vertices = rows.vertices();
    assert_eq!(rt; vertices, 3);
    let row = rows.row(0);
    assert_eq!(rt; row.len(), 2);
    assert_eq!(rt; row[0].weight, 1);
    assert_eq!(rt; row[1].weight, 2);
    assert_eq!(rt; row[1].dst, 1);
    assert_eq!(rt; (rows.end(0, 0), rows.end(0, 1)), (1, 1));
    assert_eq!(rt; (rows.kind(0, 0), rows.kind(0, 1)), (4, 7));
    assert!(rt; rows.dsts(0) == [1, 1].as_slice() && rows.kinds(0) == [4, 7].as_slice());
    let runs = [
        (0u32, 1u32, 0usize, 2usize),
        (0, 2, 2, 2),
        (0, 0, 0, 0),
        (1, 2, 0, 1),
        (2, 1, 1, 1),
    ];
    for (v, t, from, to) in runs {
        assert!(rt; v < vertices && t < vertices);
        assert_eq!(rt; rows.run(v, t), (from, to));
    }
    assert!(rt; rows.has(0, 1) && rows.has(2, 0) && !rows.has(1, 0));
    Ok(())
}

/// The rows of two vertices are numbered as in the whole, and each has a mark of its own.
#[test]
fn range_of_the_cycle(rt: HostRuntime) -> Result<(), Fail> {
    let edges = cycle(rt.alloc())?;
    let all = Rows::build(rt.alloc(), edges, 3)?.into_range();
    let mut range = all.copy_of(rt.alloc(), 1, 3)?;
    assert_eq!(rt; (range.first(), range.end(), range.vertices()), (1, 3, 3));
    assert_eq!(rt; range.edges(), 2);
    assert_eq!(rt; range.row(1).len(), 1);
    assert!(rt; range.dsts(2) == [0].as_slice() && range.kinds(2) == [6].as_slice());
    assert_eq!(rt; (range.end_of(1, 0), range.kind_of(1, 0)), (2, 5));
    assert!(rt; range.has(2, 0) && !range.has(1, 0));
    assert_eq!(rt; range.run(2, 2), (1, 1));
    range.set_mark(1, 8);
    range.set_mark(2, 9);
    assert_eq!(rt; (range.mark(1), range.mark(2)), (8, 9));
    Ok(())
}

/// A row of 21 edges that stand in no order: one to each even vertex up to 38, and a second one to vertex 10 that comes
/// first and has a greater type. Besides, an edge from the last vertex.
fn wide(alloc: Global) -> Result<Vec<Edge>, Memory>
    ensures ends { IfOk result (λ r. All (λ e. (e.src < 41) × (e.dst < 41)) r.items) }
    ensures few { IfOk result (λ r. length r.items < 2 ^ 31) }
    ensures weights { IfOk result (λ r. All (λ e. (1 ≤ e.weight) × (e.weight < 2 ^ 62)) r.items) }
{
    let mut edges = Vec::new(alloc);
    edges.push(Edge {
        src: 0,
        dst: 10,
        weight: 9,
        kind: 3,
    })?;
    edges.push(Edge {
        src: 40,
        dst: 0,
        weight: 1,
        kind: 0,
    })?;
    for i in 0..20u32 {
        edges.push(Edge {
            src: 0,
            dst: i * 7 % 20 * 2,
            weight: 1,
            kind: 2,
        })?;
    }
    Ok(edges)
}

#[test]
fn a_row_of_more_than_16_edges(rt: HostRuntime) -> Result<(), Fail> {
    let edges = wide(rt.alloc())?;
    let rows = Rows::build(rt.alloc(), edges, 41)?;
    assert_eq!(rt; rows.edges(), 22);
    let vertices = rows.vertices();
    assert_eq!(rt; vertices, 41);
    let row = rows.row(0);
    assert_eq!(rt; row.len(), 21);
    assert_eq!(rt; (row[5].weight, row[6].weight, row[7].weight), (1, 9, 1));
    assert_eq!(rt;
        (rows.end(0, 4), rows.end(0, 5), rows.end(0, 6)),
        (8, 10, 10)
    );
    assert_eq!(rt; (rows.end(0, 7), rows.end(0, 20)), (12, 38));
    assert_eq!(rt; (rows.kind(0, 5), rows.kind(0, 6)), (2, 3));
    let runs = [
        (0u32, 0u32, 0usize, 1usize),
        (0, 1, 1, 1),
        (0, 8, 4, 5),
        (0, 10, 5, 7),
        (0, 11, 7, 7),
        (0, 12, 7, 8),
        (0, 37, 20, 20),
        (0, 38, 20, 21),
        (0, 40, 21, 21),
        (40, 0, 0, 1),
    ];
    for (v, t, from, to) in runs {
        assert!(rt; v < vertices && t < vertices);
        assert_eq!(rt; rows.run(v, t), (from, to));
        assert_eq!(rt; rows.has(v, t), from < to);
    }
    Ok(())
}
