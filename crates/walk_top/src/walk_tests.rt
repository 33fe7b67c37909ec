//! Walks of `walk` by example, and beside the walks of the definition.

use crate::check_counts;
use crate::tests::{CYCLE, expect_walk, programme_of};
use std::alloc::Global;
use std::process::Abort;
use std::test::Fail;
use std::thread::Threads;
use walk_model::{Edge, Limit, Memory, Plan, can_walk, plain_walk};
use walk_programme::read_plan;

#[test]
fn walks_by_example(rt: HostRuntime) -> Result<(), Fail> {
    for (graph, programme, out) in [
        ("", "length = 3", ""),
        (CYCLE, "length = 2; walkers = 2; from = 1", "1 2 0\n1 2 0\n"),
        ("5 9\n", "length = 10", "5 9\n9\n"),
        ("5 9\n", "length = 2; undirected = true", "5 9 5\n9 5 9\n"),
        (CYCLE, "length = 0", "0\n1\n2\n"),
        (
            CYCLE,
            "length = 1; walkers = 5",
            "0 1\n1 2\n2 0\n0 1\n1 2\n",
        ),
        (CYCLE, "length = 1; walkers = 0", ""),
        ("", "length = 1; walkers = 0", ""),
        (CYCLE, "length = 1; walkers = 0; from = 2", ""),
        (
            "5 9\n",
            "length = 3; walkers = 1; from = 9; restart = '1/1'",
            "9 9 9 9\n",
        ),
        (
            "5 9\n",
            "length = 3; walkers = 1; from = 9; restart = '1/1'; stop = '1/1'",
            "9\n",
        ),
        (
            CYCLE,
            "length = 3; retries = 0; weighted = false",
            "0 1 2 0\n1 2 0 1\n2 0 1 2\n",
        ),
    ] {
        expect_walk(&rt, graph, programme, 0, out, "")?;
    }
    Ok(())
}

#[test]
fn counts_within_their_limits(rt: HostRuntime) -> Result<(), Fail> {
    for (vertices, walkers, length, limit) in [
        (16777217, 0, 0, Some(Limit::Vertices)),
        (16777216, 16777216, 7, None),
        (16777216, 16777216, 8, Some(Limit::PathEntries)),
        (16777217, 16777216, 8, Some(Limit::Vertices)),
        (0, 134217728, 0, None),
        (0, 134217729, 0, Some(Limit::PathEntries)),
        (3, 127, 1048576, None),
        (3, 128, 1048576, Some(Limit::PathEntries)),
        (3, u64::MAX, 1048576, Some(Limit::PathEntries)),
    ] {
        assert!(rt; check_counts(vertices, walkers, length) == limit);
    }
    Ok(())
}

/// A line of an edge list: source, destination, weight and type.
pub(crate) type Line = (u32, u32, u64, u8);

/// Ids far apart, parallel edges that lead back and away, loops, rows of one edge, and vertices without a row.
pub(crate) const TANGLE: [Line; 30] = [
    (3, 8, 5, 0),
    (3, 8, 1, 1),
    (3, 3, 2, 0),
    (3, 70, 9, 2),
    (8, 3, 4, 1),
    (8, 3, 4, 0),
    (8, 70, 1, 1),
    (8, 900, 7, 0),
    (70, 8, 3, 2),
    (70, 3, 3, 1),
    (70, 4294967295, 1, 0),
    (900, 8, 6, 1),
    (900, 900, 2, 0),
    (900, 900, 1, 1),
    (900, 1000, 4, 2),
    (1000, 3, 1, 0),
    (4294967295, 70, 4294967295, 1),
    (4294967295, 8, 1, 0),
    (4294967295, 12, 2, 1),
    (12, 13, 1, 1),
    (13, 12, 8, 0),
    (13, 14, 8, 1),
    (14, 15, 2, 0),
    (15, 16, 3, 1),
    (16, 14, 5, 0),
    (16, 14, 5, 1),
    (16, 3, 1, 0),
    (16, 17, 1, 2),
    (12, 3, 1, 0),
    (0, 3, 1, 1),
];

/// A path of twelve vertices whose weights double, which is walked to and fro where it is undirected.
pub(crate) const PATH: [Line; 11] = [
    (0, 1, 1, 1),
    (1, 2, 2, 0),
    (2, 3, 4, 1),
    (3, 4, 8, 0),
    (4, 5, 16, 1),
    (5, 6, 32, 0),
    (6, 7, 64, 1),
    (7, 8, 128, 0),
    (8, 9, 256, 1),
    (9, 10, 512, 0),
    (10, 11, 1024, 1),
];

/// A wheel: a rim of eight vertices, each with a spoke to the hub and one back.
pub(crate) const WHEEL: [Line; 24] = [
    (1, 2, 3, 0),
    (2, 3, 1, 1),
    (3, 4, 4, 0),
    (4, 5, 1, 1),
    (5, 6, 5, 0),
    (6, 7, 9, 1),
    (7, 8, 2, 0),
    (8, 1, 6, 1),
    (1, 0, 5, 1),
    (2, 0, 3, 0),
    (3, 0, 5, 1),
    (4, 0, 8, 0),
    (5, 0, 9, 1),
    (6, 0, 7, 0),
    (7, 0, 9, 1),
    (8, 0, 3, 0),
    (0, 1, 2, 0),
    (0, 2, 3, 1),
    (0, 3, 8, 0),
    (0, 4, 4, 1),
    (0, 5, 6, 0),
    (0, 6, 2, 1),
    (0, 7, 6, 0),
    (0, 8, 4, 1),
];

/// The text of a graph's lines.
pub(crate) fn text_of(alloc: Global, lines: &[Line]) -> Result<String, Memory> {
    let mut text = String::new(alloc);
    for (src, dst, weight, kind) in lines {
        let line = format!(in alloc; "{src} {dst} {weight} {kind}\n")?;
        text.push_str(line.as_str())?;
    }
    Ok(text)
}

/// The edges of a graph's lines: where it is undirected, the mirror of an edge that is no loop stands after it.
fn edges_of(alloc: Global, lines: &[Line], undirected: bool) -> Result<Vec<Edge>, Memory> {
    let mut edges = Vec::new(alloc);
    for line in lines {
        let (src, dst, weight, kind) = *line;
        edges.push(Edge {
            src,
            dst,
            weight,
            kind,
        })?;
        if undirected && src != dst {
            edges.push(Edge {
                src: dst,
                dst: src,
                weight,
                kind,
            })?;
        }
    }
    Ok(edges)
}

/// Puts the line of a walk behind others.
fn push_walk(alloc: Global, text: &mut String, walk: &[u32]) -> Result<(), Memory> {
    for (i, id) in walk.iter().enumerate() {
        let blank = if i == 0 { "" } else { " " };
        let entry = format!(in alloc; "{blank}{id}")?;
        text.push_str(entry.as_str())?;
    }
    text.push_str("\n")?;
    Ok(())
}

/// The lines of the walks of a plan's walkers by the definition, or of so many of the first ones.
pub(crate) fn plain_lines(
    alloc: Global,
    edges: &[Edge],
    plan: &Plan,
    most: u64,
) -> Result<String, Memory> {
    let mut text = String::new(alloc);
    for walker in 0..most {
        if !can_walk(alloc, edges, plan, walker)? {
            return Ok(text);
        }
        let walk = plain_walk(alloc, edges, plan, 7, walker)?;
        push_walk(alloc, &mut text, &walk)?;
    }
    Ok(text)
}

/// The lines of the walks of a programme on a graph, by the definition.
pub(crate) fn plain_text<R: Abort + AllocGlobal>(
    rt: &R,
    lines: &[Line],
    programme: &str,
) -> Result<String, Fail> {
    let alloc = rt.alloc();
    let text = programme_of(alloc, programme)?;
    assert!(rt; text.len() <= 65536);
    let Ok(plan) = read_plan(alloc, text.as_bytes()) else {
        return Err(Fail::new("a programme that can't be read"));
    };
    let edges = edges_of(alloc, lines, plan.undirected)?;
    let want = plain_lines(alloc, &edges, &plan, 1000)?;
    Ok(want)
}

/// Asserts that a programme's walks of a graph are those of the definition.
fn expect_plain<R: Abort + Threads + Sync + AllocGlobal>(
    rt: &R,
    lines: &[Line],
    programme: &str,
) -> Result<(), Fail> {
    let want = plain_text(rt, lines, programme)?;
    let graph = text_of(rt.alloc(), lines)?;
    expect_walk(rt, graph.as_str(), programme, 0, want.as_str(), "")?;
    Ok(())
}

/// Plans of every rule.
pub(crate) const PLANS: [&str; 45] = [
    "length = 20",
    "length = 20; weighted = false",
    "length = 20; undirected = true",
    "length = 20; undirected = true; weighted = false",
    // every step by the scan, and by darts alone as a rule
    "length = 20; undirected = true; retries = 0",
    "length = 20; undirected = true; retries = 0; weighted = false",
    "length = 20; undirected = true; retries = 1",
    "length = 20; undirected = true; retries = 1000",
    // coins that fall seldom, often, always and never
    "length = 20; stop = '1/10'",
    "length = 20; undirected = true; stop = '0.25'",
    "length = 20; restart = '1/3'",
    "length = 20; undirected = true; restart = '0.999999'",
    "length = 20; restart = 1; stop = '1/1000000'",
    "length = 20; undirected = true; restart = '1/4'; stop = '1/16'; retries = 0",
    "length = 20; stop = 0; restart = 0",
    "length = 20; stop = 1",
    // more walkers than vertices, fewer, and all from one vertex
    "length = 9; walkers = 40; undirected = true",
    "length = 9; walkers = 3",
    "length = 9; walkers = 20; from = 3; undirected = true",
    "length = 9; walkers = 20; from = 8; restart = '1/2'; stop = '1/8'; weighted = false",
    // near and far edges shunned or sought, and the way back
    "length = 20; undirected = true; p = '0.25'; q = 4",
    "length = 20; undirected = true; p = 4; q = '0.25'",
    "length = 20; p = '1/1000'; q = 1000",
    "length = 20; undirected = true; p = '1/1000'; q = 1000; retries = 1",
    "length = 20; undirected = true; p = 1000; q = '1/1000'; retries = 1",
    "length = 20; undirected = true; p = 1000; q = 1000",
    "length = 20; undirected = true; p = '1/1000'; q = '1/1000'",
    // every step by the scan, and by darts alone as a rule
    "length = 20; undirected = true; p = '2/3'; q = '5/7'; retries = 0",
    "length = 20; undirected = true; p = 1000; q = '1/1000'; retries = 1000",
    "length = 20; undirected = true; p = '1/1000'; retries = 0; weighted = false",
    // equal factors: near and far, near and back, and all three
    "length = 20; undirected = true; p = '1/7'",
    "length = 20; undirected = true; p = 7",
    "length = 20; undirected = true; q = '3/2'",
    "length = 20; undirected = true; p = 1; q = 1",
    "length = 20; undirected = true; p = '1/3'; q = 3; restart = '1/5'; stop = '1/20'",
    "length = 9; undirected = true; q = '0.5'; walkers = 20; from = 3; restart = '1/2'",
    // one type, types in turn, and types that no edge or few edges have
    "length = 20; scheme = [0]",
    "length = 20; scheme = [1, 0]",
    "length = 20; undirected = true; scheme = [0, 1]",
    "length = 20; undirected = true; scheme = [0, 1]; retries = 0",
    "length = 20; undirected = true; scheme = [0, 0, 1]; retries = 1; weighted = false",
    "length = 20; undirected = true; scheme = [1, 0]; retries = 1000",
    "length = 20; undirected = true; scheme = [0, 1, 2]",
    "length = 20; scheme = [255]",
    "length = 20; undirected = true; scheme = [0, 1]; restart = '1/3'; stop = '1/20'",
];

/// A plan of the table, with so many steps.
pub(crate) fn shortened(alloc: Global, programme: &str, steps: u32) -> Result<String, Memory> {
    let rest = match programme.split_once(';') {
        Some((_, rest)) => rest,
        None => "",
    };
    let text = format!(in alloc; "length = {steps};{rest}")?;
    Ok(text)
}

/// The lines of a woven graph of forty vertices with three edges each.
pub(crate) fn woven(alloc: Global) -> Result<Vec<Line>, Memory> {
    let mut lines = Vec::new(alloc);
    for v in 0..40u32 {
        for j in 0..3u32 {
            let to = (v + 1 + 5 * j + v * j % 7) % 40;
            lines.push((v, to, u64::from(1 + (v + 3 * j) % 7), (j % 4) as u8))?;
        }
    }
    Ok(lines)
}

#[test]
fn walks_are_those_of_the_definition(rt: HostRuntime) -> Result<(), Fail> {
    let woven = woven(rt.alloc())?;
    for programme in PLANS {
        expect_plain(&rt, &TANGLE, programme)?;
        expect_plain(&rt, &PATH, programme)?;
        expect_plain(&rt, &WHEEL, programme)?;
        expect_plain(&rt, &woven, programme)?;
    }
    Ok(())
}

#[test]
fn walks_by_rules_by_example(rt: HostRuntime) -> Result<(), Fail> {
    let typed = "0 1 1 4\n1 2 1 5\n2 0 1 4\n";
    for (graph, programme, out) in [
        (CYCLE, "length = 3; scheme = [4]", "0\n1\n2\n"),
        (CYCLE, "length = 3; scheme = [4]; retries = 0", "0\n1\n2\n"),
        (CYCLE, "length = 3; scheme = [4]; retries = 5", "0\n1\n2\n"),
        (typed, "length = 3; scheme = [4, 5]", "0 1 2 0\n1\n2 0\n"),
        (
            CYCLE,
            "length = 3; retries = 0; p = '1/2'; q = '2'",
            "0 1 2 0\n1 2 0 1\n2 0 1 2\n",
        ),
    ] {
        expect_walk(&rt, graph, programme, 0, out, "")?;
    }
    expect_plain(
        &rt,
        &PATH[..3],
        "length = 12; undirected = true; p = '0.25'; q = '4'",
    )?;
    Ok(())
}
