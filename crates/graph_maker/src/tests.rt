//! Made graphs, edge by edge.

use crate::make;
use std::alloc::Global;
use std::process::Abort;
use std::test::Fail;
use walk_model::{Edge, Memory};

/// An edge by its numbers in the order of an edge list: source, destination, weight, type.
fn edge(line: [u32; 4]) -> Edge {
    let [src, dst, weight, kind] = line;
    Edge {
        src,
        dst,
        weight: u64::from(weight),
        kind: (kind % 256) as u8,
    }
}

/// Asserts edges of a made graph from a place on.
fn expect_edges<R: Abort>(rt: &R, made: &[Edge], first: usize, lines: &[[u32; 4]]) {
    for (k, line) in lines.iter().enumerate() {
        match made.get(first.saturating_add(k)) {
            Some(found) => assert_eq!(rt; *found, edge(*line)),
            None => assert!(rt; false),
        }
    }
}

/// Each edge of a graph of five vertices.
#[test]
fn five_vertices(rt: HostRuntime) -> Result<(), Fail> {
    let made = make(rt.alloc(), 5, 2, 0)?;
    assert_eq!(&rt; made.len(), 10);
    let lines = [
        [0, 1, 1, 0],
        [0, 2, 4, 1],
        [1, 2, 2, 0],
        [1, 4, 5, 1],
        [2, 3, 3, 0],
        [2, 1, 6, 1],
        [3, 4, 4, 0],
        [3, 3, 7, 1],
        [4, 0, 5, 0],
        [4, 0, 1, 1],
    ];
    expect_edges(&rt, made.as_slice(), 0, &lines);
    Ok(())
}

/// One vertex leads to itself; of the greatest seed, 1 is left over 97 and 0 over 5 (2^64 - 1 is 97 times
/// 190172619316593315 and 60, and 5 times 3689348814741910323).
#[test]
fn limits(rt: HostRuntime) -> Result<(), Fail> {
    let alone = make(rt.alloc(), 1, 1, 18446744073709551615)?;
    expect_edges(&rt, alone.as_slice(), 0, &[[0, 0, 1, 0]]);
    let wide = make(rt.alloc(), 1000, 64, 18446744073709551615)?;
    assert_eq!(&rt; wide.len(), 64000);
    // from the last vertex: 999 + 1 + 63 * 61 + 999 * 63 mod 13, and 999 + 189
    expect_edges(&rt, wide.as_slice(), 63999, &[[999, 847, 6, 3]]);
    let large = make(rt.alloc(), 1000000, 1, 7)?;
    assert_eq!(&rt; large.len(), 1000000);
    expect_edges(&rt, large.as_slice(), 999999, &[[999999, 0, 3, 0]]);
    Ok(())
}
