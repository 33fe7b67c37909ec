//! The edges of a made graph.

ghost use Rattle.std.specs.Prelude.{◌≡◌, ◌≤◌, ◌<◌, ◌*◌, ◌%◌, ◌+◌, ◌++◌, ℕ, OnOk, IfOk};
ghost use Rattle.graph_maker.specs.Made.{made_edge, made_graph, made_row};

use std::alloc::Global;
use walk_model::{Edge, Memory};

/// Edge `j` from vertex `v`, of so many vertices. The seed counts by what is left of it over 97 and over 5.
fn edge_from(vertices: u32, over_97: u64, over_5: u64, v: u32, j: u32) -> Edge
    requires vertices { 1 ≤ vertices }
    requires vertex { v < 1000000 }
    requires degree { j < 64 }
    requires left_97 { over_97 < 97 }
    requires left_5 { over_5 < 5 }
    ensures { (seed : ℕ) → over_97 ≡ seed % 97 → over_5 ≡ seed % 5 → result ≡ made_edge vertices seed v j }
{
    let place = u64::from(v);
    let number = u64::from(j);
    let end = place + 1 + number * (1 + over_97) + place * number % 13;
    Edge {
        src: v,
        dst: (end % u64::from(vertices)) as u32,
        weight: 1 + (place + 3 * number + over_5) % 7,
        kind: (j % 4) as u8,
    }
}

/// Adds the edges from a vertex.
fn add_row(
    edges: &mut Vec<Edge>,
    vertices: u32,
    degree: u32,
    seed: u64,
    v: u32,
) -> Result<(), Memory>
    requires vertices { 1 ≤ vertices }
    requires vertex { v < 1000000 }
    requires degree { degree ≤ 64 }
    ensures { OnOk result (edges.new.items ≡ edges.old.items ++ made_row vertices degree seed v) }
{
    let over_97 = seed % 97;
    let over_5 = seed % 5;
    for j in 0..degree {
        edges.push(edge_from(vertices, over_97, over_5, v, j))?;
    }
    Ok(())
}

/// The made graph of 1 to 1,000,000 vertices with `degree` edges from each, 1 to 64, and 16,777,216 edges at most. Edge `j`
/// from vertex `v` ends at `(v + 1 + j * (1 + seed mod 97) + (v * j) mod 13) mod vertices`, weighs
/// `1 + (v + 3 * j + seed mod 5) mod 7` and has the type `j mod 4`. The edges stand by `v`, then by `j`.
///
/// # Errors
///
/// `Memory` where there is none for the edges, 24 bytes each.
pub fn make(alloc: Global, vertices: u32, degree: u32, seed: u64) -> Result<Vec<Edge>, Memory>
    requires vertices { (1 ≤ vertices) × (vertices ≤ 1000000) }
    requires degree { (1 ≤ degree) × (degree ≤ 64) }
    requires few { vertices * degree ≤ 16777216 }
    ensures { IfOk result (λ edges. edges.items ≡ made_graph vertices degree seed) }
{
    let mut edges = Vec::with_capacity(alloc, (vertices * degree) as usize)?;
    for v in 0..vertices {
        add_row(&mut edges, vertices, degree, seed, v)?;
    }
    Ok(edges)
}
