//! The ids of a graph.

ghost use Rattle.std.specs.Prelude.{◌≡◌, ◌≤◌, ◌+◌, ◌*◌, ◌^◌, ◌<◌, ℕ, length, IfOk, All};
ghost use Rattle.walk_model.specs.Graph.{vertices_of};

use crate::marking::{marks_of, numbers_of};
use crate::sorting::sorted_ends;
use std::alloc::Global;
use walk_model::{Edge, Memory};

/// Marks take a byte a number. Up to so many numbers an edge they take no more memory than the
/// list of all ends.
const NUMBERS_AN_EDGE: usize = 8;

/// The greatest end of the edges, or 0 where there are none.
fn greatest_end(edges: &[Edge]) -> u32
    ensures { All (λ e. (e.src ≤ result) × (e.dst ≤ result)) edges.now }
{
    let mut most = 0;
    for e in edges {
        most = most.max(e.src).max(e.dst);
    }
    most
}

/// Every source and destination of the edges, rising.
pub(crate) fn ids_of(alloc: Global, edges: &[Edge]) -> Result<Vec<u32>, Memory>
    ensures { IfOk result (λ r. r.items ≡ vertices_of edges.now) }
{
    let most = greatest_end(edges);
    if most as usize / NUMBERS_AN_EDGE < edges.len() {
        let marks = marks_of(alloc, edges, most)?;
        return numbers_of(alloc, &marks);
    }
    let ends = sorted_ends(alloc, edges)?;
    Ok(ends)
}
