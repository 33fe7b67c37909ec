//! A graph split into its parts.

ghost use Rattle.std.specs.Prelude.{◌≡◌, ◌<◌, ◌+◌, ℕ, [], length, slice_index_or, IfOk};
ghost use Rattle.vertex_partition.specs.PartViews.{PartView, IsPart};

use crate::cuts::Cuts;
use crate::parts::PartRows;
use csr_store::{RowRange, Rows};
use std::thread::Threads;
use walk_model::Memory;

/// The parts of rows, each with a copy of its own.
fn copied_parts<R: Threads + Sync + AllocGlobal>(
    rt: &R,
    rows: &RowRange,
    weighted: bool,
    cuts: &Cuts,
) -> Result<Vec<PartRows>, Memory>
    requires vertices { cuts.now.vertices ≡ rows.now.vertices }
    requires first { rows.now.first ≡ 0 }
    requires end { rows.now.end ≡ rows.now.vertices }
    ensures count { IfOk result (λ ps. length ps.items ≡ length cuts.now.cuts + 1) }
    ensures parts { IfOk result (λ ps. (k : ℕ) (d : PartView) → k < length ps.items → IsPart (record { edges = rows.now.edges; vertices = rows.now.vertices }) weighted cuts.now.cuts k (slice_index_or ps.items k d)) }
{
    let alloc = rt.alloc();
    let count = cuts.parts();
    let mut parts = Vec::with_capacity(alloc, count as usize)?;
    for part in 0..count {
        let own = rows.copy_of(alloc, cuts.begin(part), cuts.end(part))?;
        parts.push(PartRows::of(rt, own, weighted, cuts, part)?)?;
    }
    Ok(parts)
}

/// Splits the rows of a graph into its parts, in order. Part `k` has the rows of the vertices that it
/// owns, and their tables by the static weights. The rows of one part alone aren't copied. Part by part, tables that no rows share
/// are built by as many threads as there are processors, where they are 2,048 or more.
///
/// # Errors
///
/// `Memory` where there is too little of it.
pub fn split<R: Threads + Sync + AllocGlobal>(
    rt: &R,
    rows: Rows,
    weighted: bool,
    cuts: &Cuts,
) -> Result<Vec<PartRows>, Memory>
    requires { cuts.now.vertices ≡ rows.vertices }
    ensures count { IfOk result (λ ps. length ps.items ≡ length cuts.now.cuts + 1) }
    ensures parts { IfOk result (λ ps. (k : ℕ) (d : PartView) → k < length ps.items → IsPart rows weighted cuts.now.cuts k (slice_index_or ps.items k d)) }
{
    let all = rows.into_range();
    if cuts.parts() > 1 {
        return copied_parts(rt, &all, weighted, cuts);
    }
    let part = PartRows::of(rt, all, weighted, cuts, 0)?;
    let mut parts = Vec::with_capacity(rt.alloc(), 1)?;
    parts.push(part)?;
    Ok(parts)
}

/// The one part of all rows of a graph, which aren't copied, with their tables by the static weights, built as those of `split`.
///
/// # Errors
///
/// `Memory` where there is too little of it.
pub fn whole<R: Threads + Sync + AllocGlobal>(
    rt: &R,
    rows: Rows,
    weighted: bool,
) -> Result<PartRows, Memory>
    ensures { IfOk result (λ p. IsPart rows weighted [] 0 p) }
{
    let all = rows.into_range();
    let cuts = Cuts::none(rt.alloc(), all.vertices());
    PartRows::of(rt, all, weighted, &cuts, 0)
}
