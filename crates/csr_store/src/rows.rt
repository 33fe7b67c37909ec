//! Rows, as they are built and asked.

ghost use Rattle.std.specs.Prelude.{◌≡◌, ◌≤◌, ◌<◌, ◌+◌, ◌^◌, ℕ, length, map, slice_index, IfOk, All, Some};
ghost use Rattle.walk_model.specs.Graph.{row, has_edge, ends_of};
ghost use Rattle.walk_model.specs.Dart.{ends_below as below, ends_at as at};
ghost use Rattle.csr_store.specs.OutEdges.{out_edge, kinds_of};
ghost use Rattle.csr_store.specs.RowGraph.{HoldsAll, IsWhole};
ghost use Rattle.csr_store.specs.Shelves.{IsOutEdge};

use crate::filling::fill;
use crate::heads::Heads;
use crate::out_edge::OutEdge;
use crate::ranges::RowRange;
use crate::sorting::sort_rows;
use crate::sources::row_ends;
use std::alloc::Global;
use std::marker::Model;
use walk_model::{Edge, Memory};

/// The edges of a graph in rows, seen as its edges, row by row, and the number of its vertices.
///
/// They are the rows of the range of all vertices.
#[derive(Debug, Drop)]
pub struct Rows {
    all: RowRange,
}

impl Model for Rows {
    ghost use Rattle.csr_store.specs.RowGraph.{RowGraph};
    ghost use Rattle.std.specs.Prelude.{◌≡◌};

    ghost Value = { RowGraph };

    ghost view = { λ r. record { edges = r.all.edges; vertices = r.all.vertices } };

    ghost invariant = { λ r. (r.all.first ≡ 0) × (r.all.end ≡ r.all.vertices) };
}

/// An edge to be written over.
const BLANK: OutEdge = OutEdge {
    dst: 0,
    kind: 0,
    weight: 1,
};

/// The destinations of edges, one after another.
fn destinations(alloc: Global, out: &[OutEdge]) -> Result<Vec<u32>, Memory>
    ensures { IfOk result (λ r. r.items ≡ map (λ e. e.dst) out.now) }
{
    let dsts = out.iter().map(|e| e.dst).collect(alloc)?;
    Ok(dsts)
}

/// The types of edges, one after another.
fn types(alloc: Global, out: &[OutEdge]) -> Result<Vec<u8>, Memory>
    ensures { IfOk result (λ r. r.items ≡ map (λ e. e.kind) out.now) }
{
    let kinds = out.iter().map(|e| e.kind).collect(alloc)?;
    Ok(kinds)
}

/// Counts the edges of each vertex, puts them in its row, and sorts each row.
fn stored(alloc: Global, edges: Vec<Edge>, vertices: u32) -> Result<RowRange, Memory>
    requires ends { All (λ e. (e.src < vertices) × (e.dst < vertices)) edges.items }
    requires few { length edges.items < 2 ^ 31 }
    requires weights { All (λ e. (1 ≤ e.weight) × (e.weight < 2 ^ 62)) edges.items }
    ensures { IfOk result (HoldsAll edges.items vertices) }
{
    let mut starts = row_ends(alloc, &edges, vertices)?;
    let mut out = vec![in alloc; BLANK; edges.len()]?;
    fill(&edges, &mut starts, &mut out);
    drop(edges);
    sort_rows(alloc, &starts, &mut out)?;
    let dsts = destinations(alloc, &out)?;
    let kinds = types(alloc, &out)?;
    let heads = Heads::of(alloc, &starts)?;
    Ok(RowRange {
        vertices,
        first: 0,
        end: vertices,
        count: vertices,
        heads,
        out,
        dsts,
        kinds,
    })
}

impl Rows {
    /// Puts the edges of a graph in rows: by source, destination, type, and place in the list.
    ///
    /// # Errors
    ///
    /// `Memory` where there is too little of it.
    pub fn build(alloc: Global, edges: Vec<Edge>, vertices: u32) -> Result<Rows, Memory>
        requires ends { All (λ e. (e.src < vertices) × (e.dst < vertices)) edges.items }
        requires few { length edges.items < 2 ^ 31 }
        requires weights { All (λ e. (1 ≤ e.weight) × (e.weight < 2 ^ 62)) edges.items }
        ensures vertices { IfOk result (λ r. r.vertices ≡ vertices) }
        ensures edges { IfOk result (λ r. length r.edges ≡ length edges.items) }
        ensures rows { IfOk result (λ r. (v : ℕ) → row r.edges v ≡ row edges.items v) }
        ensures has { IfOk result (λ r. (t x : ℕ) → has_edge r.edges t x ≡ has_edge edges.items t x) }
    {
        let all = stored(alloc, edges, vertices)?;
        Ok(Rows { all })
    }

    /// The number of vertices.
    pub fn vertices(&self) -> u32
        ensures { result ≡ self.now.vertices }
    {
        self.all.vertices()
    }

    /// The number of edges.
    pub fn edges(&self) -> u64
        ensures count { result ≡ length self.now.edges }
        ensures few { result < 2 ^ 31 }
    {
        self.all.edges()
    }

    /// The same rows as those of the range of all vertices. Nothing is copied.
    pub fn into_range(self) -> RowRange
        ensures { IsWhole self result }
    {
        self.all
    }

    /// The destinations of the edges from a vertex, in their order.
    #[inline]
    pub fn dsts(&self, v: u32) -> &[u32]
        requires { v < self.now.vertices }
        ensures ends { result.now ≡ ends_of (row self.now.edges v) }
        ensures few { length result.now < 2 ^ 31 }
        ensures below { All (λ t. t < self.now.vertices) result.now }
    {
        self.all.dsts(v)
    }

    /// The destination of the edge at a place of the row of `v`.
    #[inline]
    pub fn end(&self, v: u32, edge: usize) -> u32
        requires vertex { v < self.now.vertices }
        requires edge { edge < length (row self.now.edges v) }
        ensures end { result ≡ slice_index (ends_of (row self.now.edges v)) edge }
        ensures below { result < self.now.vertices }
    {
        self.all.end_of(v, edge)
    }

    /// The types of the edges from a vertex, in their order.
    #[inline]
    pub fn kinds(&self, v: u32) -> &[u8]
        requires { v < self.now.vertices }
        ensures { result.now ≡ kinds_of (row self.now.edges v) }
    {
        self.all.kinds(v)
    }

    /// The type of the edge at a place of the row of `v`.
    #[inline]
    pub fn kind(&self, v: u32, edge: usize) -> u8
        requires vertex { v < self.now.vertices }
        requires edge { edge < length (row self.now.edges v) }
        ensures { result ≡ slice_index (kinds_of (row self.now.edges v)) edge }
    {
        self.all.kind_of(v, edge)
    }

    /// The edges from a vertex by destination, then type, then place in the list.
    #[inline]
    pub fn row(&self, v: u32) -> &[OutEdge]
        requires { v < self.now.vertices }
        ensures row { result.now ≡ map out_edge (row self.now.edges v) }
        ensures few { length result.now < 2 ^ 31 }
        ensures edges { All (IsOutEdge self.now.vertices) result.now }
    {
        self.all.row(v)
    }

    /// Whether there is an edge from `t` to `x`.
    #[inline]
    pub fn has(&self, t: u32, x: u32) -> bool
        requires from { t < self.now.vertices }
        requires to { x < self.now.vertices }
        ensures { result ≡ has_edge self.now.edges t x }
    {
        self.all.has(t, x)
    }

    /// The half-open range of the places in the row of `v` whose edges end at `t`. Where there is
    /// none, both are the number of edges that end below `t`.
    #[inline]
    pub fn run(&self, v: u32, t: u32) -> (usize, usize)
        requires from { v < self.now.vertices }
        requires to { t < self.now.vertices }
        ensures from { result.0 ≡ below (Some t) (ends_of (row self.now.edges v)) }
        ensures to { result.1 ≡ result.0 + at (Some t) (ends_of (row self.now.edges v)) }
        ensures within { result.1 ≤ length (row self.now.edges v) }
    {
        self.all.run(v, t)
    }
}
