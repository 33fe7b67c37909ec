//! The rows of a range of vertices, as they are stored and asked.

ghost use Rattle.std.specs.Prelude.{◌≡◌, ◌≢◌, ◌≤◌, ◌<◌, ◌+◌, ◌^◌, ℕ, length, map, slice_index, IfOk, All, Some};
ghost use Rattle.walk_model.specs.Graph.{row, has_edge, ends_of};
ghost use Rattle.walk_model.specs.Dart.{ends_below as below, ends_at as at};
ghost use Rattle.csr_store.specs.OutEdges.{out_edge, kinds_of};
ghost use Rattle.csr_store.specs.RowGraph.{IsIn, HoldsRange, HasSameRows, mark_of};
ghost use Rattle.csr_store.specs.Shelves.{IsOutEdge};

use crate::heads::Heads;
use crate::out_edge::OutEdge;
use crate::searching::{ends_at, ends_below};
use std::alloc::Global;
use std::marker::Model;
use walk_model::Memory;

/// The edges from the vertices of a range in rows, seen as these edges, row by row, the number of all
/// vertices, the range, and a mark beside each of its vertices, which is the caller's to set.
///
/// A vertex takes 8 bytes: its mark stands beside the start of its row. An edge takes 21 bytes: 16 in its row, 4 for its destination in a list of destinations alone, which
/// steps and searches read, and 1 for its type in a list of types alone, which steps by a scheme read.
#[derive(Debug, Drop)]
pub struct RowRange {
    // of all vertices
    pub(crate) vertices: u32,
    // the first vertex of the range, the one behind its last, and how many there are in it
    pub(crate) first: u32,
    pub(crate) end: u32,
    pub(crate) count: u32,
    pub(crate) heads: Heads,
    pub(crate) out: Vec<OutEdge>,
    pub(crate) dsts: Vec<u32>,
    pub(crate) kinds: Vec<u8>,
}

impl Model for RowRange {
    ghost use Rattle.csr_store.specs.RowGraph.{RangeGraph};

    ghost Value = { RangeGraph };

    ghost use Rattle.csr_store.specs.Stored.{graph_of, IsStored};

    ghost view = { graph_of };

    ghost invariant = { IsStored };
}

impl RowRange {
    /// The number of all vertices.
    #[inline]
    pub fn vertices(&self) -> u32
        ensures vertices { result ≡ self.now.vertices }
        ensures range { self.now.end ≤ result }
    {
        self.vertices
    }

    /// The first vertex of the range.
    #[inline]
    pub fn first(&self) -> u32
        ensures first { result ≡ self.now.first }
        ensures range { result ≤ self.now.end }
    {
        self.first
    }

    /// The vertex behind the last one of the range.
    #[inline]
    pub fn end(&self) -> u32
        ensures end { result ≡ self.now.end }
        ensures range { result ≤ self.now.vertices }
    {
        self.end
    }

    /// The number of edges from the vertices of the range.
    pub fn edges(&self) -> u64
        ensures count { result ≡ length self.now.edges }
        ensures few { result < 2 ^ 31 }
    {
        self.out.len() as u64
    }

    /// The destinations of the edges from a vertex, in their order.
    #[inline]
    pub fn dsts(&self, v: u32) -> &[u32]
        requires { IsIn self.now v }
        ensures ends { result.now ≡ ends_of (row self.now.edges v) }
        ensures few { length result.now < 2 ^ 31 }
        ensures below { All (λ t. t < self.now.vertices) result.now }
    {
        let n = (v - self.first) as usize;
        let (from, to) = (self.heads.start(n), self.heads.start(n + 1));
        &self.dsts[from as usize..to as usize]
    }

    /// The destination of the edge at a place of the row of `v`.
    #[inline]
    pub fn end_of(&self, v: u32, edge: usize) -> u32
        requires vertex { IsIn self.now v }
        requires edge { edge < length (row self.now.edges v) }
        ensures end { result ≡ slice_index (ends_of (row self.now.edges v)) edge }
        ensures below { result < self.now.vertices }
    {
        self.dsts(v)[edge]
    }

    /// The types of the edges from a vertex, in their order.
    #[inline]
    pub fn kinds(&self, v: u32) -> &[u8]
        requires { IsIn self.now v }
        ensures { result.now ≡ kinds_of (row self.now.edges v) }
    {
        let n = (v - self.first) as usize;
        let (from, to) = (self.heads.start(n), self.heads.start(n + 1));
        &self.kinds[from as usize..to as usize]
    }

    /// The type of the edge at a place of the row of `v`.
    #[inline]
    pub fn kind_of(&self, v: u32, edge: usize) -> u8
        requires vertex { IsIn self.now v }
        requires edge { edge < length (row self.now.edges v) }
        ensures { result ≡ slice_index (kinds_of (row self.now.edges v)) edge }
    {
        self.kinds(v)[edge]
    }

    /// The edges from a vertex by destination, then type, then place in the list.
    #[inline]
    pub fn row(&self, v: u32) -> &[OutEdge]
        requires { IsIn self.now v }
        ensures row { result.now ≡ map out_edge (row self.now.edges v) }
        ensures few { length result.now < 2 ^ 31 }
        ensures edges { All (IsOutEdge self.now.vertices) result.now }
    {
        let n = (v - self.first) as usize;
        let (from, to) = (self.heads.start(n), self.heads.start(n + 1));
        &self.out[from as usize..to as usize]
    }

    /// Whether there is an edge from `t` to `x`.
    #[inline]
    pub fn has(&self, t: u32, x: u32) -> bool
        requires from { IsIn self.now t }
        requires to { x < self.now.vertices }
        ensures { result ≡ has_edge self.now.edges t x }
    {
        let dsts = self.dsts(t);
        let place = ends_below(dsts, x);
        place < dsts.len() && dsts[place] == x
    }

    /// The half-open range of the places in the row of `v` whose edges end at `t`. Where there is
    /// none, both are the number of edges that end below `t`.
    #[inline]
    pub fn run(&self, v: u32, t: u32) -> (usize, usize)
        requires from { IsIn self.now v }
        requires to { t < self.now.vertices }
        ensures from { result.0 ≡ below (Some t) (ends_of (row self.now.edges v)) }
        ensures to { result.1 ≡ result.0 + at (Some t) (ends_of (row self.now.edges v)) }
        ensures within { result.1 ≤ length (row self.now.edges v) }
    {
        let dsts = self.dsts(v);
        let from = ends_below(dsts, t);
        let count = ends_at(&dsts[from..], t);
        (from, from + count)
    }

    /// The mark of a vertex, which says nothing before it is set.
    #[inline]
    pub fn mark(&self, v: u32) -> u32
        requires { IsIn self.now v }
        ensures { result ≡ mark_of self.now v }
    {
        self.heads.mark((v - self.first) as usize)
    }

    /// Sets the mark of a vertex.
    pub fn set_mark(&mut self, v: u32, mark: u32)
        requires { IsIn self.old v }
        ensures mark { mark_of self.new v ≡ mark }
        ensures others { (u : ℕ) → IsIn self.old u → u ≢ v → mark_of self.new u ≡ mark_of self.old u }
        ensures rows { HasSameRows self.old self.new }
    {
        self.heads.set_mark((v - self.first) as usize, mark);
    }

    /// A copy of the rows of a lesser range, without marks.
    ///
    /// # Errors
    ///
    /// `Memory` where there is too little of it.
    pub fn copy_of(&self, alloc: Global, first: u32, end: u32) -> Result<RowRange, Memory>
        requires from { self.now.first ≤ first }
        requires order { first ≤ end }
        requires to { end ≤ self.now.end }
        ensures { IfOk result (HoldsRange self.now.edges self.now.vertices first end) }
    {
        let n = (first - self.first) as usize;
        let count = end - first;
        let from = self.heads.start(n) as usize;
        let to = self.heads.start(n + count as usize) as usize;
        let heads = self.heads.copy_of(alloc, n, count as usize)?;
        let out = self.out[from..to].to_vec(alloc)?;
        let dsts = self.dsts[from..to].to_vec(alloc)?;
        let kinds = self.kinds[from..to].to_vec(alloc)?;
        Ok(RowRange {
            vertices: self.vertices,
            first,
            end,
            count,
            heads,
            out,
            dsts,
            kinds,
        })
    }
}
