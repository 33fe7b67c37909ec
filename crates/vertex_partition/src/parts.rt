//! A part: the rows of the vertices that it owns, with their tables.

ghost use Rattle.std.specs.Prelude.{◌≡◌, ◌≤◌, ◌<◌, ◌+◌, ◌^◌, ◌==◌, ℕ, [], length, map, slice_index, All, IfOk, IfSome, IfNone, Some};
ghost use Rattle.walk_model.specs.Graph.{row, has_edge, ends_of, weights_of};
ghost use Rattle.walk_model.specs.Dart.{ends_below as below, ends_at as at};
ghost use Rattle.walk_model.specs.Cuts.{owner};
ghost use Rattle.csr_store.specs.OutEdges.{out_edge, kinds_of};
ghost use Rattle.csr_store.specs.Shelves.{IsOutEdge};
ghost use Rattle.alias_table.specs.Columns.{IsRow};
ghost use Rattle.vertex_partition.specs.CutViews.{begin_of, end_of};
ghost use Rattle.vertex_partition.specs.Limits.{most_parts};
ghost use Rattle.vertex_partition.specs.PartViews.{Owns};

use crate::cuts::Cuts;
use crate::tabling::tables_by;
use alias_table::AliasTable;
use csr_store::{OutEdge, RowRange};
use std::marker::Model;
use std::thread::Threads;
use walk_model::Memory;

/// A part of a graph: the rows of the vertices that it owns, and the table of each row that isn't empty,
/// by the static weights. It is seen as its number, the cuts between all parts, whether weights count,
/// the number of all vertices, and the edges from its own vertices.
#[derive(Drop)]
pub struct PartRows {
    part: u32,
    weighted: bool,
    cuts: Cuts,
    rows: RowRange,
    // by their numbers, which mark the vertices of the rows
    tables: Vec<AliasTable>,
}

impl Model for PartRows {
    ghost use Rattle.vertex_partition.specs.PartViews.{PartView};

    ghost Value = { PartView };

    ghost use Rattle.vertex_partition.specs.StoredParts.{HoldsPart};

    ghost view = { λ p. record {
      part = p.part;
      cuts = p.cuts.cuts;
      weighted = p.weighted;
      vertices = p.rows.vertices;
      edges = p.rows.edges;
    } };

    ghost invariant = { λ p. HoldsPart p.part p.weighted p.cuts p.rows p.tables.items };
}

impl PartRows {
    ghost use Rattle.vertex_partition.specs.PartViews.{PartView};

    /// The part of these rows, with their tables.
    pub(crate) fn of<R: Threads + Sync + AllocGlobal>(
        rt: &R,
        mut rows: RowRange,
        weighted: bool,
        cuts: &Cuts,
        part: u32,
    ) -> Result<PartRows, Memory>
        requires part { part ≤ length cuts.now.cuts }
        requires vertices { rows.vertices ≡ cuts.now.vertices }
        requires first { rows.first ≡ begin_of cuts.now.cuts part }
        requires end { rows.end ≡ end_of cuts.now.vertices cuts.now.cuts part }
        ensures { IfOk result (λ p. p ≡ record { part = part; cuts = cuts.now.cuts; weighted = weighted; vertices = rows.vertices; edges = rows.edges }) }
    {
        let cuts = cuts.copy(rt.alloc())?;
        let tables = tables_by(rt, &mut rows, weighted)?;
        Ok(PartRows {
            part,
            weighted,
            cuts,
            rows,
            tables,
        })
    }

    /// The number of this part.
    #[inline]
    pub fn part(&self) -> u32
        ensures part { result ≡ self.now.part }
        ensures low { result ≤ length self.now.cuts }
    {
        self.part
    }

    /// The number of all parts.
    #[inline]
    pub fn parts(&self) -> u32
        ensures parts { result ≡ length self.now.cuts + 1 }
        ensures few { result ≤ most_parts }
    {
        self.cuts.parts()
    }

    /// The number of all vertices.
    #[inline]
    pub fn vertices(&self) -> u32
        ensures { result ≡ self.now.vertices }
    {
        self.rows.vertices()
    }

    /// Whether the weights of edges count in the tables.
    #[inline]
    pub fn weighted(&self) -> bool
        ensures { result ≡ self.now.weighted }
    {
        self.weighted
    }

    /// The part that owns a vertex.
    #[inline]
    pub fn owner(&self, v: u32) -> u32
        ensures owner { result ≡ owner self.now.cuts v }
        ensures part { result ≤ length self.now.cuts }
    {
        self.cuts.owner(v)
    }

    /// Whether this part owns a vertex, by two comparisons.
    #[inline]
    pub fn owns(&self, v: u32) -> bool
        requires { v < self.now.vertices }
        ensures { result ≡ (owner self.now.cuts v == self.now.part) }
    {
        self.rows.first() <= v && v < self.rows.end()
    }

    /// The edges from a vertex by destination, then type, then place in the list.
    #[inline]
    pub fn row(&self, v: u32) -> &[OutEdge]
        requires { Owns self.now v }
        ensures row { result.now ≡ map out_edge (row self.now.edges v) }
        ensures few { length result.now < 2 ^ 31 }
        ensures edges { All (IsOutEdge self.now.vertices) result.now }
    {
        self.rows.row(v)
    }

    /// The destinations of the edges from a vertex, in their order.
    #[inline]
    pub fn dsts(&self, v: u32) -> &[u32]
        requires { Owns self.now v }
        ensures ends { result.now ≡ ends_of (row self.now.edges v) }
        ensures few { length result.now < 2 ^ 31 }
        ensures below { All (λ t. t < self.now.vertices) result.now }
    {
        self.rows.dsts(v)
    }

    /// The types of the edges from a vertex, in their order.
    #[inline]
    pub fn kinds(&self, v: u32) -> &[u8]
        requires { Owns self.now v }
        ensures { result.now ≡ kinds_of (row self.now.edges v) }
    {
        self.rows.kinds(v)
    }

    /// The destination of the edge at a place of the row of `v`.
    #[inline]
    pub fn end(&self, v: u32, edge: usize) -> u32
        requires vertex { Owns self.now v }
        requires edge { edge < length (row self.now.edges v) }
        ensures end { result ≡ slice_index (ends_of (row self.now.edges v)) edge }
        ensures below { result < self.now.vertices }
    {
        self.rows.end_of(v, edge)
    }

    /// The type of the edge at a place of the row of `v`.
    #[inline]
    pub fn kind(&self, v: u32, edge: usize) -> u8
        requires vertex { Owns self.now v }
        requires edge { edge < length (row self.now.edges v) }
        ensures { result ≡ slice_index (kinds_of (row self.now.edges v)) edge }
    {
        self.rows.kind_of(v, edge)
    }

    /// Whether there is an edge from `t` to `x`.
    #[inline]
    pub fn has(&self, t: u32, x: u32) -> bool
        requires from { Owns self.now t }
        requires to { x < self.now.vertices }
        ensures { result ≡ has_edge self.now.edges t x }
    {
        self.rows.has(t, x)
    }

    /// The half-open range of the places in the row of `v` whose edges end at `t`. Where there is
    /// none, both are the number of edges that end below `t`.
    #[inline]
    pub fn run(&self, v: u32, t: u32) -> (usize, usize)
        requires from { Owns self.now v }
        requires to { t < self.now.vertices }
        ensures from { result.0 ≡ below (Some t) (ends_of (row self.now.edges v)) }
        ensures to { result.1 ≡ result.0 + at (Some t) (ends_of (row self.now.edges v)) }
        ensures within { result.1 ≤ length (row self.now.edges v) }
    {
        self.rows.run(v, t)
    }

    /// The table of the edges from a vertex, if there are any.
    #[inline]
    pub fn table(&self, v: u32) -> Option<&AliasTable>
        requires { Owns self.now v }
        ensures table { IfSome result (λ t. weights_of self.now.weighted (row self.now.edges v) ≡ t.now) }
        ensures row { IfSome result (λ t. IsRow t.now) }
        ensures none { IfNone result (weights_of self.now.weighted (row self.now.edges v) ≡ []) }
    {
        if self.rows.row(v).is_empty() {
            return None;
        }
        let number = self.rows.mark(v);
        Some(&self.tables[number as usize])
    }
}
