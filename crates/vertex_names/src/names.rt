//! Ids and ranks.

ghost use Rattle.std.specs.Prelude.{◌≡◌, ◌≤◌, ◌+◌, ◌^◌, ◌<◌, ℕ, map, length, slice_index, IfOk, IfSome, All, Some, IsTrue};
ghost use Rattle.std.specs.List.Sorted.{IsStrictlyIncreasing};
ghost use Rattle.walk_model.specs.Graph.{vertices_of};
ghost use Rattle.vertex_names.specs.Ranks.{is_name, rank_in, rank_of, ranked, AreNamed};

use crate::collecting::ids_of;
use crate::indexing::{bucket_starts, find, shift_for};
use std::alloc::Global;
use std::marker::Model;
use walk_model::{Edge, Memory};

/// The ids of a graph's vertices, seen as a rising list. An id's rank is its place in it.
#[derive(Debug, Drop)]
pub struct Names {
    ids: Vec<u32>,
    first: u32,
    dense: bool,
    shift: u32,
    starts: Vec<u32>,
}

impl Model for Names {
    ghost use Rattle.std.specs.Prelude.{List, ℕ};

    ghost Value = { List ℕ };

    ghost use Rattle.vertex_names.specs.Known.{AreKept};

    ghost view = { λ n. n.ids.items };

    ghost invariant = { AreKept };
}

impl Names {
    /// Collects every source and destination of the edges.
    ///
    /// # Errors
    ///
    /// `Memory` where there is too little of it.
    pub fn of(alloc: Global, edges: &[Edge]) -> Result<Names, Memory>
        requires { length edges.now < 2 ^ 31 }
        ensures names { IfOk result (λ r. r ≡ vertices_of edges.now) }
        ensures ends { IfOk result (λ r. AreNamed r edges.now) }
    {
        let ids = ids_of(alloc, edges)?;
        let names = indexed(alloc, ids)?;
        Ok(names)
    }

    /// The number of vertices.
    pub fn len(&self) -> u32
        ensures count { result ≡ length self.now }
        ensures rising { IsStrictlyIncreasing self.now }
    {
        self.ids.len() as u32
    }

    /// The rank of an id, or `None` where no vertex has it.
    pub fn rank(&self, id: u32) -> Option<u32>
        ensures rank { result ≡ rank_of self.now id }
        ensures id { IfSome result (λ r. (r < length self.now) × (slice_index self.now r ≡ id)) }
    {
        if id < self.first {
            return None;
        }
        let offset = id - self.first;
        if self.dense {
            return if (offset as usize) < self.ids.len() {
                Some(offset)
            } else {
                None
            };
        }
        find(&self.ids, &self.starts, self.first, self.shift, id)
    }

    /// The id of a rank.
    pub fn id(&self, rank: u32) -> u32
        requires { rank < length self.now }
        ensures id { result ≡ slice_index self.now rank }
        ensures rank { rank_of self.now result ≡ Some rank }
    {
        self.ids[rank as usize]
    }

    /// The rank of an id that a vertex has.
    fn known(&self, id: u32) -> u32
        requires { IsTrue (is_name self.now id) }
        ensures { result ≡ rank_in self.now id }
    {
        match self.rank(id) {
            Some(rank) => rank,
            None => unreachable!(),
        }
    }

    /// Whether each id is its own rank.
    #[tactic(auto, using(crate::proofs::NameLaws::ranks_own))]
    fn are_ranks(&self) -> bool
        ensures { IsTrue result → (id : ℕ) → IsTrue (is_name self.now id) → rank_in self.now id ≡ id }
    {
        self.dense && self.first == 0
    }

    /// Puts ranks in place of ids, and keeps all else.
    pub fn rename(&self, edges: &mut [Edge])
        requires { AreNamed self.now edges.old }
        ensures edges { edges.new ≡ map (ranked self.now) edges.old }
        ensures ends { All (λ e. (e.src < length self.now) × (e.dst < length self.now)) edges.new }
        ensures weights { All (λ e. (1 ≤ e.weight) × (e.weight < 2 ^ 62)) edges.old → All (λ e. (1 ≤ e.weight) × (e.weight < 2 ^ 62)) edges.new }
    {
        if self.are_ranks() {
            return;
        }
        for e in edges.iter_mut() {
            *e = Edge {
                src: self.known(e.src),
                dst: self.known(e.dst),
                weight: e.weight,
                kind: e.kind,
            };
        }
    }
}

/// Rising ids with an index over them.
fn indexed(alloc: Global, ids: Vec<u32>) -> Result<Names, Memory>
    requires rising { IsStrictlyIncreasing ids.items }
    requires few { length ids.items < 2 ^ 32 }
    ensures { IfOk result (λ r. r ≡ ids.items) }
{
    let count = ids.len();
    if count == 0 {
        return Ok(Names {
            ids,
            first: 0,
            dense: true,
            shift: 0,
            starts: Vec::new(alloc),
        });
    }
    let first = ids[0];
    let span = ids[count - 1] - first;
    if span as usize == count - 1 {
        return Ok(Names {
            ids,
            first,
            dense: true,
            shift: 0,
            starts: Vec::new(alloc),
        });
    }
    let shift = shift_for(span, count);
    let starts = bucket_starts(alloc, &ids, first, shift)?;
    Ok(Names {
        ids,
        first,
        dense: false,
        shift,
        starts,
    })
}
