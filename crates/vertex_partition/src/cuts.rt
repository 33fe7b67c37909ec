//! Cuts between parts of like cost.

ghost use Rattle.std.specs.Prelude.{◌≡◌, ◌≤◌, ◌<◌, ◌+◌, ◌*◌, ℕ, [], length, sum, take, IfOk};
ghost use Rattle.walk_model.specs.Cuts.{cuts_of, owner};
ghost use Rattle.walk_model.specs.Lists.{front_reaching};
ghost use Rattle.vertex_partition.specs.Balance.{AreLike};
ghost use Rattle.vertex_partition.specs.CutViews.{AreCuts, begin_of, end_of};
ghost use Rattle.vertex_partition.specs.Fronts.{IsFront, scaled};
ghost use Rattle.vertex_partition.specs.Limits.{most_cost, most_parts, most_vertices};

use std::alloc::Global;
use std::marker::Model;
use walk_model::Memory;

/// The cuts between the parts into which the vertices of a graph fall, seen as the number of vertices
/// and the cuts, which rise. Each part has the vertices between two cuts.
#[derive(Debug, Drop)]
pub struct Cuts {
    vertices: u32,
    cuts: Vec<u32>,
}

impl Model for Cuts {
    ghost use Rattle.vertex_partition.specs.CutViews.{CutView, AreCuts};

    ghost Value = { CutView };

    ghost view = { λ c. record { vertices = c.vertices; cuts = c.cuts.items } };

    ghost invariant = { λ c. AreCuts c.vertices c.cuts.items };
}

/// The first vertices, and what they cost.
#[derive(Clone, Copy)]
pub(crate) struct Front {
    pub count: usize,
    pub cost: u64,
}

/// The cost of all vertices.
fn total(costs: &[u64]) -> u64
    requires { sum costs.now ≤ most_cost }
    ensures { result ≡ sum costs.now }
{
    costs.iter().sum()
}

/// Goes on to the least number of vertices whose costs, times the parts, reach a sum.
fn reach(costs: &[u64], parts: u64, least: u64, from: Front) -> Front
    requires sum { sum costs.now ≤ most_cost }
    requires parts { parts ≤ most_parts }
    requires from { IsFront costs.now parts least from }
    ensures front { IsFront costs.now parts least result }
    ensures reaches { result.count ≡ front_reaching least (scaled parts costs.now) }
{
    let mut front = from;
    while front.count < costs.len() && front.cost * parts < least {
        front = Front {
            count: front.count + 1,
            cost: front.cost + costs[front.count],
        };
    }
    front
}

impl Cuts {
    /// Cuts vertices, each with a cost, into parts: before cut `k` there are as few of them as cost at
    /// least `k` shares of the whole.
    ///
    /// There are 1 to 256 parts, and at most 16,777,216 vertices, which cost at most 2^32 together.
    ///
    /// # Errors
    ///
    /// `Memory` where there is too little of it.
    pub fn balanced(alloc: Global, costs: &[u64], parts: u32) -> Result<Cuts, Memory>
        requires some { 1 ≤ parts }
        requires few { parts ≤ most_parts }
        requires vertices { length costs.now ≤ most_vertices }
        requires sum { sum costs.now ≤ most_cost }
        ensures cuts { IfOk result (λ c. c.cuts ≡ cuts_of costs.now parts) }
        ensures vertices { IfOk result (λ c. c.vertices ≡ length costs.now) }
        ensures balance { IfOk result (λ c. AreLike costs.now parts c.cuts) }
    {
        let all = total(costs);
        let mut cuts = Vec::with_capacity(alloc, parts as usize)?;
        let mut front = Front { count: 0, cost: 0 };
        for k in 1..parts {
            front = reach(costs, u64::from(parts), u64::from(k) * all, front);
            cuts.push(front.count as u32)?;
        }
        Ok(Cuts {
            vertices: costs.len() as u32,
            cuts,
        })
    }

    /// No cut: one part has all of so many vertices. It takes no memory.
    pub fn none(alloc: Global, vertices: u32) -> Cuts
        ensures cuts { result.cuts ≡ [] }
        ensures vertices { result.vertices ≡ vertices }
    {
        Cuts {
            vertices,
            cuts: Vec::new(alloc),
        }
    }

    /// The number of parts.
    #[inline]
    pub fn parts(&self) -> u32
        ensures parts { result ≡ length self.now.cuts + 1 }
        ensures few { result ≤ most_parts }
        ensures cuts { AreCuts self.now.vertices self.now.cuts }
    {
        self.cuts.len() as u32 + 1
    }

    /// The number of vertices.
    #[inline]
    pub fn vertices(&self) -> u32
        ensures { result ≡ self.now.vertices }
    {
        self.vertices
    }

    /// The part that owns a vertex.
    #[inline]
    pub fn owner(&self, v: u32) -> u32
        ensures owner { result ≡ owner self.now.cuts v }
        ensures part { result ≤ length self.now.cuts }
    {
        self.cuts.partition_point(|cut| *cut <= v) as u32
    }

    /// The first vertex of a part, where it has one.
    #[inline]
    pub fn begin(&self, part: u32) -> u32
        requires { part ≤ length self.now.cuts }
        ensures begin { result ≡ begin_of self.now.cuts part }
        ensures order { result ≤ end_of self.now.vertices self.now.cuts part }
    {
        if part == 0 {
            0
        } else {
            self.cuts[part as usize - 1]
        }
    }

    /// The vertex behind the last one of a part.
    #[inline]
    pub fn end(&self, part: u32) -> u32
        ensures end { result ≡ end_of self.now.vertices self.now.cuts part }
        ensures within { result ≤ self.now.vertices }
    {
        match self.cuts.get(part as usize) {
            Some(cut) => *cut,
            None => self.vertices,
        }
    }

    /// The same cuts once more.
    ///
    /// # Errors
    ///
    /// `Memory` where there is too little of it.
    pub fn copy(&self, alloc: Global) -> Result<Cuts, Memory>
        ensures same { IfOk result (λ c. c ≡ self.now) }
        ensures cuts { AreCuts self.now.vertices self.now.cuts }
    {
        let cuts = self.cuts.to_vec(alloc)?;
        Ok(Cuts {
            vertices: self.vertices,
            cuts,
        })
    }
}
