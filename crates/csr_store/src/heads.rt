//! What a step reads first of a vertex: where its row starts, and its mark.

ghost use Rattle.std.specs.Prelude.{◌≡◌, ◌<◌, ◌+◌, ◌-◌, length, map, set, slice_index, IfOk};
ghost use Rattle.csr_store.specs.HeadLists.{fresh_head, starts_from};

use std::alloc::Global;
use std::marker::Model;
use walk_model::Memory;

/// Where a row starts, and the mark of its vertex, in 8 bytes.
#[derive(Clone, Copy, Debug)]
pub(crate) struct Head {
    pub start: u32,
    pub mark: u32,
}

/// The heads of rows and one more, which starts where the last row ends, seen as the list of the starts
/// and that of the marks.
#[derive(Debug, Drop)]
pub(crate) struct Heads {
    heads: Vec<Head>,
}

impl Model for Heads {
    ghost use Rattle.csr_store.specs.HeadLists.{HeadLists, lists_of};

    ghost Value = { HeadLists };

    ghost view = { λ h. lists_of h.heads.items };
}

/// A head whose mark isn't set yet.
fn fresh_head(start: u32) -> Head
    ensures { result ≡ fresh_head start }
{
    Head { start, mark: 0 }
}

/// The heads of rows that start at these places.
fn heads_at(alloc: Global, starts: &[u32]) -> Result<Vec<Head>, Memory>
    ensures { IfOk result (λ r. r.items ≡ map fresh_head starts.now) }
{
    let heads = starts.iter().map(|p| fresh_head(*p)).collect(alloc)?;
    Ok(heads)
}

/// The heads of rows that start so many places before those of these heads.
fn moved_heads(alloc: Global, heads: &[Head], from: u32) -> Result<Vec<Head>, Memory>
    ensures { IfOk result (λ r. r.items ≡ map (λ h. fresh_head (h.start - from)) heads.now) }
{
    let moved = heads
        .iter()
        .map(|h| fresh_head(h.start.saturating_sub(from)))
        .collect(alloc)?;
    Ok(moved)
}

impl Heads {
    /// The heads of rows that start at these places, with a mark of 0 each.
    pub fn of(alloc: Global, starts: &[u32]) -> Result<Heads, Memory>
        ensures starts { IfOk result (λ h. h.starts ≡ starts.now) }
        ensures long { IfOk result (λ h. length h.marks ≡ length starts.now) }
    {
        let heads = heads_at(alloc, starts)?;
        Ok(Heads { heads })
    }

    /// The heads of some rows from one on, which start as many places earlier as lie before the first of
    /// them, with a mark of 0 each.
    pub fn copy_of(&self, alloc: Global, first: usize, count: usize) -> Result<Heads, Memory>
        requires { first + count < length self.now.starts }
        ensures starts { IfOk result (λ h. h.starts ≡ starts_from self.now.starts first count) }
        ensures long { IfOk result (λ h. length h.marks ≡ count + 1) }
    {
        let from = self.heads[first].start;
        let heads = moved_heads(alloc, &self.heads[first..first + count + 1], from)?;
        Ok(Heads { heads })
    }

    /// Where a row starts.
    #[inline]
    pub fn start(&self, row: usize) -> u32
        requires { row < length self.now.starts }
        ensures { result ≡ slice_index self.now.starts row }
    {
        self.heads[row].start
    }

    /// The mark of the vertex of a row.
    #[inline]
    pub fn mark(&self, row: usize) -> u32
        requires { row < length self.now.marks }
        ensures { result ≡ slice_index self.now.marks row }
    {
        self.heads[row].mark
    }

    /// Sets the mark of the vertex of a row.
    pub fn set_mark(&mut self, row: usize, mark: u32)
        requires { row < length self.old.marks }
        ensures starts { self.new.starts ≡ self.old.starts }
        ensures marks { self.new.marks ≡ set self.old.marks row mark }
    {
        let start = self.heads[row].start;
        self.heads[row] = Head { start, mark };
    }
}
