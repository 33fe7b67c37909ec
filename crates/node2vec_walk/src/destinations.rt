//! The classes that a step asks, told by the destinations of two rows.

ghost use Rattle.std.specs.Prelude.{◌≡◌, ◌≤◌, ◌<◌, Some, length};
ghost use Rattle.std.specs.List.Sorted.{IsNonDecreasing};
ghost use Rattle.node2vec_walk.specs.Destinations.{is_among, classes_to, known_of, strip_run};

use crate::nearness::{class_of, known_class};
use csr_store::{ends_at, ends_below};
use factor_table::{Classes, FactorTable, RowClasses};

/// Whether a vertex is among the destinations of a row, which don't fall.
#[inline]
pub fn is_near(before: &[u32], x: u32) -> bool
    requires { IsNonDecreasing before.now }
    ensures { result ≡ is_among before.now x }
{
    let place = ends_below(before, x);
    place < before.len() && before[place] == x
}

/// The run of the edges back to a vertex in a row with these destinations, which don't fall: the place of the
/// first one and the one behind the last. Where their factor doesn't rise above the others, a board has no
/// strip, and the run is (0, 0) without a search.
#[inline]
pub fn return_run(factors: &FactorTable<3>, dsts: &[u32], back: u32) -> (usize, usize)
    requires { IsNonDecreasing dsts.now }
    ensures run { result ≡ strip_run factors.now dsts.now back }
    ensures order { result.0 ≤ result.1 }
    ensures within { result.1 ≤ length dsts.now }
{
    if factors.factor(0) <= factors.greatest_from(1) {
        return (0, 0);
    }
    let from = ends_below(dsts, back);
    (from, from + ends_at(&dsts[from..], back))
}

/// A row after a step from another vertex, as the destinations of both. It knows which edges go back, and
/// whether any other is near can be asked.
#[derive(Clone, Copy, Debug)]
pub struct NearClasses<'a> {
    /// The destinations of the row.
    pub dsts: &'a [u32],
    /// The vertex before.
    pub back: u32,
    /// The destinations of that vertex's row, which don't fall.
    pub before: &'a [u32],
    /// The run of the edges back, as `return_run` gives it.
    pub run: (usize, usize),
    ghost in_order: { IsNonDecreasing before.now },
}

impl<'a> Classes for NearClasses<'a> {
    ghost known_classes = { λ s. known_of s.back s.dsts.now };

    #[inline]
    fn known(&self, edge: usize) -> Option<usize> {
        known_class(self.dsts[edge], self.back)
    }
}

impl<'a> RowClasses for NearClasses<'a> {
    ghost classes = { λ s. classes_to s.before.now s.back s.dsts.now };

    ghost back = { λ s. Some s.run };

    #[inline]
    fn class_at(&self, edge: usize) -> usize {
        let to = self.dsts[edge];
        class_of(to, self.back, is_near(self.before, to))
    }

    #[inline]
    fn back(&self) -> Option<(usize, usize)> {
        Some(self.run)
    }
}
