//! The classes and the factors of a scheme.

ghost use Rattle.std.specs.Prelude.{◌≡◌, [], ◌∷◌, None, map};
ghost use Rattle.walk_model.specs.Factor.{wanted_kind};
ghost use Rattle.metapath_walk.specs.TypeClasses.{class_of_type, known_class, classes_of_types, known_of_types, AreSchemeFactors};

use csr_store::OutEdge;
use factor_table::{Classes, FactorTable, RowClasses};
use walk_model::Kinds;

/// The type that a scheme wants in a phase: its types come in turn, again and again.
pub fn wanted(kinds: &Kinds, phase: u32) -> u8
    ensures { result ≡ wanted_kind kinds.now phase }
{
    let kinds = kinds.as_slice();
    kinds[phase as usize % kinds.len()]
}

/// The factors by class: 1 for class 0, the edges of the wanted type, and 0 for class 1, all others.
#[tactic(auto, using(crate::proofs::SchemeLaws::scheme_laws))]
pub fn scheme_factors() -> FactorTable<2>
    ensures value { result ≡ 1 ∷ 0 ∷ [] }
    ensures rule { AreSchemeFactors result }
{
    FactorTable::new([1, 0])
}

/// The class of an edge of a type: 0 where that is the wanted type, else 1.
#[inline]
pub fn class_of_type(kind: u8, wanted: u8) -> usize
    ensures { result ≡ class_of_type kind wanted }
{
    if kind == wanted { 0 } else { 1 }
}

/// A row whose edges are classed by their type. Each class is known.
#[derive(Clone, Copy, Debug)]
pub struct SchemeClasses<'a> {
    pub row: &'a [OutEdge],
    pub wanted: u8,
}

impl<'a> Classes for SchemeClasses<'a> {
    ghost known_classes = { λ s. map (known_class s.wanted) s.row.now };

    #[inline]
    fn known(&self, edge: usize) -> Option<usize> {
        Some(class_of_type(self.row[edge].kind, self.wanted))
    }
}

/// A row whose edges are classed by their type, as the list of the types of its edges. Each class is known.
#[derive(Clone, Copy, Debug)]
pub struct TypeClasses<'a> {
    pub kinds: &'a [u8],
    pub wanted: u8,
}

impl<'a> Classes for TypeClasses<'a> {
    ghost known_classes = { λ s. known_of_types s.wanted s.kinds.now };

    #[inline]
    fn known(&self, edge: usize) -> Option<usize> {
        Some(class_of_type(self.kinds[edge], self.wanted))
    }
}

impl<'a> RowClasses for TypeClasses<'a> {
    ghost classes = { λ s. classes_of_types s.wanted s.kinds.now };

    ghost back = { λ s. None };

    #[inline]
    fn class_at(&self, edge: usize) -> usize {
        class_of_type(self.kinds[edge], self.wanted)
    }

    #[inline]
    fn back(&self) -> Option<(usize, usize)> {
        None
    }
}
