//! The classes and the factors of node2vec.

ghost use Rattle.std.specs.Prelude.{◌≡◌, ◌≤◌, ◌<◌, ◌*◌, map, IfSome, IfNone};
ghost use Rattle.node2vec_walk.specs.Nearness.{class_to, known_to, known_class, class_factors, zone_of, AreNodeFactors};

use csr_store::OutEdge;
use factor_table::{Classes, FactorTable};
use walk_model::Fraction;

/// The product of two parts of fractions.
fn product(a: u32, b: u32) -> u64
    ensures { result ≡ a * b }
{
    u64::from(a) * u64::from(b)
}

/// The factors by class, 1/p and 1 and 1/q over one denominator: class 0 of edges back to the previous
/// vertex, class 1 of edges to its neighbours, class 2 of all others.
#[tactic(auto, using(crate::proofs::NodeLaws::node_laws))]
pub fn node_factors(p: Fraction, q: Fraction) -> FactorTable<3>
    requires p { 1 ≤ p.top }
    requires q { 1 ≤ q.top }
    ensures value { result ≡ class_factors p q }
    ensures rule { AreNodeFactors p q result }
{
    FactorTable::new([
        product(p.bottom, q.top),
        product(p.top, q.top),
        product(p.top, q.bottom),
    ])
}

/// A row of which is known which edges go back to the previous vertex. Whether another edge is near
/// has to be asked.
#[derive(Clone, Copy, Debug)]
pub struct NodeClasses<'a> {
    pub row: &'a [OutEdge],
    pub back: u32,
}

impl<'a> Classes for NodeClasses<'a> {
    ghost known_classes = { λ s. map (known_class s.back) s.row.now };

    #[inline]
    fn known(&self, edge: usize) -> Option<usize> {
        known_class(self.row[edge].dst, self.back)
    }
}

/// The class of an edge to `x` after a step from `back`, where it is known without asking.
#[inline]
pub fn known_class(x: u32, back: u32) -> Option<usize>
    ensures { result ≡ known_to x back }
{
    (x == back).then_some(0)
}

/// The class of an edge to `x` after a step from `back`, where it is known whether there is an edge from
/// `back` to `x`.
#[inline]
pub fn class_of(x: u32, back: u32, near: bool) -> usize
    ensures class { result ≡ class_to x back near }
    ensures below { result < 3 }
    ensures known { IfSome (known_to x back) (λ class. result ≡ class) }
    ensures unknown { IfNone (known_to x back) (1 ≤ result) }
{
    if x == back {
        0
    } else if near {
        1
    } else {
        2
    }
}

/// The least and the greatest of the factors of classes 1 and 2, which are a board's where class 0 is that
/// of the return edges. A dart whose height lies from the one up to below the other wants to know an edge's
/// class.
#[inline]
pub fn zone(factors: &FactorTable<3>) -> (u64, u64)
    ensures { result ≡ zone_of factors.now }
{
    (factors.least_from(1), factors.greatest_from(1))
}
