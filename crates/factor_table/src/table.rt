//! The factors of classes.

ghost use Rattle.std.specs.Prelude.{◌≡◌, ◌≤◌, ◌<◌, ◌^◌, length, drop, slice_index, All, Any};
ghost use Rattle.factor_table.specs.Factors.{greatest_of, least_of};

use crate::extremes::{greatest_in, least_in};
use std::marker::Model;

/// The factors of `K` classes, seen as their list.
#[derive(Debug, Drop)]
pub struct FactorTable<const K: usize> {
    factors: [u64; K],
    greatest: u64,
    least: u64,
    // the greatest and the least of the classes other than class 0
    greatest_other: u64,
    least_other: u64,
}

impl<const K: usize> Model for FactorTable<K> {
    ghost use Rattle.std.specs.Prelude.{◌≡◌, List, ℕ, length, drop};

    ghost Value = { List ℕ };

    ghost view = { λ t. t.factors };

    ghost use Rattle.factor_table.specs.Factors.{IsTable};

    ghost invariant = { λ t. IsTable K t.factors t.greatest t.least t.greatest_other t.least_other };
}

impl<const K: usize> FactorTable<K> {
    /// The table of the factors of the classes in order, each at most 2^40 and one of them at least 1.
    pub fn new(factors: [u64; K]) -> FactorTable<K>
        requires bound { All (λ f. f ≤ 2 ^ 40) factors }
        requires some { Any (λ f. 1 ≤ f) factors }
        ensures { result ≡ factors.entry }
    {
        let all = &factors[..];
        let others = &all[1..];
        FactorTable {
            greatest: greatest_in(all),
            least: least_in(all),
            greatest_other: greatest_in(others),
            least_other: least_in(others),
            factors,
        }
    }

    /// The factors, by class.
    #[inline]
    pub fn as_slice(&self) -> &[u64]
        ensures value { result.now ≡ self.now }
        ensures classes { length self.now ≡ K }
    {
        &self.factors
    }

    /// The factor of a class.
    #[inline]
    pub fn factor(&self, class: usize) -> u64
        requires { class < K }
        ensures value { result ≡ slice_index self.now class }
        ensures bound { result ≤ 2 ^ 40 }
        ensures classes { length self.now ≡ K }
    {
        self.factors[class]
    }

    /// The greatest factor.
    #[tactic(auto, using(crate::proofs::FactorLaws::bound_laws))]
    #[inline]
    pub fn greatest(&self) -> u64
        ensures value { result ≡ greatest_of self.now }
        ensures some { 1 ≤ result }
        ensures bound { result ≤ 2 ^ 40 }
        ensures classes { length self.now ≡ K }
    {
        self.greatest
    }

    /// The least factor.
    #[tactic(auto, using(crate::proofs::FactorLaws::bound_laws))]
    #[inline]
    pub fn least(&self) -> u64
        ensures value { result ≡ least_of self.now }
        ensures bound { result ≤ 2 ^ 40 }
        ensures classes { length self.now ≡ K }
    {
        self.least
    }

    /// The factors of the classes from one on.
    fn factors_from(&self, first: usize) -> &[u64]
        ensures value { result.now ≡ drop first self.now }
    {
        let all = &self.factors[..];
        all.get(first..).unwrap_or(&[])
    }

    /// The greatest factor of the classes from one on, or 0 where there are none.
    #[tactic(auto, using(crate::proofs::FactorLaws::bound_laws))]
    #[inline]
    pub fn greatest_from(&self, first: usize) -> u64
        ensures value { result ≡ greatest_of (drop first self.now) }
        ensures bound { result ≤ 2 ^ 40 }
        ensures classes { length self.now ≡ K }
    {
        match first {
            0 => self.greatest,
            1 => self.greatest_other,
            _ => greatest_in(self.factors_from(first)),
        }
    }

    /// The least factor of the classes from one on, or 0 where there are none.
    #[tactic(auto, using(crate::proofs::FactorLaws::bound_laws))]
    #[inline]
    pub fn least_from(&self, first: usize) -> u64
        ensures value { result ≡ least_of (drop first self.now) }
        ensures bound { result ≤ 2 ^ 40 }
        ensures classes { length self.now ≡ K }
    {
        match first {
            0 => self.least,
            1 => self.least_other,
            _ => least_in(self.factors_from(first)),
        }
    }
}
