//! The board of a row over a factor table.

ghost use Rattle.std.specs.Prelude.{◌≡◌, ℕ, ◌≤◌, ◌<◌, ◌+◌, ◌*◌, ◌/◌, ◌%◌, ◌^◌, List, Option, length, sum, nat_lt, slice_index, drop, IfSome, Any};
ghost use Rattle.walk_model.specs.Words.{fold_word};
ghost use Rattle.walk_model.specs.Dart.{main_area, area};
ghost use Rattle.factor_table.specs.Factors.{greatest_of, least_of};
ghost use Rattle.dart_envelope.specs.ClassBoards.{ClassBoard, class_board, first_other, run_weights, rise, frame, known_at};
ghost use Rattle.dart_envelope.specs.Conditions.{HaveFactors, IsReturnRun};
ghost use Rattle.dart_envelope.specs.Hits.{HasFairHits, HasFairHitsOf};
ghost use Rattle.dart_envelope.specs.Verdicts.{judged, verdict_at, verdict_of, columns_read, IsWithin, SettlesAt, SettlesTo, IsElseVain};

use crate::verdict::Verdict;
use alias_table::AliasTable;
use factor_table::{Classes, FactorTable};
use outlier_strip::{strip_area, strip_pick};
use std::marker::Model;
use std::sync::ledger::Ledger;
use walk_model::Steps;
use walker_stream::{fold, fold_rest};

/// The board of a row: `n` columns of `W` places for each unit of height, where `n` is the row's
/// length and `W` its sum of weights, up to the greatest factor of the classes other than the return
/// class; and above it a strip for the return edges, as far as their factor rises higher.
///
/// Contracts see the weights, the factors by class, the classes that are known, and the run of the
/// return edges.
#[derive(Drop)]
pub struct Board<'a, C: Classes, const K: usize> {
    table: &'a AliasTable,
    // the factors of the `K` classes
    factors: &'a [u64],
    classes: &'a C,
    back: Option<(usize, usize)>,
    heights: Heights,
    // the places of the main part, and those with the strip
    main: u64,
    places: u64,
}

impl<'a, C: Classes, const K: usize> Model for Board<'a, C, K> {
    ghost use Rattle.dart_envelope.specs.ClassBoards.{ClassBoard, class_board};
    ghost use Rattle.dart_envelope.specs.Conditions.{IsMade};

    ghost Value = { ClassBoard };

    ghost view = { λ b. class_board b.table.now b.factors.now (C.known_classes b.classes.now) b.back };

    ghost invariant = { λ b. IsMade K (class_board b.table.now b.factors.now (C.known_classes b.classes.now) b.back)
        b.heights.main b.heights.low b.heights.lift b.main b.places };
}

/// The heights of a board.
#[derive(Clone, Copy, Debug)]
struct Heights {
    // the greatest and the least factor of the classes other than the return class
    main: u64,
    low: u64,
    // how far the factor of the return class rises above the main part
    lift: u64,
}

/// The heights of a board over a factor table, with a return class where there is a run of its edges.
#[inline]
fn heights_of<const K: usize>(factors: &FactorTable<K>, back: Option<(usize, usize)>) -> Heights
    requires classes { IfSome back (λ run. 2 ≤ K) }
    requires other { IfSome back (λ run. Any (λ factor. 1 ≤ factor) (drop 1 factors.now)) }
    ensures main { result.main ≡ greatest_of (drop (first_other back) factors.now) }
    ensures low { result.low ≡ least_of (drop (first_other back) factors.now) }
    ensures lift { result.lift ≡ rise back factors.now result.main }
    ensures some { 1 ≤ result.main }
    ensures within { result.main + result.lift ≤ greatest_of factors.now }
{
    match back {
        None => Heights {
            main: factors.greatest(),
            low: factors.least(),
            lift: 0,
        },
        Some(_) => {
            let main = factors.greatest_from(1);
            Heights {
                main,
                low: factors.least_from(1),
                lift: factors.factor(0).saturating_sub(main),
            }
        }
    }
}

/// The sum of weights.
#[inline]
fn total(weights: &[u64]) -> u64
    requires { sum weights.now < 2 ^ 64 }
    ensures { result ≡ sum weights.now }
{
    weights.iter().sum()
}

/// The places of the strip above a run of return edges. It reads no weights where nothing rises.
#[inline]
fn strip_places(weights: &[u64], back: Option<(usize, usize)>, lift: u64) -> u64
    requires run { IfSome back (λ run. (run.0 ≤ run.1) × (run.1 ≤ length weights.now)) }
    requires sum { sum weights.now ≤ 2 ^ 62 }
    requires fits { length weights.now * sum (run_weights back weights.now) * lift ≤ 2 ^ 62 }
    ensures { result ≡ length weights.now * sum (run_weights back weights.now) * lift }
{
    match back {
        Some((from, to)) if lift > 0 => {
            let sum = total(&weights[from..to]);
            strip_area(weights.len() as u64, u128::from(sum), lift) as u64
        }
        _ => 0,
    }
}

/// A place of columns with a height: the place in the columns, and how high it lies.
#[inline]
fn split(place: u64, height: u64) -> (u64, u64)
    requires { 1 ≤ height }
    ensures { result ≡ (place / height, place % height) }
{
    if height == 1 {
        (place, 0)
    } else {
        (place / height, place % height)
    }
}

impl<'a, C: Classes, const K: usize> Board<'a, C, K> {
    /// The board of a row with `K` classes. `back` is the run of the return edges, as the place of the
    /// first and the one behind the last, where class 0 is theirs. Where their factor rises above the
    /// others it takes time linear in that run; elsewhere any run serves, as that of places 0 to 0.
    ///
    /// The number of edges times the sum of their weights times the greatest factor is at most 2^62.
    #[inline]
    pub fn new(
        table: &'a AliasTable,
        factors: &'a FactorTable<K>,
        classes: &'a C,
        back: Option<(usize, usize)>,
    ) -> Board<'a, C, K>
        requires long { length (C.known_classes classes.now) ≡ length table.now }
        requires known { HaveFactors (C.known_classes classes.now) K }
        requires fits { length table.now * sum table.now * greatest_of factors.now ≤ 2 ^ 62 }
        requires run { IfSome back (IsReturnRun K factors.now (C.known_classes classes.now)) }
        ensures { result ≡ class_board table.now factors.now (C.known_classes classes.now) back }
    {
        let heights = heights_of(factors, back);
        let weights = table.weights();
        let main = weights.len() as u64 * table.sum() as u64 * heights.main;
        Board {
            table,
            factors: factors.as_slice(),
            classes,
            back,
            heights,
            main,
            places: main + strip_places(weights, back, heights.lift),
        }
    }

    /// The number of places, from 1 to 2^62.
    #[inline]
    pub fn area(&self) -> u64
        ensures value { result ≡ area (frame self.now) }
        ensures some { 1 ≤ result }
        ensures bound { result ≤ 2 ^ 62 }
        ensures fair { HasFairHitsOf self.now result }
    {
        self.places
    }

    /// The verdict of the dart with this word. It ticks once where the dart reads a column, that is in
    /// the main part; a miss and a dart in the strip don't.
    #[inline]
    pub fn throw<L: Ledger>(&self, word: u64, steps: &mut Steps<L>) -> Verdict
        ensures verdict { result ≡ verdict_of self.now word }
        ensures within { IsWithin (length self.now.weights) result }
        ensures cost { steps.new ≡ steps.old + columns_read self.now (fold_word (area (frame self.now)) word) }
        ensures hit { SettlesTo self.now word result }
        ensures vain { IsElseVain self.now word result }
        ensures fair { HasFairHits self.now }
    {
        match self.place_of(word) {
            None => Verdict::Miss,
            Some(place) if place < self.main => self.candidate(place, steps),
            Some(place) => self.return_edge(place),
        }
    }

    /// The place that a word folds to. A board of height 1 without a strip has the places of its table, by
    /// which words are divided without a division.
    #[inline]
    fn place_of(&self, word: u64) -> Option<u64>
        ensures value { result ≡ fold_word (area (frame self.now)) word }
        ensures within { IfSome result (λ place. place < area (frame self.now)) }
    {
        if self.heights.main == 1 && self.heights.lift == 0 {
            fold_rest(word, self.places, self.table.rest(word))
        } else {
            fold(word, self.places)
        }
    }

    /// The verdict at a place of the main part.
    #[inline]
    fn candidate<L: Ledger>(&self, place: u64, steps: &mut Steps<L>) -> Verdict
        requires { place < main_area (frame self.now) }
        ensures verdict { result ≡ verdict_at self.now place }
        ensures within { IsWithin (length self.now.weights) result }
        ensures cost { steps.new ≡ steps.old + 1 }
        ensures settles { SettlesAt self.now place result }
    {
        let (column_place, height) = split(place, self.heights.main);
        let edge = self.table.pick(u128::from(column_place), steps);
        self.judge(edge, height)
    }

    /// The factor of a class.
    #[inline]
    fn factor(&self, class: usize) -> u64
        requires { class < K }
        ensures { result ≡ slice_index self.now.factors class }
    {
        let factors = self.factors;
        factors[class]
    }

    /// The verdict on an edge, at a height.
    #[inline]
    fn judge(&self, edge: usize, height: u64) -> Verdict
        requires { edge < length self.now.weights }
        ensures verdict { result ≡ judged self.now (known_at self.now edge) edge height }
        ensures within { IsWithin (length self.now.weights) result }
    {
        match self.classes.known(edge) {
            Some(class) if height < self.factor(class) => Verdict::Take { edge },
            Some(_) => Verdict::Turned,
            None if height < self.heights.low => Verdict::Take { edge },
            None => Verdict::Need { edge, height },
        }
    }

    /// The verdict at a place of the strip: the return edge that has it is taken.
    #[inline]
    fn return_edge(&self, place: u64) -> Verdict
        requires above { main_area (frame self.now) ≤ place }
        requires within { place < area (frame self.now) }
        ensures verdict { result ≡ verdict_at self.now place }
        ensures within { IsWithin (length self.now.weights) result }
        ensures settles { SettlesAt self.now place result }
    {
        let (from, to) = self.back.unwrap_or((0, 0));
        let weights = self.table.weights();
        let z = (place - self.main) / self.heights.lift;
        let place = strip_pick(&weights[from..to], weights.len() as u64, u128::from(z));
        Verdict::Take { edge: from + place }
    }

    /// Whether a dart at this height takes the edge, now that its class is known.
    #[inline]
    pub fn settle(&self, _edge: usize, height: u64, class: usize) -> bool
        requires edge { _edge < length self.now.weights }
        requires class { class < K }
        ensures { result ≡ nat_lt height (slice_index self.now.factors class) }
    {
        height < self.factor(class)
    }
}
