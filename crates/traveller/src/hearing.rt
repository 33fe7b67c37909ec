//! What a walker makes of a reply: the dart or the scan that it waited with.

ghost use Rattle.std.specs.Prelude.{◌≡◌, ◌≤◌, ◌<◌, ◌+◌, ◌^◌, ℕ, All, IfSome, IsTrue, Some, length, map};
ghost use Rattle.std.specs.List.Sorted.{IsNonDecreasing};
ghost use Rattle.walk_model.specs.declared.messages.Question.TheVariants as form;
ghost use Rattle.walk_model.specs.Words.{word};
ghost use Rattle.walk_model.specs.Graph.{row, weights_of};
ghost use Rattle.walk_model.specs.Dart.{board_of, hit, scanned};
ghost use Rattle.walk_model.specs.Fits.{reach_of};
ghost use Rattle.walk_model.specs.Letters.{Asker};
ghost use Rattle.walk_model.specs.Ranges.{rule_in_range};
ghost use Rattle.csr_store.specs.RowGraph.{RowGraph};
ghost use Rattle.dart_envelope.specs.ClassBoards.{Suits, board_by};
ghost use Rattle.node2vec_walk.specs.Destinations.{is_among};
ghost use Rattle.vertex_partition.specs.PartViews.{Owns, IsPartOf};
ghost use Rattle.traveller.specs.Askers.{IsAsker};
ghost use Rattle.traveller.specs.Decided.{GoesOn};
ghost use Rattle.traveller.specs.Replies.{Answers, edge_mode, near_by, told_board};
ghost use Rattle.traveller.specs.RuleFactors.{AreTyped, CountsNear};
ghost use Rattle.traveller.specs.Told.{told_classes};
ghost use Rattle.traveller.specs.Turns.{chosen_or_over};
ghost use Rattle.traveller.specs.Walkers.{asked_vertex};
ghost use Rattle.traveller.specs.declared.ruling.TypedFactors.TheVariants as typed;

use crate::modes::Mode;
use crate::throwing::scan_row;
use alias_table::AliasTable;
use dart_envelope::{Board, Verdict};
use factor_table::FactorTable;
use node2vec_walk::{NearClasses, class_of, node_factors, return_run};
use std::sync::ledger::{Blank, Ledger};
use vertex_partition::PartRows;
use walk_model::{Found, Fraction, Plan, Question, Rule, State, Steps};
use walker_stream::StreamReader;

/// The vertex that a question is about.
pub(crate) fn asked(question: Question) -> u32
    ensures { result ≡ asked_vertex question }
{
    match question {
        Question::Edge { t, .. } => t,
        Question::Row { t } => t,
    }
}

/// The bottom of a fraction.
fn bottom(fraction: &Fraction) -> u32
    ensures value { result ≡ fraction.now.bottom }
    ensures some { 1 ≤ result }
{
    fraction.bottom
}

/// The factors of a walk by p and q.
pub(crate) fn near_factors(rule: &Rule) -> FactorTable<3>
    requires range { IsTrue (rule_in_range rule.now) }
    requires near { CountsNear rule.now }
    ensures rule { AreTyped rule.now (typed.Node2vec result) }
    ensures some { All (λ factor. 1 ≤ factor) result }
{
    match rule {
        Rule::Plain => FactorTable::new([1, 1, 1]),
        Rule::Scheme { .. } => FactorTable::new([1, 1, 1]),
        Rule::Node2vec { p, q } => {
            // no fraction has the bottom 0
            let _bottoms = (bottom(p), bottom(q));
            node_factors(*p, *q)
        }
    }
}

/// Whether a reply tells that the edge that was asked about is near.
pub(crate) fn told_near(question: Question, found: &Found) -> bool
    requires { Answers question found.now }
    ensures { (t x y : ℕ) → question ≡ form.Edge t x → result ≡ near_by found.now y }
{
    match found {
        Found::Edge { near } => *near,
        Found::Row { .. } => false,
    }
}

/// The ends that a reply tells to be near, rising.
pub(crate) fn told_ends(question: Question, found: &Found) -> &[u32]
    requires { Answers question found.now }
    ensures rising { IsNonDecreasing result.now }
    ensures near { (t x : ℕ) → question ≡ form.Row t → is_among result.now x ≡ near_by found.now x }
{
    match found {
        Found::Edge { .. } => &[],
        Found::Row { ends } => ends.as_slice(),
    }
}

/// The edge that a dart takes, if it takes one, where it is told whether the edge that it asks about is near.
fn taken_told<L: Ledger>(
    board: &Board<'_, NearClasses<'_>, 3>,
    dsts: &[u32],
    back: u32,
    near: bool,
    word: u64,
    steps: &mut Steps<L>,
) -> Option<usize>
    requires long { length dsts.now ≡ length board.now.weights }
    requires suits { Suits board.now (told_classes (λ x. near) back dsts.now) }
    ensures edge { result ≡ hit (board_by board.now (told_classes (λ x. near) back dsts.now)) word }
    ensures within { IfSome result (λ edge. edge < length board.now.weights) }
{
    match board.throw(word, steps) {
        Verdict::Miss => None,
        Verdict::Take { edge } => Some(edge),
        Verdict::Turned => None,
        Verdict::Need { edge, height } => {
            let class = class_of(dsts[edge], back, near);
            if board.settle(edge, height, class) {
                Some(edge)
            } else {
                None
            }
        }
    }
}

/// The same by the row at a state, after a step from a vertex of another part.
fn told_edge<L: Ledger>(
    part: &PartRows,
    table: &AliasTable,
    plan: &Plan,
    factors: &FactorTable<3>,
    s: State,
    back: u32,
    near: bool,
    word: u64,
    steps: &mut Steps<L>,
) -> Option<usize>
    requires rule { AreTyped plan.now.rule (typed.Node2vec factors.now) }
    requires weights { weights_of plan.now.weighted (row part.now.edges s.at) ≡ table.now }
    requires at { Owns part.now s.at }
    requires previous { s.previous ≡ Some back }
    requires fits { reach_of part.now.edges plan.now s.at ≤ 2 ^ 62 }
    ensures edge { (g : RowGraph) (a : Asker) → IsPartOf g part.now → IsAsker g plan.now s back a
        → result ≡ hit (told_board a (board_of g.edges plan.now s (row g.edges s.at)) (λ x. near)) word }
    ensures within { IfSome result (λ edge. edge < length table.now) }
{
    // the weights are those of a row
    let _weights = table.weights();
    let dsts = part.dsts(s.at);
    let run = return_run(factors, dsts, back);
    let classes = NearClasses {
        dsts,
        back,
        before: &[],
        run,
    };
    let board = Board::new(table, factors, &classes, Some(run));
    taken_told(&board, dsts, back, near, word, steps)
}

/// What a walker comes to that waited with a dart: its edge, or the darts after it.
pub(crate) fn hear_edge<L: Ledger>(
    part: &PartRows,
    plan: &Plan,
    factors: &FactorTable<3>,
    left: u32,
    s: State,
    back: u32,
    near: bool,
    reader: &mut StreamReader,
    blank: Blank,
) -> Mode
    requires name { blank.name ≡ L.name }
    requires parts { blank.parts ≡ L.parts }
    requires blank { 0 < blank.parts }
    requires rule { AreTyped plan.now.rule (typed.Node2vec factors.now) }
    requires weighted { part.now.weighted ≡ plan.now.weighted }
    requires at { Owns part.now s.at }
    requires some { 0 < length (row part.now.edges s.at) }
    requires previous { s.previous ≡ Some back }
    requires fits { reach_of part.now.edges plan.now s.at ≤ 2 ^ 62 }
    requires room { reader.old.place ≤ 2 ^ 62 }
    ensures mode { (g : RowGraph) (a : Asker) → IsPartOf g part.now → IsAsker g plan.now s back a
        → result ≡ edge_mode (hit (told_board a (board_of g.edges plan.now s (row g.edges s.at)) (λ x. near)) (word reader.old.seed reader.old.walker reader.old.place)) left reader.old.place }
    ensures onward { GoesOn (length (row part.now.edges s.at)) left (reader.old.place + left + 1) result }
{
    let mut steps = Steps::<L>::new(blank);
    let word = reader.next();
    match part.table(s.at) {
        None => Mode::Over,
        Some(table) => match told_edge(
            part, table, plan, factors, s, back, near, word, &mut steps,
        ) {
            None => Mode::Darts {
                left,
                place: reader.place(),
            },
            Some(edge) => Mode::Chosen {
                edge,
                place: reader.place(),
            },
        },
    }
}

/// The edge that a scan gives by the ends that are near, after a step from a vertex of another part.
fn told_scan(
    part: &PartRows,
    table: &AliasTable,
    plan: &Plan,
    factors: &FactorTable<3>,
    s: State,
    back: u32,
    ends: &[u32],
    reader: &mut StreamReader,
) -> Mode
    requires rule { AreTyped plan.now.rule (typed.Node2vec factors.now) }
    requires heavy { All (λ factor. 1 ≤ factor) factors.now }
    requires weights { weights_of plan.now.weighted (row part.now.edges s.at) ≡ table.now }
    requires at { Owns part.now s.at }
    requires previous { s.previous ≡ Some back }
    requires fits { reach_of part.now.edges plan.now s.at ≤ 2 ^ 62 }
    requires rising { IsNonDecreasing ends.now }
    requires room { reader.old.place ≤ 2 ^ 62 }
    ensures mode { (g : RowGraph) (a : Asker) → IsPartOf g part.now → IsAsker g plan.now s back a
        → result ≡ chosen_or_over (scanned (told_board a (board_of g.edges plan.now s (row g.edges s.at)) (is_among ends.now)) (word reader.old.seed reader.old.walker) reader.old.place) }
    ensures onward { GoesOn (length table.now) 0 reader.old.place result }
{
    // the weights are those of a row
    let _weights = table.weights();
    let dsts = part.dsts(s.at);
    let run = return_run(factors, dsts, back);
    let classes = NearClasses {
        dsts,
        back,
        before: ends,
        run,
    };
    match scan_row(table, factors, &classes, reader) {
        None => Mode::Over,
        Some(edge) => Mode::Chosen {
            edge,
            place: reader.place(),
        },
    }
}

/// What a walker comes to that waited with a scan: an edge, since each weighs something.
pub(crate) fn hear_row(
    part: &PartRows,
    plan: &Plan,
    factors: &FactorTable<3>,
    s: State,
    back: u32,
    ends: &[u32],
    reader: &mut StreamReader,
) -> Mode
    requires rule { AreTyped plan.now.rule (typed.Node2vec factors.now) }
    requires heavy { All (λ factor. 1 ≤ factor) factors.now }
    requires weighted { part.now.weighted ≡ plan.now.weighted }
    requires at { Owns part.now s.at }
    requires some { 0 < length (row part.now.edges s.at) }
    requires previous { s.previous ≡ Some back }
    requires fits { reach_of part.now.edges plan.now s.at ≤ 2 ^ 62 }
    requires rising { IsNonDecreasing ends.now }
    requires room { reader.old.place ≤ 2 ^ 62 }
    ensures mode { (g : RowGraph) (a : Asker) → IsPartOf g part.now → IsAsker g plan.now s back a
        → result ≡ chosen_or_over (scanned (told_board a (board_of g.edges plan.now s (row g.edges s.at)) (is_among ends.now)) (word reader.old.seed reader.old.walker) reader.old.place) }
    ensures onward { GoesOn (length (row part.now.edges s.at)) 0 reader.old.place result }
{
    match part.table(s.at) {
        None => Mode::Over,
        Some(table) => told_scan(part, table, plan, factors, s, back, ends, reader),
    }
}
