//! The choice of an edge on the board of a plan's rule.

ghost use Rattle.std.specs.Prelude.{◌≡◌, ◌≤◌, ◌<◌, ◌+◌, ◌*◌, ◌^◌, ◌==◌, ℕ, [], None, Some, IfSome, length, sum, option_map, if◌then◌else◌, IfNone};
ghost use Rattle.walk_model.specs.declared.programme.Rule.{Rule as TheRule};
ghost use Rattle.walk_model.specs.Words.{word};
ghost use Rattle.walk_model.specs.Graph.{row, weights_of};
ghost use Rattle.walk_model.specs.Dart.{board_of, darts};
ghost use Rattle.walk_model.specs.Fits.{reach_of};
ghost use Rattle.walk_model.specs.Letters.{Asker, Journey};
ghost use Rattle.csr_store.specs.RowGraph.{RowGraph};
ghost use Rattle.vertex_partition.specs.PartViews.{Owns, IsPartOf};
ghost use Rattle.traveller.specs.Far.{IsNearChoice, far_scan, near_board};
ghost use Rattle.traveller.specs.Locals.{IsInRow, IsLocal, local_mode, row_mode};
ghost use Rattle.traveller.specs.RuleFactors.{AreFactors, AreTyped};
ghost use Rattle.traveller.specs.Askers.{GoesBy, IsAsker, IsAway};
ghost use Rattle.traveller.specs.Ticks.{columns, row_columns};
ghost use Rattle.traveller.specs.Turns.{asker_at, board_at, row_at, throws};
ghost use Rattle.traveller.specs.declared.ruling.TypedFactors.TheVariants as typed;

use crate::far_throwing::{Far, throw_far};
use crate::modes::Mode;
use crate::ruling::{RuleFactors, TypedFactors};
use crate::throwing::{choose, scan_row};
use alias_table::AliasTable;
use dart_envelope::Board;
use factor_table::{FactorTable, OneClass, each_class};
use metapath_walk::{TypeClasses, wanted};
use node2vec_walk::{NearClasses, return_run};
use std::sync::ledger::Ledger;
use vertex_partition::PartRows;
use walk_model::{Plan, Question, State, Steps};
use walker_stream::StreamReader;

/// The edge that at most `left` darts or the scan take from the row at a state, on the board of the rule,
/// where no other part has to be asked.
fn choose_edge<L: Ledger>(
    part: &PartRows,
    table: &AliasTable,
    plan: &Plan,
    factors: &RuleFactors<'_>,
    left: u32,
    s: State,
    reader: &mut StreamReader,
    steps: &mut Steps<L>,
) -> Option<usize>
    requires rule { AreFactors plan.now.rule factors.now }
    requires weights { weights_of plan.now.weighted (row part.now.edges s.at) ≡ table.now }
    requires at { Owns part.now s.at }
    requires local { IsLocal part.now plan.now.rule s.previous }
    requires fits { reach_of part.now.edges plan.now s.at ≤ 2 ^ 62 }
    requires few { left ≤ 1000 }
    requires room { reader.old.place ≤ 2 ^ 62 }
    ensures edge { option_map (λ edge. (edge, reader.new.place)) result ≡ darts left (board_of part.now.edges plan.now s (row part.now.edges s.at)) (word reader.old.seed reader.old.walker) reader.old.place }
    ensures within { IfSome result (λ edge. edge < length table.now) }
    ensures stream { reader.new ≡ record reader.old { place = reader.new.place } }
    ensures onward { reader.old.place ≤ reader.new.place }
    ensures next { reader.new.place ≤ reader.old.place + left + 64 }
    ensures ticks { steps.new ≡ steps.old + columns left None (board_of part.now.edges plan.now s (row part.now.edges s.at)) (word reader.old.seed reader.old.walker) reader.old.place }
{
    each_class!((&factors.typed, s.previous) => {
        (TypedFactors::Plain, _) => (&factors.one, OneClass { len: table.len() }),
        (TypedFactors::Node2vec { .. }, None) => (&factors.one, OneClass { len: table.len() }),
        (TypedFactors::Scheme { kinds, factors }, _) => (factors, TypeClasses {
            kinds: part.kinds(s.at),
            wanted: wanted(kinds, s.phase),
        }),
        (TypedFactors::Node2vec { factors }, Some(back)) => (factors, NearClasses {
            dsts: part.dsts(s.at),
            back,
            before: part.dsts(back),
            run: return_run(factors, part.dsts(s.at), back),
        }),
    } |factors, classes| choose(table, factors, &classes, left, reader, steps))
}

/// What the scan of a row comes to, after a step from a vertex of another part. That part has to be asked
/// where the factors of a near edge and of a far one differ; elsewhere none counts as near.
fn scan_far(
    table: &AliasTable,
    factors: &FactorTable<3>,
    classes: &NearClasses<'_>,
    reader: &mut StreamReader,
) -> Mode
    requires row { IsNearChoice table.now factors.now classes.now }
    requires room { reader.old.place ≤ 2 ^ 63 }
    ensures mode { result ≡ far_scan factors.now classes.now.back (near_board table.now factors.now classes.now) (word reader.old.seed reader.old.walker) reader.old.place }
    ensures seed { reader.new.seed ≡ reader.old.seed }
    ensures inside { IsInRow (length table.now) (reader.old.place + 64) result }
{
    if factors.factor(1) != factors.factor(2) {
        return Mode::AskedRow {
            place: reader.place(),
            question: Question::Row { t: classes.back },
        };
    }
    match scan_row(table, factors, classes, reader) {
        None => Mode::Over,
        Some(edge) => Mode::Chosen {
            edge,
            place: reader.place(),
        },
    }
}

/// What the choice among the edges of a row comes to with so many darts left, after a step from a vertex of
/// another part.
fn choose_far<L: Ledger>(
    part: &PartRows,
    table: &AliasTable,
    plan: &Plan,
    factors: &FactorTable<3>,
    left: u32,
    s: State,
    back: u32,
    reader: &mut StreamReader,
    steps: &mut Steps<L>,
) -> Mode
    requires rule { AreTyped plan.now.rule (typed.Node2vec factors.now) }
    requires weights { weights_of plan.now.weighted (row part.now.edges s.at) ≡ table.now }
    requires at { Owns part.now s.at }
    requires previous { s.previous ≡ Some back }
    requires fits { reach_of part.now.edges plan.now s.at ≤ 2 ^ 62 }
    requires few { left ≤ 1000 }
    requires room { reader.old.place ≤ 2 ^ 62 }
    ensures mode { (g : RowGraph) (a : Asker) → IsPartOf g part.now → IsAsker g plan.now s back a
        → throws left (Some a) (board_of g.edges plan.now s (row g.edges s.at)) (word reader.old.seed reader.old.walker) reader.old.place ≡ result }
    ensures seed { reader.new.seed ≡ reader.old.seed }
    ensures inside { IsInRow (length table.now) (reader.old.place + left + 64) result }
    ensures ticks { (g : RowGraph) (a : Asker) → IsPartOf g part.now → IsAsker g plan.now s back a
        → steps.new ≡ steps.old + columns left (Some a) (board_of g.edges plan.now s (row g.edges s.at)) (word reader.old.seed reader.old.walker) reader.old.place }
{
    // the weights are those of a row
    let _weights = table.weights();
    let dsts = part.dsts(s.at);
    let run = return_run(factors, dsts, back);
    let classes = NearClasses {
        dsts,
        back,
        before: &[],
        run,
    };
    let board = Board::new(table, factors, &classes, Some(run));
    match throw_far(&board, left, reader, steps) {
        Far::Take { edge } => Mode::Chosen {
            edge,
            place: reader.place(),
        },
        Far::Ask { left, edge } => Mode::Asked {
            left,
            place: reader.place(),
            question: Question::Edge {
                t: back,
                x: dsts[edge],
            },
        },
        Far::Spent => scan_far(table, factors, &classes, reader),
    }
}

/// What the choice among the edges from a vertex comes to with so many darts left, after a step from a
/// vertex of another part. It stands apart from the steps that ask nobody.
#[cold]
#[inline(never)]
fn choose_asking<L: Ledger>(
    part: &PartRows,
    plan: &Plan,
    factors: &FactorTable<3>,
    left: u32,
    s: State,
    back: u32,
    reader: &mut StreamReader,
    steps: &mut Steps<L>,
) -> Mode
    requires rule { AreTyped plan.now.rule (typed.Node2vec factors.now) }
    requires weighted { part.now.weighted ≡ plan.now.weighted }
    requires at { Owns part.now s.at }
    requires previous { s.previous ≡ Some back }
    requires fits { reach_of part.now.edges plan.now s.at ≤ 2 ^ 62 }
    requires few { left ≤ 1000 }
    requires room { reader.old.place ≤ 2 ^ 62 }
    ensures mode { (g : RowGraph) (a : Asker) → IsPartOf g part.now → IsAsker g plan.now s back a
        → row_mode left (Some a) (board_of g.edges plan.now s (row g.edges s.at)) (row g.edges s.at) (word reader.old.seed reader.old.walker) reader.old.place ≡ result }
    ensures seed { reader.new.seed ≡ reader.old.seed }
    ensures inside { IsInRow (length (row part.now.edges s.at)) (reader.old.place + left + 64) result }
    ensures ticks { (g : RowGraph) (a : Asker) → IsPartOf g part.now → IsAsker g plan.now s back a
        → steps.new ≡ steps.old + row_columns left (Some a) (board_of g.edges plan.now s (row g.edges s.at)) (row g.edges s.at) (word reader.old.seed reader.old.walker) reader.old.place }
{
    match part.table(s.at) {
        None => Mode::Over,
        Some(table) => choose_far(part, table, plan, factors, left, s, back, reader, steps),
    }
}

/// What the choice among the edges from a vertex comes to with so many darts left, where no other part
/// has to be asked.
fn choose_mode<L: Ledger>(
    part: &PartRows,
    plan: &Plan,
    factors: &RuleFactors<'_>,
    left: u32,
    s: State,
    reader: &mut StreamReader,
    steps: &mut Steps<L>,
) -> Mode
    requires rule { AreFactors plan.now.rule factors.now }
    requires weighted { part.now.weighted ≡ plan.now.weighted }
    requires at { Owns part.now s.at }
    requires local { IsLocal part.now plan.now.rule s.previous }
    requires fits { reach_of part.now.edges plan.now s.at ≤ 2 ^ 62 }
    requires few { left ≤ 1000 }
    requires room { reader.old.place ≤ 2 ^ 62 }
    ensures mode { result ≡ local_mode left (board_of part.now.edges plan.now s (row part.now.edges s.at)) (row part.now.edges s.at) (word reader.old.seed reader.old.walker) reader.old.place }
    ensures seed { reader.new.seed ≡ reader.old.seed }
    ensures inside { IsInRow (length (row part.now.edges s.at)) (reader.old.place + left + 64) result }
    ensures ticks { steps.new ≡ steps.old + row_columns left None (board_of part.now.edges plan.now s (row part.now.edges s.at)) (row part.now.edges s.at) (word reader.old.seed reader.old.walker) reader.old.place }
{
    match part.table(s.at) {
        None => Mode::Over,
        Some(table) => match choose_edge(part, table, plan, factors, left, s, reader, steps) {
            None => Mode::Over,
            Some(edge) => Mode::Chosen {
                edge,
                place: reader.place(),
            },
        },
    }
}

/// The vertex before a step and the factors by it, where another part owns that vertex.
#[derive(Clone, Copy)]
struct Remote<'a> {
    back: u32,
    factors: &'a FactorTable<3>,
}

/// The vertex before a step, if another part owns it and the step goes by what is near it.
#[inline]
fn away<'a>(
    part: &PartRows,
    typed: &'a TypedFactors<'_>,
    previous: Option<u32>,
) -> Option<Remote<'a>>
    requires { IfSome previous (λ t. t < part.now.vertices) }
    ensures here { (rule : TheRule) → AreTyped rule typed.now → IfNone result (IsLocal part.now rule previous) }
    ensures there { (rule : TheRule) → AreTyped rule typed.now → IfSome result (λ a. IsAway part.now rule previous a.back a.factors.now) }
{
    match typed {
        TypedFactors::Plain => None,
        TypedFactors::Scheme { .. } => None,
        TypedFactors::Node2vec { factors } => match previous {
            None => None,
            Some(back) => {
                if part.owns(back) {
                    None
                } else {
                    Some(Remote { back, factors })
                }
            }
        },
    }
}

/// What the choice among the edges from a vertex comes to with so many darts left.
#[inline]
pub(crate) fn choose_from<L: Ledger>(
    part: &PartRows,
    plan: &Plan,
    factors: &RuleFactors<'_>,
    left: u32,
    s: State,
    reader: &mut StreamReader,
    steps: &mut Steps<L>,
) -> Mode
    requires rule { AreFactors plan.now.rule factors.now }
    requires weighted { part.now.weighted ≡ plan.now.weighted }
    requires at { Owns part.now s.at }
    requires previous { IfSome s.previous (λ t. t < part.now.vertices) }
    requires fits { reach_of part.now.edges plan.now s.at ≤ 2 ^ 62 }
    requires few { left ≤ 1000 }
    requires room { reader.old.place ≤ 2 ^ 62 }
    ensures mode { (g : RowGraph) (j : Journey) → IsPartOf g part.now → GoesBy g part.now plan.now (word reader.old.seed reader.old.walker) j
        → row_mode left (asker_at j s) (board_at j s) (row_at j s) (word reader.old.seed reader.old.walker) reader.old.place ≡ result }
    ensures seed { reader.new.seed ≡ reader.old.seed }
    ensures inside { IsInRow (length (row part.now.edges s.at)) (reader.old.place + left + 64) result }
    ensures ticks { (g : RowGraph) (j : Journey) → IsPartOf g part.now → GoesBy g part.now plan.now (word reader.old.seed reader.old.walker) j
        → steps.new ≡ steps.old + row_columns left (asker_at j s) (board_at j s) (row_at j s) (word reader.old.seed reader.old.walker) reader.old.place }
{
    match away(part, &factors.typed, s.previous) {
        None => choose_mode(part, plan, factors, left, s, reader, steps),
        Some(far) => { choose_asking(part, plan, far.factors, left, s, far.back, reader, steps) }
    }
}
