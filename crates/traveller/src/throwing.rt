//! The choice of an edge by darts or a scan.

ghost use Rattle.std.specs.Prelude.{◌≡◌, ◌≤◌, ◌<◌, ◌+◌, ◌*◌, ◌^◌, None, length, sum, map, slice_index, option_map, IfSome};
ghost use Rattle.walk_model.specs.Words.{word};
ghost use Rattle.walk_model.specs.Dart.{hit, scanned, darts};
ghost use Rattle.dart_envelope.specs.ClassBoards.{class_board, board_by, Suits};
ghost use Rattle.traveller.specs.Choices.{IsChoice};
ghost use Rattle.traveller.specs.Ticks.{columns, dart_column};

use alias_table::AliasTable;
use dart_envelope::{Board, Verdict, scan, scan_total};
use factor_table::{Classes, FactorTable, RowClasses};
use std::sync::ledger::Ledger;
use walk_model::Steps;
use walker_stream::StreamReader;

/// The edge that a dart takes, if it takes one. An edge's class is asked only where the dart needs it.
#[inline]
fn taken<C: Classes + RowClasses, L: Ledger, const K: usize>(
    board: &Board<'_, C, K>,
    classes: &C,
    word: u64,
    steps: &mut Steps<L>,
) -> Option<usize>
    requires count { length board.now.factors ≡ K }
    requires suits { Suits board.now (C.classes classes.now) }
    ensures edge { result ≡ hit (board_by board.now (C.classes classes.now)) word }
    ensures within { IfSome result (λ edge. edge < length board.now.weights) }
    ensures ticks { steps.new ≡ steps.old + dart_column (board_by board.now (C.classes classes.now)) word }
{
    match board.throw(word, steps) {
        Verdict::Miss => None,
        Verdict::Take { edge } => Some(edge),
        Verdict::Turned => None,
        Verdict::Need { edge, height } => {
            if board.settle(edge, height, classes.class_at(edge)) {
                Some(edge)
            } else {
                None
            }
        }
    }
}

/// The edge that the scan of a row gives, if any has a factor above 0.
pub(crate) fn scan_row<C: Classes + RowClasses, const K: usize>(
    table: &AliasTable,
    factors: &FactorTable<K>,
    classes: &C,
    reader: &mut StreamReader,
) -> Option<usize>
    requires row { IsChoice K table.now factors.now (C.known_classes classes.now) (C.classes classes.now) (C.back classes.now) }
    requires room { reader.old.place ≤ 2 ^ 63 }
    ensures edge { option_map (λ edge. (edge, reader.new.place)) result ≡ scanned (board_by (class_board table.now factors.now (C.known_classes classes.now) (C.back classes.now)) (C.classes classes.now)) (word reader.old.seed reader.old.walker) reader.old.place }
    ensures within { IfSome result (λ edge. edge < length table.now) }
    ensures stream { reader.new ≡ record reader.old { place = reader.new.place } }
    ensures onward { reader.old.place ≤ reader.new.place }
    ensures next { reader.new.place ≤ reader.old.place + 64 }
{
    let weights = table.weights();
    let by_class = factors.as_slice();
    let factor_at = |edge: usize| -> u64
        requires place { edge < length (C.classes classes.now) }
        requires class { slice_index (C.classes classes.now) edge < length by_class.now }
        ensures { result ≡ slice_index by_class.entry.now (slice_index (C.classes classes.entry.now) edge) }
    { by_class[classes.class_at(edge)] };
    let total = scan_total(weights, factor_at);
    if total == 0 {
        return None;
    }
    scan(weights, factor_at, reader.draw(total))
}

/// The edge that at most `retries` darts take, or else the scan of the row.
pub(crate) fn choose<C: Classes + RowClasses, L: Ledger, const K: usize>(
    table: &AliasTable,
    factors: &FactorTable<K>,
    classes: &C,
    retries: u32,
    reader: &mut StreamReader,
    steps: &mut Steps<L>,
) -> Option<usize>
    requires row { IsChoice K table.now factors.now (C.known_classes classes.now) (C.classes classes.now) (C.back classes.now) }
    requires few { retries ≤ 1000 }
    requires room { reader.old.place ≤ 2 ^ 62 }
    ensures edge { option_map (λ edge. (edge, reader.new.place)) result ≡ darts retries (board_by (class_board table.now factors.now (C.known_classes classes.now) (C.back classes.now)) (C.classes classes.now)) (word reader.old.seed reader.old.walker) reader.old.place }
    ensures within { IfSome result (λ edge. edge < length table.now) }
    ensures stream { reader.new ≡ record reader.old { place = reader.new.place } }
    ensures onward { reader.old.place ≤ reader.new.place }
    ensures next { reader.new.place ≤ reader.old.place + retries + 64 }
    ensures ticks { steps.new ≡ steps.old + columns retries None (board_by (class_board table.now factors.now (C.known_classes classes.now) (C.back classes.now)) (C.classes classes.now)) (word reader.old.seed reader.old.walker) reader.old.place }
{
    let board = Board::new(table, factors, classes, classes.back());
    for _ in 0..retries {
        let word = reader.next();
        match taken(&board, classes, word, steps) {
            None => {}
            Some(edge) => return Some(edge),
        }
    }
    scan_row(table, factors, classes, reader)
}
