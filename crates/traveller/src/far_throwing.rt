//! Darts one after the other, until an edge is taken or another part has to be asked.

ghost use Rattle.std.specs.Prelude.{◌≡◌, ◌≤◌, ◌<◌, ◌+◌, ◌^◌, ℕ, List, Some, length};
ghost use Rattle.walk_model.specs.Words.{word};
ghost use Rattle.walk_model.specs.Letters.{Asker};
ghost use Rattle.dart_envelope.specs.ClassBoards.{Suits, board_by};
ghost use Rattle.traveller.specs.Far.{TellsAll, far_mode, IsFarWithin};
ghost use Rattle.traveller.specs.Ticks.{columns};
ghost use Rattle.traveller.specs.Turns.{throws};

use dart_envelope::{Board, Verdict};
use node2vec_walk::NearClasses;
use std::sync::ledger::Ledger;
use walk_model::Steps;
use walker_stream::StreamReader;

/// What darts come to where another part may have to be asked.
#[derive(Clone, Copy)]
pub(crate) enum Far {
    /// An edge is taken.
    Take { edge: usize },
    /// Another part has to be asked about an edge; so many darts are left after this one.
    Ask { left: u32, edge: usize },
    /// No dart is left.
    Spent,
}

/// What at most `left` darts come to. A dart that needs to know an edge's class stays the next one.
pub(crate) fn throw_far<L: Ledger>(
    board: &Board<'_, NearClasses<'_>, 3>,
    left: u32,
    reader: &mut StreamReader,
    steps: &mut Steps<L>,
) -> Far
    requires few { left ≤ 1000 }
    requires room { reader.old.place ≤ 2 ^ 62 }
    ensures mode { (a : Asker) (classes : List ℕ) → Suits board.now classes → TellsAll board.now a classes
        → throws left (Some a) (board_by board.now classes) (word reader.old.seed reader.old.walker) reader.old.place
        ≡ far_mode a (board_by board.now classes) (word reader.old.seed reader.old.walker) result reader.new.place }
    ensures within { IsFarWithin (length board.now.weights) left result }
    ensures stream { reader.new ≡ record reader.old { place = reader.new.place } }
    ensures next { reader.new.place ≤ reader.old.place + left }
    ensures ticks { (a : Asker) (classes : List ℕ) → Suits board.now classes → TellsAll board.now a classes
        → steps.new ≡ steps.old + columns left (Some a) (board_by board.now classes) (word reader.old.seed reader.old.walker) reader.old.place }
{
    let mut left = left;
    while left > 0 {
        left -= 1;
        let word = reader.peek();
        match board.throw(word, steps) {
            Verdict::Take { edge } => {
                let _word = reader.next();
                return Far::Take { edge };
            }
            Verdict::Need { edge, .. } => return Far::Ask { left, edge },
            Verdict::Miss => {
                let _word = reader.next();
            }
            Verdict::Turned => {
                let _word = reader.next();
            }
        }
    }
    Far::Spent
}
