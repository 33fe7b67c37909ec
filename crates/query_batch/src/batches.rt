//! Batches of asks, and the replies to them.

ghost use Rattle.std.specs.Prelude.{◌≡◌, ◌+◌, map, IfOk, All};
ghost use Rattle.query_batch.specs.Questions.{CanAnswer, distinct_questions};
ghost use Rattle.query_batch.specs.Replies.{reply_to};

use crate::finding::reply_after;
use crate::places::{first_place, number_of_question};
use std::alloc::Global;
use std::collections::HashMap;
use std::sync::ledger::Ledger;
use vertex_partition::PartRows;
use walk_model::{Ask, Memory, Reply, Steps};

/// Answers a batch of asks to a part: one reply for each ask, in the order of the asks, true in the
/// part's rows. Questions that are asked several times are looked up once.
///
/// A step is one look-up: of an edge, a search in a row; of a row, a copy of its ends. To these come for
/// each ask a search in a hash table, and for each further ask of a row a copy of the ends, which the
/// reply owns.
///
/// # Errors
///
/// `Memory` where there is too little of it; the asks are then gone.
pub fn answer<L: Ledger>(
    alloc: Global,
    part: &PartRows,
    asks: Vec<Ask>,
    steps: &mut Steps<L>,
) -> Result<Vec<Reply>, Memory>
    requires { All (λ a. CanAnswer part.now a.question) asks.items }
    ensures replies { IfOk result (λ r. r.items ≡ map (reply_to part.now.edges) asks.items) }
    ensures ticks { IfOk result (λ _. steps.new ≡ steps.old + distinct_questions asks.items) }
{
    let vertices = part.vertices();
    let mut places = HashMap::with_capacity(alloc, asks.len())?;
    let mut replies = Vec::with_capacity(alloc, asks.len())?;
    for (place, ask) in asks.iter().enumerate() {
        let number = number_of_question(vertices, ask.question);
        let first = first_place(&mut places, number, place)?;
        let reply = reply_after(alloc, part, ask, &replies, first, steps)?;
        replies.push(reply)?;
    }
    Ok(replies)
}
