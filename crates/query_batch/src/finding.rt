//! What a part finds for a question.

ghost use Rattle.std.specs.Prelude.{◌≡◌, ◌+◌, ◌<◌, ℕ, length, nat_lt, slice_index_or, IfOk, if◌then◌else◌};
ghost use Rattle.std.specs.List.Sorted.{IsNonDecreasing, IsStrictlyIncreasing};
ghost use Rattle.walk_model.specs.declared.messages.Reply.{Reply};
ghost use Rattle.query_batch.specs.Questions.{CanAnswer};
ghost use Rattle.query_batch.specs.Replies.{rising, found_in, reply_to};

use std::alloc::Global;
use std::sync::ledger::Ledger;
use vertex_partition::PartRows;
use walk_model::{Ask, Ends, Found, Memory, Question, Reply, Steps};

/// Numbers that don't fall, each once.
fn each_once(alloc: Global, numbers: &[u32]) -> Result<Vec<u32>, Memory>
    requires { IsNonDecreasing numbers.now }
    ensures numbers { IfOk result (λ r. r.items ≡ rising numbers.now) }
    ensures rising { IfOk result (λ r. IsStrictlyIncreasing r.items) }
{
    let mut once = Vec::from_slice(alloc, numbers)?;
    once.dedup();
    Ok(once)
}

/// What the part has for a question.
fn look_up(alloc: Global, part: &PartRows, question: Question) -> Result<Found, Memory>
    requires { CanAnswer part.now question }
    ensures { IfOk result (λ f. f ≡ found_in part.now.edges question) }
{
    match question {
        Question::Edge { t, x } => Ok(Found::Edge {
            near: part.has(t, x),
        }),
        Question::Row { t } => {
            let ends = each_once(alloc, part.dsts(t))?;
            Ok(Found::Row {
                ends: Ends::of(ends),
            })
        }
    }
}

/// What was found, once more.
fn copied(alloc: Global, found: &Found) -> Result<Found, Memory>
    ensures { IfOk result (λ f. f ≡ found.now) }
{
    match found {
        Found::Edge { near } => Ok(Found::Edge { near: *near }),
        Found::Row { ends } => {
            let ends = Vec::from_slice(alloc, ends.as_slice())?;
            Ok(Found::Row {
                ends: Ends::of(ends),
            })
        }
    }
}

/// The reply to an ask: what the reply at a place among the earlier ones found, where there is one, or
/// else what the part has. Only the second looks something up, which is a step.
pub(crate) fn reply_after<L: Ledger>(
    alloc: Global,
    part: &PartRows,
    ask: &Ask,
    earlier: &[Reply],
    place: usize,
    steps: &mut Steps<L>,
) -> Result<Reply, Memory>
    requires question { CanAnswer part.now ask.now.question }
    requires earlier { (d : Reply) → place < length earlier.now → (slice_index_or earlier.now place d).found ≡ found_in part.now.edges ask.now.question }
    ensures reply { IfOk result (λ r. r ≡ reply_to part.now.edges ask.now) }
    ensures ticks { IfOk result (λ _. steps.new ≡ steps.old + (if nat_lt place (length earlier.now) then 0 else 1)) }
{
    if place < earlier.len() {
        let found = copied(alloc, &earlier[place].found)?;
        return Ok(Reply { ask: *ask, found });
    }
    steps.tick();
    let found = look_up(alloc, part, ask.question)?;
    Ok(Reply { ask: *ask, found })
}
