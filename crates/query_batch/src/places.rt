//! Where among the asks of a batch each question comes first.

ghost use Rattle.std.specs.Prelude.{◌≡◌, ◌==◌, nat_eq, ℕ, IfOk, Some, unwrap_or, if◌then◌else◌};
ghost use Rattle.std.specs.HashMap.{get};
ghost use Rattle.query_batch.specs.Numbers.{number_of, IsWithin};

use std::collections::HashMap;
use walk_model::{Memory, Question};

/// A question as one number, by which a table finds it faster than by its parts.
pub(crate) fn number_of_question(vertices: u32, question: Question) -> u64
    requires { IsWithin vertices question }
    ensures { result ≡ number_of vertices question }
{
    let width = u64::from(vertices) + 1;
    match question {
        Question::Edge { t, x } => u64::from(t) * width + (u64::from(x) + 1),
        Question::Row { t } => u64::from(t) * width,
    }
}

/// The place at which a number came first: the one that is kept, or else this one, which is kept from now on.
pub(crate) fn first_place(
    places: &mut HashMap<u64, usize>,
    number: u64,
    place: usize,
) -> Result<usize, Memory>
    ensures first { IfOk result (λ r. r ≡ unwrap_or (get nat_eq places.old number) place) }
    ensures places { IfOk result (λ r. (n : ℕ) → get nat_eq places.new n ≡ (if number == n then Some r else get nat_eq places.old n)) }
{
    let first = *places.entry(number)?.or_insert(place);
    Ok(first)
}
