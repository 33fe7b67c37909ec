//! The beginning of a step.

ghost use Rattle.std.specs.Prelude.{◌≡◌, ◌≤◌, ◌<◌, ◌+◌, ◌^◌, ℕ, IfSome};
ghost use Rattle.csr_store.specs.RowGraph.{RowGraph};
ghost use Rattle.vertex_partition.specs.PartViews.{Owns, IsPartOf};
ghost use Rattle.traveller.specs.Beginnings.{IsBegun};
ghost use Rattle.traveller.specs.Deciding.{coins_decided, led_to};
ghost use Rattle.traveller.specs.RuleFactors.{AreFactors};
ghost use Rattle.traveller.specs.Standing.{Suits, journey_on, own_graph};
ghost use Rattle.traveller.specs.Ticks.{coins_columns};
ghost use Rattle.traveller.specs.Walkers.{fresh_at};

use crate::choosing::choose_from;
use crate::modes::Mode;
use crate::ruling::RuleFactors;
use crate::runs::Run;
use std::sync::ledger::Ledger;
use vertex_partition::PartRows;
use walk_model::{State, Steps};
use walker_stream::StreamReader;

/// What a walker at the beginning of a step decides.
#[derive(Clone, Copy)]
pub(crate) enum Decision {
    /// It goes back to its start, and its next word is at this place.
    Back { place: u64 },
    /// It comes to this mode.
    Comes { mode: Mode },
}

/// The coins of a step, and the choice of an edge where none falls.
pub(crate) fn begun<L: Ledger>(
    run: &Run,
    factors: &RuleFactors<'_>,
    part: &PartRows,
    s: State,
    reader: &mut StreamReader,
    steps: &mut Steps<L>,
) -> Decision
    requires rule { AreFactors run.now.plan.rule factors.now }
    requires suits { Suits run.now part.now }
    requires at { Owns part.now s.at }
    requires previous { IfSome s.previous (λ t. t < part.now.vertices) }
    requires seed { reader.old.seed ≡ run.now.seed }
    requires place { reader.old.place ≡ s.place }
    requires room { s.place ≤ 2 ^ 61 }
    ensures data { (g : RowGraph) (start length : ℕ) → IsPartOf g part.now
        → (let w = fresh_at reader.old.walker start length s in led_to w result ≡ coins_decided (journey_on g run.now part.now.cuts w) w) }
    ensures seed { reader.new.seed ≡ reader.old.seed }
    ensures bound { IsBegun (journey_on (own_graph part.now) run.now part.now.cuts (fresh_at reader.old.walker 0 0 s)) s result }
    ensures few { run.now.plan.retries ≤ 1000 }
    ensures ticks { (g : RowGraph) (start length : ℕ) → IsPartOf g part.now
        → (let w = fresh_at reader.old.walker start length s in steps.new ≡ steps.old + coins_columns (journey_on g run.now part.now.cuts w) s) }
{
    if reader.coin(run.plan.stop) {
        return Decision::Comes { mode: Mode::Over };
    }
    if reader.coin(run.plan.restart) {
        return Decision::Back {
            place: reader.place(),
        };
    }
    Decision::Comes {
        mode: choose_from(part, &run.plan, factors, run.plan.retries, s, reader, steps),
    }
}
