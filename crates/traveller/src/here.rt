//! A run on a part of its graph.

ghost use Rattle.std.specs.Prelude.{◌≡◌};
ghost use Rattle.traveller.specs.RuleFactors.{AreFactors};
ghost use Rattle.traveller.specs.Standing.{Suits};

use crate::ruling::{RuleFactors, rule_factors};
use crate::runs::Run;
use std::marker::Model;
use vertex_partition::PartRows;

/// A run on a part of its graph, with the factors of its rule: all that the steps of its travellers ask for,
/// seen as the run and the part. It is made once for many steps, and takes no memory.
#[derive(Drop)]
pub struct WalkPart<'a> {
    run: &'a Run,
    part: &'a PartRows,
    factors: RuleFactors<'a>,
}

impl<'a> Model for WalkPart<'a> {
    ghost use Rattle.traveller.specs.Heres.{Here};
    ghost use Rattle.traveller.specs.RuleFactors.{AreFactors};
    ghost use Rattle.traveller.specs.Standing.{Suits};

    ghost Value = { Here };

    ghost view = { λ h. record { run = h.run.now; part = h.part.now } };

    ghost invariant = { λ h. Suits h.run.now h.part.now × AreFactors h.run.now.plan.rule h.factors };
}

impl<'a> WalkPart<'a> {
    /// The run on this part, which it suits.
    pub fn of(run: &'a Run, part: &'a PartRows) -> WalkPart<'a>
        requires { Suits run.now part.now }
        ensures { result ≡ record { run = run.now; part = part.now } }
    {
        let factors = rule_factors(&run.plan.rule);
        WalkPart { run, part, factors }
    }

    /// The run.
    #[inline]
    pub fn run(&self) -> &Run
        ensures run { result.now ≡ self.now.run }
        ensures suits { Suits self.now.run self.now.part }
    {
        self.run
    }

    /// The part.
    #[inline]
    pub fn part(&self) -> &PartRows
        ensures { result.now ≡ self.now.part }
    {
        self.part
    }

    /// The factors of the run's rule.
    #[inline]
    pub(crate) fn factors(&self) -> &RuleFactors<'a>
        ensures { AreFactors self.now.run.plan.rule result.now }
    {
        &self.factors
    }
}
