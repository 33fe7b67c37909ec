//! What a run's walkers do, over so many vertices.

ghost use Rattle.std.specs.Prelude.{◌≡◌, ◌<◌, IsTrue, IfOk};
ghost use Rattle.walk_model.specs.Walk.{walker_count};
ghost use Rattle.traveller.specs.Runs.{start_fits, start_rank};

use std::alloc::Global;
use walk_model::{Kinds, Memory, Plan, Rule, StartRule};

/// What the walkers of a run do: their plan, the seed of their words, the number of vertices, and the
/// rank of the plan's own start, where it has one.
#[derive(Debug, Drop)]
pub struct Run {
    pub plan: Plan,
    pub seed: u64,
    pub vertices: u32,
    pub start: Option<u32>,
    pub ghost starts: { IsTrue (start_fits plan.start vertices start) },
}

/// The same rule once more.
fn copy_rule(alloc: Global, rule: &Rule) -> Result<Rule, Memory>
    ensures { IfOk result (λ r. r ≡ rule.now) }
{
    match rule {
        Rule::Plain => Ok(Rule::Plain),
        Rule::Scheme { kinds } => {
            let kinds = kinds.as_slice().to_vec(alloc)?;
            Ok(Rule::Scheme {
                kinds: Kinds::of(kinds),
            })
        }
        Rule::Node2vec { p, q } => Ok(Rule::Node2vec { p: *p, q: *q }),
    }
}

/// The same plan once more.
fn copy_plan(alloc: Global, plan: &Plan) -> Result<Plan, Memory>
    ensures { IfOk result (λ p. p ≡ plan.now) }
{
    let rule = copy_rule(alloc, &plan.rule)?;
    Ok(Plan {
        weighted: plan.weighted,
        undirected: plan.undirected,
        length: plan.length,
        start: plan.start,
        retries: plan.retries,
        stop: plan.stop,
        restart: plan.restart,
        rule,
    })
}

/// The rank where a walker starts, over so many vertices.
fn start_by(rule: StartRule, vertices: u32, start: Option<u32>, walker: u64) -> u32
    requires starts { IsTrue (start_fits rule vertices start) }
    requires walker { walker < walker_count rule vertices }
    requires some { 0 < vertices }
    ensures start { result ≡ start_rank rule vertices start walker }
    ensures within { result < vertices }
{
    match rule {
        StartRule::Each => walker as u32,
        StartRule::Spread { .. } => (walker % u64::from(vertices)) as u32,
        StartRule::From { .. } => start.unwrap_or(0),
    }
}

impl Run {
    /// The same run once more.
    ///
    /// # Errors
    ///
    /// `Memory` where there is too little of it.
    pub fn copy(&self, alloc: Global) -> Result<Run, Memory>
        ensures plan { IfOk result (λ r. r.plan ≡ self.now.plan) }
        ensures seed { IfOk result (λ r. r.seed ≡ self.now.seed) }
        ensures vertices { IfOk result (λ r. r.vertices ≡ self.now.vertices) }
        ensures start { IfOk result (λ r. r.start ≡ self.now.start) }
    {
        let plan = copy_plan(alloc, &self.plan)?;
        Ok(Run {
            plan,
            seed: self.seed,
            vertices: self.vertices,
            start: self.start,
        })
    }

    /// The number of walkers.
    #[tactic(auto, unfolding(walk_model::specs::Walk::walker_count))]
    pub fn walkers(&self) -> u64
        ensures { result ≡ walker_count self.now.plan.start self.now.vertices }
    {
        match self.plan.start {
            StartRule::Each => u64::from(self.vertices),
            StartRule::Spread { walkers } => u64::from(walkers),
            StartRule::From { walkers, .. } => u64::from(walkers),
        }
    }

    /// The vertex where a walker starts.
    pub fn start_of(&self, walker: u64) -> u32
        requires walker { walker < walker_count self.now.plan.start self.now.vertices }
        requires some { 0 < self.now.vertices }
        ensures start { result ≡ start_rank self.now.plan.start self.now.vertices self.now.start walker }
        ensures within { result < self.now.vertices }
    {
        start_by(self.plan.start, self.vertices, self.start, walker)
    }
}
