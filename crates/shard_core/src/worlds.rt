//! Worlds: the shards of all parts, and what is in flight between them.

ghost use Rattle.std.specs.Prelude.{◌≡◌, ◌≤◌, ◌<◌, ◌+◌, ◌++◌, ◌∷◌, [], ℕ, List, All, IfOk, OnOk, length, sum_by};
ghost use Rattle.std.specs.List.{flat_map};
ghost use Rattle.walk_model.specs.Cuts.{owner};
ghost use Rattle.walk_model.specs.Walk.{walker_count};
ghost use Rattle.csr_store.specs.RowGraph.{RowGraph};
ghost use Rattle.traveller.specs.declared.modes.Mode.TheVariants.{Fresh};
ghost use Rattle.traveller.specs.declared.runs.Run.{Run as TheRun};
ghost use Rattle.traveller.specs.Ahead.{print_of};
ghost use Rattle.traveller.specs.Standing.{IsWithin, Suits, parted};
ghost use Rattle.traveller.specs.Walkers.{Walker};
ghost use Rattle.shard_core.specs.FirstShards.{AreShardsWith, IsEmpty};
ghost use Rattle.shard_core.specs.SoundWorlds.{AreInOrder, ArePartsOf, HasBegun, HasFinished, IsSameRun, IsSoundWorld};
ghost use Rattle.shard_core.specs.Walks.{walks_in};

use crate::abreast::traveller_of;
use crate::counting::count_in_shards;
use crate::finishing::finish;
use crate::items::Item;
use crate::prints::Prints;
use crate::shards::Shard;
use std::alloc::Global;
use traveller::{Run, Traveller};
use vertex_partition::PartRows;
use walk_model::{Finished, Memory, Print};
use walker_mail::Addressed;

impl Shard {
    /// Takes in a walker at the beginning of a step, and keeps its print.
    pub(crate) fn admit(&mut self, alloc: Global, traveller: Traveller) -> Result<(), Memory>
        requires within { IsWithin self.old.run.vertices traveller }
        requires owned { owner self.old.part.cuts traveller.state.at ≡ self.old.part.part }
        requires fresh { traveller.mode ≡ Fresh }
        ensures run { self.new.run ≡ self.old.run }
        ensures part { self.new.part ≡ self.old.part }
        ensures residents { OnOk result ((f : Walker → ℕ) → sum_by f self.new.residents ≡ sum_by f self.old.residents + f traveller) }
        ensures aside { self.new.aside ≡ self.old.aside }
        ensures prints { OnOk result (self.new.prints ≡ self.old.prints ++ print_of traveller ∷ []) }
        ensures whole { self.new.whole ≡ self.old.whole }
    {
        self.prints.make_room(alloc, 1)?;
        self.prints.push(Print {
            walker: traveller.number(),
            step: traveller.step(),
            at: traveller.at(),
        });
        self.ready.push(traveller)?;
        Ok(())
    }
}

/// The shards of parts, in order, each with the same run.
fn shards_of(alloc: Global, run: &Run, parts: Vec<PartRows>) -> Result<Vec<Shard>, Memory>
    requires { All (Suits run.now) parts.items }
    ensures shards { IfOk result (λ ss. AreShardsWith run.now parts.items ss.items) }
    ensures empty { IfOk result (λ ss. All IsEmpty ss.items) }
{
    let mut shards = Vec::with_capacity(alloc, parts.len())?;
    for part in parts {
        let own = run.copy(alloc)?;
        shards.push(Shard::new(alloc, own, part))?;
    }
    Ok(shards)
}

/// How many walkers the run of some shards has.
fn walkers_of(shards: &[Shard]) -> u64
    ensures { (run : TheRun) → 0 < length shards.now → All (λ s. IsSameRun s.run run) shards.now → result ≡ walker_count run.plan.start run.vertices }
{
    match shards.first() {
        Some(shard) => shard.run.walkers(),
        None => 0,
    }
}

/// The prints of some shards.
fn prints_of(alloc: Global, shards: Vec<Shard>) -> Result<Vec<Prints>, Memory>
    ensures { IfOk result (λ kept. flat_map (λ k. k.prints) kept.items ≡ flat_map (λ s. s.prints) shards.items) }
{
    let mut kept = Vec::with_capacity(alloc, shards.len())?;
    for shard in shards {
        kept.push(shard.prints)?;
    }
    Ok(kept)
}

/// The shards of all parts of a graph, in order, and the items in flight between them.
#[derive(Drop)]
pub struct World {
    pub shards: Vec<Shard>,
    pub flight: Vec<Addressed<Item>>,
}

impl World {
    /// The world in which each walker of a run stands at its start, in the shard of the part that owns that vertex,
    /// and has left the print of its start there.
    ///
    /// # Errors
    ///
    /// `Memory` where there is too little of it.
    pub fn begin(alloc: Global, run: Run, parts: Vec<PartRows>) -> Result<World, Memory>
        requires suits { All (Suits run) parts.items }
        requires parts { AreInOrder parts.items }
        requires some { 0 < walker_count run.plan.start run.vertices → 0 < run.vertices }
        ensures { IfOk result (λ w. (g : RowGraph) (cuts : List ℕ) → ArePartsOf g run.plan.weighted cuts parts.items → HasBegun g run cuts w) }
    {
        let mut shards = shards_of(alloc, &run, parts)?;
        for number in 0..run.walkers() {
            let traveller = traveller_of(&run, number);
            let owner = shards[0].part.owner(traveller.at());
            shards[owner as usize].admit(alloc, traveller)?;
        }
        Ok(World {
            shards,
            flight: Vec::new(alloc),
        })
    }

    /// The walks that the prints of a finished world make, in the order of their walkers. Each piece of prints is
    /// freed when its prints stand in the walks.
    ///
    /// # Errors
    ///
    /// `Memory` where there is none for all entries, 4 bytes each, or for the beginnings, 16 bytes each.
    pub fn finish(self, alloc: Global) -> Result<Finished, Memory>
        ensures { IfOk result (λ f. (g : RowGraph) (run : TheRun) (cuts : List ℕ) → IsSoundWorld g run cuts self → HasFinished self → f ≡ walks_in (parted g run cuts)) }
    {
        let shards = self.shards;
        let mut counts = vec![in alloc; 1u64; walkers_of(&shards) as usize]?;
        count_in_shards(&mut counts, &shards);
        let kept = prints_of(alloc, shards)?;
        finish(alloc, kept, &counts)
    }
}
