//! All walks of a run on one part.

ghost use Rattle.std.specs.Prelude.{◌≡◌, ◌≤◌, ◌<◌, IfOk};
ghost use Rattle.walk_model.specs.Walk.{walker_count};
ghost use Rattle.csr_store.specs.RowGraph.{RowGraph};
ghost use Rattle.vertex_partition.specs.PartViews.{IsPartOf};
ghost use Rattle.traveller.specs.Standing.{Suits, parted};
ghost use Rattle.shard_core.specs.Abreast.{OwnsAll};
ghost use Rattle.shard_core.specs.Walks.{walks_in};

use crate::abreast::{ABREAST, walk_abreast};
use crate::counting::count_prints;
use crate::gathering::add_walks;
use crate::prints::{PIECE, Prints};
use std::alloc::Global;
use std::marker::Brand;
use std::sync::ledger::{Blank, Ledger};
use traveller::{Run, WalkPart};
use vertex_partition::PartRows;
use walk_model::{Finished, Memory, Steps};

/// How many walkers, of so many steps at most, are walked before their prints are put together: as many as
/// leave no more prints than a piece has room for, and no fewer than go abreast.
fn batch_of(length: u32) -> u64
    ensures { 1 ≤ result }
{
    let abreast = ABREAST as u64;
    let room = (PIECE - 2 * ABREAST) as u64;
    let most = room / (u64::from(length) + 1);
    (most / abreast).max(1) * abreast
}

/// All walks, with a blank for the counter of steps.
fn all_walks<L: Ledger>(
    alloc: Global,
    here: &WalkPart<'_>,
    blank: Blank,
) -> Result<Finished, Memory>
    requires name { blank.name ≡ L.name }
    requires parts { blank.parts ≡ L.parts }
    requires blank { 0 < blank.parts }
    requires all { OwnsAll here.now.part }
    requires some { 0 < walker_count here.now.run.plan.start here.now.run.vertices → 0 < here.now.run.vertices }
    ensures { IfOk result (λ f. (g : RowGraph) → IsPartOf g here.now.part → f ≡ walks_in (parted g here.now.run here.now.part.cuts)) }
{
    let count = here.run().walkers();
    let batch = batch_of(here.run().plan.length);
    let mut steps = Steps::<L>::new(blank);
    let mut prints = Prints::new(alloc);
    let mut counts = vec![in alloc; 0u64; count as usize]?;
    let mut begins = Vec::with_capacity(alloc, count as usize)?;
    let mut entries = Vec::new(alloc);
    let mut first = 0u64;
    'batches: while first < count {
        let end = first + batch.min(count - first);
        prints.clear();
        walk_abreast(alloc, here, first, end, &mut prints, &mut steps)?;
        count_prints(counts.as_mut_slice(), &prints);
        let batch_counts = &counts[first as usize..end as usize];
        add_walks(&mut entries, &mut begins, &prints, batch_counts)?;
        first = end;
    }
    Ok(Finished::of(entries, begins))
}

/// The walks of all walkers of a run, in the order of their numbers, on a part that has all rows of the
/// graph. Their prints are put together batch by batch.
///
/// # Errors
///
/// `Memory` where there is too little of it: 4 bytes for each entry of the walks, up to twice that while their
/// list grows, 16 bytes for each walker, and 16 bytes for each print of a batch.
pub fn walk_all(alloc: Global, run: &Run, part: &PartRows) -> Result<Finished, Memory>
    requires suits { Suits run.now part.now }
    requires all { OwnsAll part.now }
    requires some { 0 < walker_count run.now.plan.start run.now.vertices → 0 < run.now.vertices }
    ensures { IfOk result (λ f. (g : RowGraph) → IsPartOf g part.now → f ≡ walks_in (parted g run.now part.now.cuts)) }
{
    let here = WalkPart::of(run, part);
    all_walks::<Brand>(alloc, &here, Blank::new(1))
}
