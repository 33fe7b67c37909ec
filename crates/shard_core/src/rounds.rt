//! The rounds of a shard.

ghost use Rattle.std.specs.Prelude.{◌≡◌, ◌<◌, ◌++◌, true, false, map, All, IfOk, OnOk, OnErr};
ghost use Rattle.csr_store.specs.RowGraph.{RowGraph};
ghost use Rattle.vertex_partition.specs.PartViews.{IsPartOf};
ghost use Rattle.traveller.specs.Standing.{parted};
ghost use Rattle.world_law.specs.Rounds.{IsRound};
ghost use Rattle.shard_core.specs.Crowds.{IsCrowd, crowd_data};
ghost use Rattle.shard_core.specs.Items.{item_of};
ghost use Rattle.shard_core.specs.Shards.{shard_of};
ghost use Rattle.shard_core.specs.SoundWorlds.{IsInFlight, flight_of};
ghost use Rattle.shard_core.specs.Taking.{Takes};

use crate::arriving::{Arrived, answer_all, take_in};
use crate::hearing::{Hearing, hear_each, still_open};
use crate::items::Item;
use crate::leaving::Left;
use crate::prints::Prints;
use crate::shards::{Shard, Told};
use crate::turning::turn_ready;
use std::alloc::Global;
use std::marker::Brand;
use std::mem;
use std::sync::ledger::{Blank, Ledger};
use traveller::{Traveller, WalkPart};
use walk_model::{Memory, Steps};
use walker_mail::Addressed;

/// The walkers of a shard, and the replies that it set aside.
#[derive(Drop)]
pub(crate) struct Crowd {
    pub(crate) ready: Vec<Traveller>,
    pub(crate) waiting: Vec<Traveller>,
    pub(crate) ended: Vec<Traveller>,
    pub(crate) aside: Vec<Told>,
}

/// Some walkers and then others. Where there are none before them, the others aren't moved.
fn behind(first: Vec<Traveller>, second: Vec<Traveller>) -> Result<Vec<Traveller>, Memory>
    ensures { IfOk result (λ all. all.items ≡ first.items ++ second.items) }
{
    if first.is_empty() {
        return Ok(second);
    }
    let mut all = first;
    let mut second = second;
    all.append(&mut second)?;
    Ok(all)
}

/// Walkers one after another.
fn joined(
    first: Vec<Traveller>,
    second: Vec<Traveller>,
    third: Vec<Traveller>,
) -> Result<Vec<Traveller>, Memory>
    ensures { IfOk result (λ all. all.items ≡ (first.items ++ second.items) ++ third.items) }
{
    let all = behind(first, second)?;
    behind(all, third)
}

/// What a round makes of a shard's walkers, and what it gives out.
fn make_round<L: Ledger>(
    alloc: Global,
    here: &WalkPart<'_>,
    crowd: Crowd,
    prints: &mut Prints,
    arrivals: Vec<Item>,
    blank: Blank,
) -> Result<(Crowd, Vec<Addressed<Item>>), Memory>
    requires name { blank.name ≡ L.name }
    requires parts { blank.parts ≡ L.parts }
    requires blank { 0 < blank.parts }
    requires crowd { IsCrowd here.now.run here.now.part crowd }
    requires takes { All (λ i. Takes here.now.run.vertices here.now.part (item_of i)) arrivals.items }
    ensures crowd { IfOk result (λ r. IsCrowd here.now.run here.now.part r.0) }
    ensures out { IfOk result (λ r. All (IsInFlight here.now.run.vertices here.now.part.cuts) r.1.items) }
    ensures round { IfOk result (λ r. (g : RowGraph) → IsPartOf g here.now.part
        → IsRound (parted g here.now.run here.now.part.cuts) (crowd_data here.now.part crowd prints.old.prints) (map item_of arrivals.items)
        (crowd_data here.now.part r.0 prints.new.prints) (flight_of r.1.items)) }
{
    let Crowd {
        ready,
        waiting,
        ended,
        aside,
    } = crowd;
    let run = here.run();
    let part = here.part();
    let mut steps = Steps::<L>::new(blank);
    let Arrived {
        walkers,
        asks,
        offers,
    } = take_in(alloc, aside, arrivals)?;
    let out = answer_all(alloc, part, asks, &mut steps)?;
    let Hearing {
        offers,
        ready: heard,
        waiting,
    } = hear_each(alloc, run, part, waiting, offers)?;
    let aside = still_open(alloc, offers)?;
    let ready = joined(ready, walkers, heard)?;
    let mut left = Left {
        waiting,
        ended,
        out,
    };
    turn_ready(alloc, here, ready, &mut left, prints, &mut steps)?;
    let Left {
        waiting,
        ended,
        out,
    } = left;
    let crowd = Crowd {
        ready: Vec::new(alloc),
        waiting,
        ended,
        aside,
    };
    Ok((crowd, out))
}

impl Shard {
    /// Takes in the items that arrive and the replies that were set aside: answers the asks, has each reply heard by
    /// a walker that waits here with its ask, sets any other reply aside, and lets each walker that can go on make its
    /// turns until it leaves, waits or has ended. A walker waits here where it did when the round began and has heard no
    /// reply in it. Replies that were set aside come before those that arrive. What it gives out is the result.
    ///
    /// # Errors
    ///
    /// `Memory` where there is too little of it; then the shard isn't whole.
    pub fn round(
        &mut self,
        alloc: Global,
        arrivals: Vec<Item>,
    ) -> Result<Vec<Addressed<Item>>, Memory>
        requires whole { self.old.whole ≡ true }
        requires takes { All (λ i. Takes self.old.run.vertices self.old.part (item_of i)) arrivals.items }
        ensures round { IfOk result (λ out. (g : RowGraph) → IsPartOf g self.old.part
            → IsRound (parted g self.old.run self.old.part.cuts) (shard_of self.old) (map item_of arrivals.items) (shard_of self.new) (flight_of out.items)) }
        ensures addressed { IfOk result (λ out. All (IsInFlight self.old.run.vertices self.old.part.cuts) out.items) }
        ensures run { self.new.run ≡ self.old.run }
        ensures part { self.new.part ≡ self.old.part }
        ensures whole { OnOk result (self.new.whole ≡ true) }
        ensures broken { OnErr result (self.new.whole ≡ false) }
    {
        self.whole = false;
        let crowd = Crowd {
            ready: mem::replace(&mut self.ready, Vec::new(alloc)),
            waiting: mem::replace(&mut self.waiting, Vec::new(alloc)),
            ended: mem::replace(&mut self.ended, Vec::new(alloc)),
            aside: mem::replace(&mut self.aside, Vec::new(alloc)),
        };
        let here = WalkPart::of(&self.run, &self.part);
        let (crowd, out) = make_round::<Brand>(
            alloc,
            &here,
            crowd,
            &mut self.prints,
            arrivals,
            Blank::new(1),
        )?;
        self.ready = crowd.ready;
        self.waiting = crowd.waiting;
        self.ended = crowd.ended;
        self.aside = crowd.aside;
        self.whole = true;
        Ok(out)
    }
}
