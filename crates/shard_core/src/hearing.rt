//! Walkers that wait hear replies.

ghost use Rattle.std.specs.Prelude.{◌≡◌, ◌≤◌, ◌<◌, ◌∷◌, ◌++◌, [], ℕ, List, All, length, slice_index_or, Some, IfOk, OnOk, IfSome, IfNone};
ghost use Rattle.walk_model.specs.Cuts.{owner};
ghost use Rattle.walk_model.specs.declared.messages.Ask.{Ask as TheAsk};
ghost use Rattle.traveller.specs.Walkers.{Walker, ask_of};
ghost use Rattle.shard_core.specs.declared.hearing.Offer.{Offer as TheOffer};
ghost use Rattle.shard_core.specs.KeptShards.{WaitsIn, HasForm};
ghost use Rattle.shard_core.specs.Offers.{AreRising, IsOpenAt, IsHearing, MayHear, asker_of, open_count, open_tolds};

use crate::shards::Told;
use std::alloc::Global;
use traveller::{Run, Traveller};
use vertex_partition::PartRows;
use walk_model::{Ask, Memory};

/// A reply that a walker may hear, and whether one has heard it.
#[derive(Debug, Drop)]
pub(crate) struct Offer {
    pub(crate) told: Told,
    pub(crate) taken: bool,
}

/// Replies that walkers may hear, walkers that have heard one, and walkers that go on waiting.
#[derive(Drop)]
pub(crate) struct Hearing {
    pub(crate) offers: Vec<Offer>,
    pub(crate) ready: Vec<Traveller>,
    pub(crate) waiting: Vec<Traveller>,
}

/// The place of the first reply to a walker of this number or a higher one.
fn first_place(offers: &[Offer], number: u64) -> usize
    requires { AreRising offers.now }
    ensures within { result ≤ length offers.now }
    ensures before { (k : ℕ) (d : TheOffer) → k < result → asker_of (slice_index_or offers.now k d) < number }
    ensures behind { (k : ℕ) (d : TheOffer) → result ≤ k → k < length offers.now → number ≤ asker_of (slice_index_or offers.now k d) }
{
    offers.partition_point(|o| o.told.reply.ask.walker < number)
}

/// The place of a reply to an ask that no walker has heard. All that answer the asks of one walker stand side by
/// side.
fn find_offer(offers: &[Offer], ask: &Ask) -> Option<usize>
    requires { AreRising offers.now }
    ensures found { IfSome result (IsOpenAt offers.now ask.now) }
    ensures none { IfNone result (open_count ask.now offers.now ≡ 0) }
{
    let mut place = first_place(offers, ask.walker);
    'finding: while place < offers.len() && offers[place].told.reply.ask.walker == ask.walker {
        if !offers[place].taken && offers[place].told.reply.ask == *ask {
            return Some(place);
        }
        place += 1;
    }
    None
}

/// The ask that a walker of this part waits for.
fn ask_from(part: &PartRows, traveller: &Traveller) -> Option<Ask>
    requires { owner part.now.cuts traveller.now.state.at ≡ part.now.part }
    ensures { result ≡ ask_of (owner part.now.cuts) traveller.now }
{
    match traveller.question() {
        None => None,
        Some(question) => Some(Ask {
            walker: traveller.number(),
            step: traveller.step() + 1,
            home: part.part(),
            question,
        }),
    }
}

impl Hearing {
    /// The place of a reply that a walker of this part may hear.
    fn find_for(&self, part: &PartRows, traveller: &Traveller) -> Option<usize>
        requires owned { owner part.now.cuts traveller.now.state.at ≡ part.now.part }
        requires rising { AreRising self.now.offers.items }
        ensures found { IfSome result (λ i. MayHear (owner part.now.cuts) self.now.offers.items traveller.now i) }
        ensures none { IfNone result ((a : TheAsk) → ask_of (owner part.now.cuts) traveller.now ≡ Some a → open_count a self.now.offers.items ≡ 0) }
    {
        match ask_from(part, traveller) {
            None => None,
            Some(ask) => find_offer(&self.offers, &ask),
        }
    }

    /// A walker that waits hears a reply to its ask that no other has heard, or goes on waiting where there is none.
    fn pass(&mut self, run: &Run, part: &PartRows, traveller: Traveller) -> Result<(), Memory>
        requires waits { WaitsIn run.now part.now traveller }
        requires rising { AreRising self.old.offers.items }
        requires forms { All (λ o. HasForm o.told) self.old.offers.items }
        ensures { OnOk result ((first : List TheOffer) (passed : List Walker) → IsHearing run.now part.now first passed self.old
            → IsHearing run.now part.now first (passed ++ traveller ∷ []) self.new) }
    {
        let mut traveller = traveller;
        match self.find_for(part, &traveller) {
            None => self.waiting.push(traveller)?,
            Some(place) => {
                traveller.hear(run, part, &self.offers[place].told.reply);
                self.offers[place].taken = true;
                self.ready.push(traveller)?;
            }
        }
        Ok(())
    }
}

/// Walkers that wait, in their order, hear replies to their asks, the first ones first. Each reply is heard by one
/// walker at most.
pub(crate) fn hear_each(
    alloc: Global,
    run: &Run,
    part: &PartRows,
    waiting: Vec<Traveller>,
    offers: Vec<Offer>,
) -> Result<Hearing, Memory>
    requires waits { All (WaitsIn run.now part.now) waiting.items }
    requires forms { All (λ o. HasForm o.told) offers.items }
    ensures { IfOk result (IsHearing run.now part.now offers.items waiting.items) }
{
    if offers.is_empty() {
        return Ok(Hearing {
            offers,
            ready: Vec::new(alloc),
            waiting,
        });
    }
    let mut offers = offers;
    // stable, so that what was set aside comes first
    offers.sort_by_key(|o| o.told.reply.ask.walker)?;
    let mut hearing = Hearing {
        offers,
        ready: Vec::new(alloc),
        waiting: Vec::new(alloc),
    };
    for traveller in waiting {
        hearing.pass(run, part, traveller)?;
    }
    Ok(hearing)
}

/// The replies that no walker has heard.
pub(crate) fn still_open(alloc: Global, offers: Vec<Offer>) -> Result<Vec<Told>, Memory>
    ensures { IfOk result (λ told. told.items ≡ open_tolds offers.items) }
{
    let mut aside = Vec::new(alloc);
    'keeping: for Offer { told, taken } in offers {
        if !taken {
            aside.push(told)?;
        }
    }
    Ok(aside)
}
