//! What arrives in a round, and the replies to what is asked.

ghost use Rattle.std.specs.Prelude.{◌≡◌, ◌≤◌, ◌∷◌, ◌++◌, [], length, map, All, IfOk, OnOk};
ghost use Rattle.std.specs.List.{filter_map};
ghost use Rattle.query_batch.specs.Questions.{CanAnswer};
ghost use Rattle.query_batch.specs.Replies.{reply_to};
ghost use Rattle.shard_core.specs.Items.{item_of};
ghost use Rattle.shard_core.specs.Offers.{ask_in, offer_in, offer_of, sent_home, walker_in};

use crate::hearing::Offer;
use crate::items::Item;
use crate::shards::Told;
use query_batch::answer;
use std::alloc::Global;
use std::sync::ledger::Ledger;
use traveller::Traveller;
use vertex_partition::PartRows;
use walk_model::{Ask, Memory, Reply, Steps};
use walker_mail::Addressed;

/// What a round takes in: walkers, asks, and replies that walkers may hear.
#[derive(Drop)]
pub(crate) struct Arrived {
    pub(crate) walkers: Vec<Traveller>,
    pub(crate) asks: Vec<Ask>,
    pub(crate) offers: Vec<Offer>,
}

impl Arrived {
    /// Takes in one item.
    fn add(&mut self, item: Item) -> Result<(), Memory>
        ensures walkers { OnOk result (self.new.walkers.items ≡ self.old.walkers.items ++ filter_map walker_in (item_of item ∷ [])) }
        ensures asks { OnOk result (self.new.asks.items ≡ self.old.asks.items ++ filter_map ask_in (item_of item ∷ [])) }
        ensures offers { OnOk result (self.new.offers.items ≡ self.old.offers.items ++ filter_map offer_in (item_of item ∷ [])) }
    {
        match item {
            Item::Walker { traveller, .. } => self.walkers.push(traveller)?,
            Item::Ask { ask, .. } => self.asks.push(ask)?,
            Item::Reply { reply, from } => self.offers.push(Offer {
                told: Told { reply, from },
                taken: false,
            })?,
        }
        Ok(())
    }
}

/// Replies that were set aside, as ones that walkers may hear.
fn offered(alloc: Global, aside: Vec<Told>) -> Result<Vec<Offer>, Memory>
    ensures { IfOk result (λ offers. offers.items ≡ map offer_of aside.items) }
{
    let mut offers = Vec::with_capacity(alloc, aside.len())?;
    for told in aside {
        offers.push(Offer { told, taken: false })?;
    }
    Ok(offers)
}

/// Takes in the items that arrive, in their order. The replies that were set aside come before those that arrive.
pub(crate) fn take_in(
    alloc: Global,
    aside: Vec<Told>,
    arrivals: Vec<Item>,
) -> Result<Arrived, Memory>
    ensures walkers { IfOk result (λ a. a.walkers.items ≡ filter_map walker_in (map item_of arrivals.items)) }
    ensures asks { IfOk result (λ a. a.asks.items ≡ filter_map ask_in (map item_of arrivals.items)) }
    ensures offers { IfOk result (λ a. a.offers.items ≡ map offer_of aside.items ++ filter_map offer_in (map item_of arrivals.items)) }
{
    let mut arrived = Arrived {
        walkers: Vec::with_capacity(alloc, arrivals.len())?,
        asks: Vec::new(alloc),
        offers: offered(alloc, aside)?,
    };
    for item in arrivals {
        arrived.add(item)?;
    }
    Ok(arrived)
}

/// Replies of a part, each on its way to the part that asked.
fn sent_back(alloc: Global, from: u32, replies: Vec<Reply>) -> Result<Vec<Addressed<Item>>, Memory>
    ensures { IfOk result (λ out. out.items ≡ map (sent_home from) replies.items) }
{
    let mut out = Vec::with_capacity(alloc, replies.len())?;
    for reply in replies {
        out.push(Addressed {
            to: reply.ask.home,
            item: Item::Reply { reply, from },
        })?;
    }
    Ok(out)
}

/// Answers all asks at once. Each reply goes to the part that asked.
pub(crate) fn answer_all<L: Ledger>(
    alloc: Global,
    part: &PartRows,
    asks: Vec<Ask>,
    steps: &mut Steps<L>,
) -> Result<Vec<Addressed<Item>>, Memory>
    requires { All (λ a. CanAnswer part.now a.question) asks.items }
    ensures replies { IfOk result (λ out. out.items ≡ map (λ a. sent_home part.now.part (reply_to part.now.edges a)) asks.items) }
    ensures part { IfOk result (λ _. part.now.part ≤ length part.now.cuts) }
{
    let replies = answer(alloc, part, asks, steps)?;
    let out = sent_back(alloc, part.part(), replies)?;
    Ok(out)
}
