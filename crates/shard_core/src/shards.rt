//! A part with the walkers that reside there.

ghost use Rattle.std.specs.Prelude.{◌≡◌, ◌<◌, [], true, IsTrue, Some, length, slice_get, sum_by};
ghost use Rattle.query_batch.specs.Numbers.{IsWithin as IsAskedWithin};
ghost use Rattle.traveller.specs.declared.modes.Mode.TheVariants.{Fresh};
ghost use Rattle.traveller.specs.Replies.{Answers};
ghost use Rattle.traveller.specs.Standing.{IsWithin, Suits};
ghost use Rattle.vertex_partition.specs.PartViews.{Owns};
ghost use Rattle.world_law.specs.Finishing.{unfinished};
ghost use Rattle.shard_core.specs.Items.{item_of};
ghost use Rattle.shard_core.specs.Taking.{Takes};

use crate::items::{Item, asked_of};
use crate::prints::Prints;
use std::alloc::Global;
use std::marker::Model;
use traveller::{Run, Traveller};
use vertex_partition::PartRows;
use walk_model::{Found, Print, Question, Reply};
use walker_mail::Mail;

/// A reply that was set aside, with the part that it came from.
#[derive(Debug, Drop)]
pub(crate) struct Told {
    pub(crate) reply: Reply,
    pub(crate) from: u32,
}

/// Whether a question asks about vertices, of which there are so many.
fn is_asked_within(vertices: u32, question: Question) -> bool
    ensures yes { IsTrue result → IsAskedWithin vertices question }
    ensures no { IsAskedWithin vertices question → IsTrue result }
{
    match question {
        Question::Edge { t, x } => t < vertices && x < vertices,
        Question::Row { t } => t < vertices,
    }
}

/// Whether a reply has the form of its question.
fn has_form(reply: &Reply) -> bool
    ensures yes { IsTrue result → Answers reply.now.ask.question reply.now.found }
    ensures no { Answers reply.now.ask.question reply.now.found → IsTrue result }
{
    match (reply.ask.question, &reply.found) {
        (Question::Edge { .. }, Found::Edge { .. }) => true,
        (Question::Row { .. }, Found::Row { .. }) => true,
        _ => false,
    }
}

/// A part of a run with its walkers, the replies that no walker here waits for, and the prints of the steps that were
/// made here. Walkers that can go on, that wait and that have ended stand in lists of their own.
#[derive(Drop)]
pub struct Shard {
    pub(crate) run: Run,
    pub(crate) part: PartRows,
    pub(crate) ready: Vec<Traveller>,
    pub(crate) waiting: Vec<Traveller>,
    pub(crate) ended: Vec<Traveller>,
    pub(crate) aside: Vec<Told>,
    pub(crate) prints: Prints,
    pub(crate) whole: bool,
}

impl Model for Shard {
    ghost use Rattle.shard_core.specs.Shards.{ShardView};

    ghost Value = { ShardView };

    ghost use Rattle.shard_core.specs.KeptShards.{shard_view, IsShard};

    ghost view = { shard_view };

    ghost invariant = { IsShard };
}

impl Shard {
    /// A shard with no walker and no print. It takes no memory.
    pub fn new(alloc: Global, run: Run, part: PartRows) -> Shard
        requires { Suits run part }
        ensures run { result.run ≡ run }
        ensures part { result.part ≡ part }
        ensures residents { result.residents ≡ [] }
        ensures aside { result.aside ≡ [] }
        ensures prints { result.prints ≡ [] }
        ensures whole { result.whole ≡ true }
    {
        Shard {
            run,
            part,
            ready: Vec::new(alloc),
            waiting: Vec::new(alloc),
            ended: Vec::new(alloc),
            aside: Vec::new(alloc),
            prints: Prints::new(alloc),
            whole: true,
        }
    }

    /// The number of its part.
    pub fn part(&self) -> u32
        ensures { result ≡ self.now.part.part }
    {
        self.part.part()
    }

    /// Whether no round of it was broken off for want of memory.
    pub fn is_whole(&self) -> bool
        ensures { result ≡ self.now.whole }
    {
        self.whole
    }

    /// How many of its walkers have not ended.
    pub fn unfinished(&self) -> u64
        ensures { result ≡ sum_by unfinished self.now.residents }
    {
        self.ready.len() as u64 + self.waiting.len() as u64
    }

    /// How many prints it keeps.
    pub fn print_count(&self) -> u64
        ensures { result ≡ length self.now.prints }
    {
        self.prints.len()
    }

    /// Print `k`.
    pub fn print(&self, k: u64) -> Print
        requires { k < length self.now.prints }
        ensures { slice_get self.now.prints k ≡ Some result }
    {
        self.prints.get(k)
    }

    /// Whether a walker is at the beginning of a step, at a vertex of this part.
    fn takes_walker(&self, traveller: &Traveller) -> bool
        ensures yes { IsTrue result → IsWithin self.now.run.vertices traveller.now × (traveller.now.mode ≡ Fresh) × Owns self.now.part traveller.now.state.at }
        ensures no { IsWithin self.now.run.vertices traveller.now × (traveller.now.mode ≡ Fresh) × Owns self.now.part traveller.now.state.at → IsTrue result }
    {
        traveller.is_within(self.run.vertices)
            && traveller.is_fresh()
            && self.part.owns(traveller.at())
    }

    /// Whether it takes an item in: its letter comes from one of the parts and goes to this one, all its vertices are
    /// vertices, and it is a walker at the beginning of a step at a vertex of this part, an ask about such a vertex,
    /// or a reply in the form of its question.
    pub fn takes(&self, item: &Item) -> bool
        ensures yes { IsTrue result → Takes self.now.run.vertices self.now.part (item_of item.now) }
        ensures no { Takes self.now.run.vertices self.now.part (item_of item.now) → IsTrue result }
    {
        let letter = item.letter();
        if letter.to != self.part.part() || letter.from >= self.part.parts() {
            return false;
        }
        match item {
            Item::Walker { traveller, .. } => self.takes_walker(traveller),
            Item::Ask { ask, .. } => {
                is_asked_within(self.run.vertices, ask.question)
                    && self.part.owns(asked_of(ask.question))
            }
            Item::Reply { reply, .. } => {
                is_asked_within(self.run.vertices, reply.ask.question)
                    && reply.ask.home == self.part.part()
                    && has_form(reply)
            }
        }
    }
}
