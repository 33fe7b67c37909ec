//! What goes from one part to another.

ghost use Rattle.std.specs.Prelude.{◌≡◌};
ghost use Rattle.traveller.specs.Walkers.{asked_vertex};
ghost use Rattle.world_law.specs.Items.{ask_what, reply_what};

use traveller::Traveller;
use walk_model::{Ask, Found, Letter, Question, Reply, What};
use walker_mail::Mail;

/// What goes from one part to another: a walker, to the part that owns its place; an ask, to the part that owns the
/// vertex that it asks about; and a reply, from there to the part where the walker waits.
#[derive(Debug, Drop)]
pub enum Item {
    Walker {
        traveller: Traveller,
        from: u32,
        to: u32,
    },
    Ask {
        ask: Ask,
        to: u32,
    },
    Reply {
        reply: Reply,
        from: u32,
    },
}

/// The vertex whose owner is asked.
pub(crate) fn asked_of(question: Question) -> u32
    ensures { result ≡ asked_vertex question }
{
    match question {
        Question::Edge { t, .. } => t,
        Question::Row { t } => t,
    }
}

/// What a letter says of a question.
fn what_is_asked(question: Question) -> What
    ensures { result ≡ ask_what question }
{
    match question {
        Question::Edge { t, x } => What::AskEdge { t, x },
        Question::Row { t } => What::AskRow { t },
    }
}

/// What a letter says of a reply.
fn what_is_told(reply: &Reply) -> What
    ensures { result ≡ reply_what reply.now.ask.question reply.now.found }
{
    match &reply.found {
        Found::Edge { near } => What::ReplyEdge { near: *near },
        Found::Row { .. } => What::ReplyRow {
            t: asked_of(reply.ask.question),
        },
    }
}

impl Mail for Item {
    ghost use Rattle.shard_core.specs.Items.{item_of};
    ghost use Rattle.world_law.specs.Items.{letter_of};

    ghost description = { λ i. letter_of (item_of i) };

    fn letter(&self) -> Letter {
        match self {
            Item::Walker {
                traveller,
                from,
                to,
            } => Letter {
                walker: traveller.number(),
                step: traveller.step(),
                from: *from,
                to: *to,
                what: What::Move,
            },
            Item::Ask { ask, to } => Letter {
                walker: ask.walker,
                step: ask.step,
                from: ask.home,
                to: *to,
                what: what_is_asked(ask.question),
            },
            Item::Reply { reply, from } => Letter {
                walker: reply.ask.walker,
                step: reply.ask.step,
                from: *from,
                to: reply.ask.home,
                what: what_is_told(reply),
            },
        }
    }
}
