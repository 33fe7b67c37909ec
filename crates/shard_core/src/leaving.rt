//! What the turns of walkers leave.

ghost use Rattle.std.specs.Prelude.{◌≡◌, ◌+◌, ◌<◌, ℕ, true, Some, OnOk};
ghost use Rattle.walk_model.specs.Cuts.{owner};
ghost use Rattle.walk_model.specs.declared.messages.Question.{Question as TheQuestion};
ghost use Rattle.query_batch.specs.Numbers.{IsWithin as IsAskedWithin};
ghost use Rattle.traveller.specs.Standing.{StandsIn};
ghost use Rattle.traveller.specs.Walkers.{is_over, question_of};
ghost use Rattle.traveller.specs.declared.modes.Mode.TheVariants.{Fresh};
ghost use Rattle.world_law.specs.Worlds.{Piece};
ghost use Rattle.shard_core.specs.Leaving.{HasTurned, IsLeft, left_weight, turn_weight};

use crate::items::{Item, asked_of};
use traveller::{Traveller, WalkPart};
use walk_model::{Ask, Memory, Question};
use walker_mail::Addressed;

/// What turns leave: walkers that wait, walkers whose walks have ended, and items on their way.
#[derive(Drop)]
pub(crate) struct Left {
    pub(crate) waiting: Vec<Traveller>,
    pub(crate) ended: Vec<Traveller>,
    pub(crate) out: Vec<Addressed<Item>>,
}

/// The ends of the row where a walker stands are vertices, and so is the one that it asks about.
fn asks_within(here: &WalkPart<'_>, traveller: &Traveller)
    requires { StandsIn here.now.run here.now.part traveller.now }
    ensures { (q : TheQuestion) → question_of traveller.now.mode ≡ Some q → IsAskedWithin here.now.part.vertices q }
{
    let _ends = here.part().dsts(traveller.at());
}

impl Left {
    /// A walker asks, and waits.
    fn ask(
        &mut self,
        here: &WalkPart<'_>,
        traveller: Traveller,
        question: Question,
    ) -> Result<(), Memory>
        requires stands { StandsIn here.now.run here.now.part traveller }
        requires asks { question_of traveller.mode ≡ Some question }
        requires left { IsLeft here.now.run here.now.part self.old }
        ensures left { OnOk result (IsLeft here.now.run here.now.part self.new) }
        ensures same { OnOk result ((h : Piece → ℕ) → left_weight h here.now.part self.new ≡ left_weight h here.now.part self.old + turn_weight h here.now.part traveller) }
    {
        asks_within(here, &traveller);
        let ask = Ask {
            walker: traveller.number(),
            step: traveller.step() + 1,
            home: here.part().part(),
            question,
        };
        let to = here.part().owner(asked_of(question));
        self.out.push(Addressed {
            to,
            item: Item::Ask { ask, to },
        })?;
        self.waiting.push(traveller)?;
        Ok(())
    }

    /// A walker goes to the part that owns its place.
    fn send(&mut self, here: &WalkPart<'_>, traveller: Traveller) -> Result<(), Memory>
        requires turned { HasTurned here.now.run here.now.part traveller }
        requires fresh { traveller.mode ≡ Fresh }
        requires leaves { owner here.now.part.cuts traveller.state.at ≡ here.now.part.part → ⊥ }
        requires left { IsLeft here.now.run here.now.part self.old }
        ensures left { OnOk result (IsLeft here.now.run here.now.part self.new) }
        ensures same { OnOk result ((h : Piece → ℕ) → left_weight h here.now.part self.new ≡ left_weight h here.now.part self.old + turn_weight h here.now.part traveller) }
    {
        let from = here.part().part();
        let to = here.part().owner(traveller.at());
        self.out.push(Addressed {
            to,
            item: Item::Walker {
                traveller,
                from,
                to,
            },
        })?;
        Ok(())
    }

    /// A walker has ended its walk.
    fn end(&mut self, here: &WalkPart<'_>, traveller: Traveller) -> Result<(), Memory>
        requires turned { HasTurned here.now.run here.now.part traveller }
        requires over { is_over traveller.mode ≡ true }
        requires left { IsLeft here.now.run here.now.part self.old }
        ensures left { OnOk result (IsLeft here.now.run here.now.part self.new) }
        ensures same { OnOk result ((h : Piece → ℕ) → left_weight h here.now.part self.new ≡ left_weight h here.now.part self.old + turn_weight h here.now.part traveller) }
    {
        let _here = here;
        self.ended.push(traveller)?;
        Ok(())
    }

    /// A walker that can't make its next turn here waits, goes to another part or has ended its walk.
    pub(crate) fn take(&mut self, here: &WalkPart<'_>, traveller: Traveller) -> Result<(), Memory>
        requires turned { HasTurned here.now.run here.now.part traveller }
        requires leaves { traveller.mode ≡ Fresh → owner here.now.part.cuts traveller.state.at ≡ here.now.part.part → ⊥ }
        requires left { IsLeft here.now.run here.now.part self.old }
        ensures left { OnOk result (IsLeft here.now.run here.now.part self.new) }
        ensures same { OnOk result ((h : Piece → ℕ) → left_weight h here.now.part self.new ≡ left_weight h here.now.part self.old + turn_weight h here.now.part traveller) }
    {
        if traveller.has_ended() {
            return self.end(here, traveller);
        }
        match traveller.question() {
            Some(question) => self.ask(here, traveller, question),
            None => self.send(here, traveller),
        }
    }
}
