//! Lanes: travellers that go abreast, each with its words and with what was read ahead for it.

ghost use Rattle.std.specs.Prelude.{◌≡◌, ◌<◌, ◌+◌, ℕ, IsTrue, if◌then◌else◌};
ghost use Rattle.walk_model.specs.Cuts.{owner};
ghost use Rattle.csr_store.specs.RowGraph.{RowGraph};
ghost use Rattle.vertex_partition.specs.PartViews.{Owns, IsPartOf};

use crate::here::WalkPart;
use crate::runs::Run;
use crate::travellers::Traveller;
use std::marker::Model;
use std::mem;
use std::sync::ledger::Ledger;
use walk_model::{Print, Steps};
use walker_stream::{StreamReader, Streams};

/// A lane: a traveller on its way beside others, seen as that traveller alone. It holds the words of the
/// traveller and what was read ahead for its next step, on which no step depends.
#[derive(Drop)]
pub struct Lane {
    traveller: Traveller,
    words: StreamReader,
    // the column that the next dart may read, and what was read ahead
    column: usize,
    read: u128,
}

impl Model for Lane {
    ghost use Rattle.traveller.specs.Walkers.{Walker};

    ghost Value = { Walker };

    ghost view = { λ l. l.traveller };
}

/// No place of a word that a traveller comes to is above this one.
const MOST_PLACE: u64 = 0x4000_0000_0000_0000;

impl Lane {
    ghost use Rattle.traveller.specs.Ahead.{print_of};
    ghost use Rattle.traveller.specs.Deciding.{decided, gone};
    ghost use Rattle.traveller.specs.Standing.{CanGo, IsWithin, StandsIn, Suits, journey_on};
    ghost use Rattle.traveller.specs.Walkers.{Walker, is_fresh, is_over, is_ready};

    /// A lane with a traveller of a run, wherever it stands. The words that it carries are taken up.
    pub fn of(run: &Run, traveller: Traveller) -> Lane
        ensures { result ≡ traveller }
    {
        let words = traveller.reader(run);
        Lane {
            traveller,
            words,
            column: 0,
            read: 0,
        }
    }

    /// Another traveller of a run, at its start, takes the place of the one that was there.
    pub fn take(&mut self, run: &Run, traveller: Traveller)
        ensures { self.new ≡ traveller }
    {
        let _run = run;
        traveller.bring(&mut self.words);
        self.traveller = traveller;
    }

    /// Another traveller of a run, wherever it stands, takes the place of the one that was there, which is given
    /// back. The words that it carries are taken up, and the one that is given back carries its own.
    pub fn change(&mut self, traveller: Traveller) -> Traveller
        ensures next { self.new ≡ traveller }
        ensures before { result ≡ self.old }
    {
        self.traveller.pack(&mut self.words);
        traveller.bring(&mut self.words);
        mem::replace(&mut self.traveller, traveller)
    }

    /// The traveller of the lane, which is given up, and carries its next words.
    pub fn into_traveller(self) -> Traveller
        ensures { result ≡ self }
    {
        let Lane {
            mut traveller,
            mut words,
            column: _,
            read: _,
        } = self;
        traveller.pack(&mut words);
        traveller
    }

    /// Whether the walk of its traveller has ended.
    #[inline]
    pub fn has_ended(&self) -> bool
        ensures { result ≡ is_over self.now.mode }
    {
        self.traveller.has_ended()
    }

    /// The print that its traveller leaves where it stands, at the beginning of a step.
    #[inline]
    pub fn print(&self) -> Option<Print>
        ensures { result ≡ (if is_fresh self.now.mode then Some (print_of self.now) else None) }
    {
        if self.traveller.is_fresh() {
            Some(Print {
                walker: self.traveller.number(),
                step: self.traveller.step(),
                at: self.traveller.at(),
            })
        } else {
            None
        }
    }

    /// Reads the record of the table of the row where its traveller stands: its first field and its last, so
    /// that all of it is at hand.
    #[inline]
    pub fn arrive(&mut self, here: &WalkPart<'_>)
        requires { Owns here.now.part self.old.state.at }
        ensures { self.new ≡ self.old }
    {
        if let Some(table) = here.part().table(self.traveller.at()) {
            self.read = table.sum();
            self.column = table.len();
        }
    }

    /// Finds the column that the next dart reads, where the step begins with a dart, the board has the height
    /// 1 and the word doesn't miss.
    #[inline]
    pub fn aim(&mut self, here: &WalkPart<'_>)
        requires { Owns here.now.part self.old.state.at }
        ensures { self.new ≡ self.old }
    {
        if self.words.place() >= MOST_PLACE {
            return;
        }
        if let Some(table) = here.part().table(self.traveller.at()) {
            self.column = table.column_for(self.words.peek());
        }
    }

    /// Reads that column, so that it is at hand when the dart comes to it.
    #[inline]
    pub fn read_ahead(&mut self, here: &WalkPart<'_>)
        requires { Owns here.now.part self.old.state.at }
        ensures { self.new ≡ self.old }
    {
        if let Some(table) = here.part().table(self.traveller.at()) {
            if self.column < table.len() {
                self.read = table.own(self.column);
            }
        }
    }

    /// Decides what its traveller does next, as `Traveller::decide` does.
    #[inline]
    pub fn decide<L: Ledger>(&mut self, here: &WalkPart<'_>, steps: &mut Steps<L>)
        requires stands { StandsIn here.now.run here.now.part self.old }
        requires ready { IsTrue (is_ready self.old.mode) }
        ensures data { (g : RowGraph) → IsPartOf g here.now.part → self.new ≡ decided (journey_on g here.now.run here.now.part.cuts self.old) self.old }
        ensures number { self.new.number ≡ self.old.number }
        ensures start { self.new.start ≡ self.old.start }
        ensures within { IsWithin here.now.part.vertices self.new }
        ensures goes { CanGo here.now.part self.new self.new.mode }
        ensures stands { owner here.now.part.cuts self.new.state.at ≡ here.now.part.part → StandsIn here.now.run here.now.part self.new }
    {
        let run = here.run();
        if self.words.seed() != run.seed {
            self.words = Streams::new(run.seed).reader(self.traveller.number(), 0);
        }
        self.traveller
            .decide(run, here.factors(), here.part(), &mut self.words, steps);
    }

    /// Its traveller goes along the edge that it has chosen, as `Traveller::go` does.
    #[inline]
    pub fn go(&mut self, here: &WalkPart<'_>)
        requires within { IsWithin here.now.part.vertices self.old }
        requires goes { CanGo here.now.part self.old self.old.mode }
        ensures data { (g : RowGraph) → IsPartOf g here.now.part → self.new ≡ gone (journey_on g here.now.run here.now.part.cuts self.old) self.old }
        ensures within { IsWithin here.now.part.vertices self.new }
        ensures stands { (owner here.now.part.cuts self.old.state.at ≡ here.now.part.part → StandsIn here.now.run here.now.part self.old)
            → owner here.now.part.cuts self.new.state.at ≡ here.now.part.part → StandsIn here.now.run here.now.part self.new }
    {
        self.traveller.go(here.run(), here.part());
    }
}
