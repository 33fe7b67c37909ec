//! A walker on its way.

ghost use Rattle.std.specs.Prelude.{◌≡◌, ◌≤◌, ◌<◌, ◌+◌, ◌*◌, ◌^◌, ℕ, length, IsTrue, Some, IfSome};
ghost use Rattle.walk_model.specs.Graph.{row};
ghost use Rattle.walk_model.specs.Cuts.{owner};
ghost use Rattle.csr_store.specs.RowGraph.{RowGraph};
ghost use Rattle.vertex_partition.specs.PartViews.{Owns, IsPartOf};
ghost use Rattle.walker_stream.specs.Standing.{standing};

use crate::choosing::choose_from;
use crate::deciding::{Decision, begun};
use crate::hearing::{asked, hear_edge, hear_row, near_factors, told_ends, told_near};
use crate::modes::{Mode, Turn};
use crate::ruling::{RuleFactors, rule_factors};
use crate::runs::Run;
use std::marker::{Brand, Model};
use std::sync::ledger::{Blank, Ledger};
use vertex_partition::PartRows;
use walk_model::{Question, Reply, State, Steps};
use walker_stream::{CarriedWords, StreamReader};

/// A walker on its way, seen as its number, its start, how many steps it may take, the state of its walk,
/// and how far it has come within its step. It holds no list. With it go the words that it takes next, which
/// no contract sees: a reader that takes them up is spared a refill.
#[derive(Debug, Drop)]
pub struct Traveller {
    number: u64,
    start: u32,
    length: u32,
    state: State,
    mode: Mode,
    // its next words, where it was packed up; they are its stream's, wherever it stands
    words: CarriedWords,
}

/// A reader at a place of a walker's stream under a seed, with the words that are carried.
fn reader_with(words: &CarriedWords, seed: u64, number: u64, place: u64) -> StreamReader
    ensures { result ≡ standing seed number place }
{
    let mut reader = words.reader();
    reader.follow(seed, number, place);
    reader
}

impl Model for Traveller {
    ghost use Rattle.traveller.specs.Walkers.{Walker};

    ghost Value = { Walker };

    ghost use Rattle.traveller.specs.Bounds.{IsBounded};

    ghost view = { λ t. record { number = t.number; start = t.start; length = t.length; state = t.state; mode = t.mode } };

    ghost invariant = { λ t. IsBounded (record { number = t.number; start = t.start; length = t.length; state = t.state; mode = t.mode }) };
}

impl Traveller {
    ghost use Rattle.traveller.specs.declared.runs.Run.{Run as TheRun};
    ghost use Rattle.traveller.specs.Deciding.{decided, gone, turn_of};
    ghost use Rattle.traveller.specs.FairDarts.{HasFairDarts};
    ghost use Rattle.traveller.specs.Places.{next_place};
    ghost use Rattle.traveller.specs.Replies.{Answers, hear};
    ghost use Rattle.traveller.specs.RuleFactors.{AreFactors};
    ghost use Rattle.traveller.specs.Standing.{CanGo, IsWithin, StandsIn, Suits, journey_on, parted};
    ghost use Rattle.traveller.specs.Ticks.{columns_in, turn_columns};
    ghost use Rattle.traveller.specs.Turns.{advance, board_at, row_at};
    ghost use Rattle.traveller.specs.Walkers.{Walker, first_walker, is_fresh, is_over, is_ready, question_of};

    /// A walker at its start, which may take so many steps, 1,048,576 at most.
    pub fn new(run: &Run, number: u64, start: u32, length: u32) -> Traveller
        requires start { start < run.now.vertices }
        requires length { length ≤ 1048576 }
        ensures first { result ≡ first_walker number start length }
        ensures within { IsWithin run.now.vertices result }
    {
        Traveller {
            number,
            start,
            length,
            state: State {
                at: start,
                previous: None,
                phase: 0,
                steps: 0,
                place: 0,
            },
            mode: Mode::Fresh,
            words: CarriedWords::none(run.seed, number, 0),
        }
    }

    /// Its number.
    #[inline]
    pub fn number(&self) -> u64
        ensures { result ≡ self.now.number }
    {
        self.number
    }

    /// The vertex where it stands.
    #[inline]
    pub fn at(&self) -> u32
        ensures { result ≡ self.now.state.at }
    {
        self.state.at
    }

    /// The number of steps that it has taken.
    #[inline]
    pub fn step(&self) -> u32
        ensures step { result ≡ self.now.state.steps }
        ensures within { result ≤ self.now.length }
        ensures bound { self.now.length ≤ 1048576 }
    {
        self.state.steps
    }

    /// The place of the next word that it takes.
    pub(crate) fn next_place(&self) -> u64
        ensures { result ≡ next_place self.now }
    {
        match self.mode {
            Mode::Fresh => self.state.place,
            Mode::Darts { place, .. } => place,
            Mode::Asked { place, .. } => place,
            Mode::AskedRow { place, .. } => place,
            Mode::Chosen { place, .. } => place,
            Mode::Over => self.state.place,
        }
    }

    /// Takes its next words from a reader, to carry them. The reader comes to its next word.
    pub(crate) fn pack(&mut self, reader: &mut StreamReader)
        ensures stays { self.new ≡ self.old }
        ensures stands { reader.new ≡ standing reader.old.seed self.old.number (next_place self.old) }
    {
        reader.seek(self.number, self.next_place());
        self.words = reader.pack();
    }

    /// Brings a reader to its next word, with the words that it carries.
    pub(crate) fn bring(&self, reader: &mut StreamReader)
        ensures walker { reader.new.walker ≡ self.now.number }
        ensures place { reader.new.place ≡ next_place self.now }
    {
        let next = self.next_place();
        reader.take_up(&self.words);
        reader.seek(self.number, next);
    }

    /// A reader of a run's words at its next word, with the words that it carries.
    pub(crate) fn reader(&self, run: &Run) -> StreamReader
        ensures { result ≡ standing run.now.seed self.now.number (next_place self.now) }
    {
        reader_with(&self.words, run.seed, self.number, self.next_place())
    }

    /// The question whose reply it waits for, exactly while it waits.
    #[inline]
    pub fn question(&self) -> Option<Question>
        ensures { result ≡ question_of self.now.mode }
    {
        match self.mode {
            Mode::Asked { question, .. } => Some(question),
            Mode::AskedRow { question, .. } => Some(question),
            _ => None,
        }
    }

    /// Whether its walk has ended.
    #[inline]
    pub fn has_ended(&self) -> bool
        ensures { result ≡ is_over self.now.mode }
    {
        matches!(self.mode, Mode::Over)
    }

    /// Whether it stands at the beginning of a step.
    #[inline]
    pub fn is_fresh(&self) -> bool
        ensures { result ≡ is_fresh self.now.mode }
    {
        matches!(self.mode, Mode::Fresh)
    }

    /// Whether its start, its place and the vertex before it, if there is one, are below a number of
    /// vertices.
    pub fn is_within(&self, vertices: u32) -> bool
        ensures yes { IsTrue result → IsWithin vertices self.now }
        ensures no { IsWithin vertices self.now → IsTrue result }
    {
        let before = match self.state.previous {
            None => true,
            Some(t) => t < vertices,
        };
        self.start < vertices && self.state.at < vertices && before
    }

    /// Decides what it does next, as far as it can: it comes to an edge that it will go along or to a question
    /// to another part, is back at its start, or has ended its walk.
    pub fn decide<L: Ledger>(
        &mut self,
        run: &Run,
        factors: &RuleFactors<'_>,
        part: &PartRows,
        reader: &mut StreamReader,
        steps: &mut Steps<L>,
    )
        requires rule { AreFactors run.now.plan.rule factors.now }
        requires stands { StandsIn run.now part.now self.old }
        requires ready { IsTrue (is_ready self.old.mode) }
        requires seed { reader.old.seed ≡ run.now.seed }
        ensures data { (g : RowGraph) → IsPartOf g part.now → self.new ≡ decided (journey_on g run.now part.now.cuts self.old) self.old }
        ensures seed { reader.new.seed ≡ reader.old.seed }
        ensures number { self.new.number ≡ self.old.number }
        ensures start { self.new.start ≡ self.old.start }
        ensures within { IsWithin part.now.vertices self.new }
        ensures goes { CanGo part.now self.new self.new.mode }
        ensures ticks { (g : RowGraph) → IsPartOf g part.now → steps.new ≡ steps.old + turn_columns (journey_on g run.now part.now.cuts self.old) self.old self.old.mode }
        ensures stands { owner part.now.cuts self.new.state.at ≡ part.now.part → StandsIn run.now part.now self.new }
    {
        match self.mode {
            Mode::Fresh => {
                if self.state.steps >= self.length {
                    self.mode = Mode::Over;
                    return;
                }
                reader.seek(self.number, self.state.place);
                match begun(run, factors, part, self.state, reader, steps) {
                    Decision::Back { place } => {
                        self.state = State {
                            at: self.start,
                            previous: None,
                            phase: 0,
                            steps: self.state.steps + 1,
                            place,
                        };
                    }
                    Decision::Comes { mode } => self.mode = mode,
                }
            }
            Mode::Darts { left, place } => {
                reader.seek(self.number, place);
                self.mode = choose_from(part, &run.plan, factors, left, self.state, reader, steps);
            }
            _ => {}
        }
    }

    /// Goes along the edge that it has chosen, if it has. The end of that edge is all that it reads.
    pub fn go(&mut self, run: &Run, part: &PartRows)
        requires suits { Suits run.now part.now }
        requires within { IsWithin part.now.vertices self.old }
        requires goes { CanGo part.now self.old self.old.mode }
        ensures data { (g : RowGraph) → IsPartOf g part.now → self.new ≡ gone (journey_on g run.now part.now.cuts self.old) self.old }
        ensures within { IsWithin part.now.vertices self.new }
        ensures stands { (owner part.now.cuts self.old.state.at ≡ part.now.part → StandsIn run.now part.now self.old)
            → owner part.now.cuts self.new.state.at ≡ part.now.part → StandsIn run.now part.now self.new }
    {
        let _run = run;
        if let Mode::Chosen { edge, place } = self.mode {
            let to = part.end(self.state.at, edge);
            self.state = State {
                at: to,
                previous: Some(self.state.at),
                phase: self.state.phase + 1,
                steps: self.state.steps + 1,
                place,
            };
            self.mode = Mode::Fresh;
        }
    }

    /// What its last turn came to.
    #[inline]
    pub fn turn(&self) -> Turn
        ensures { result ≡ turn_of self.now.mode self.now.state.at }
    {
        match self.mode {
            Mode::Fresh => Turn::Moved { to: self.state.at },
            Mode::Asked {
                question: Question::Edge { t, x },
                ..
            } => Turn::AskEdge { t, x },
            Mode::AskedRow {
                question: Question::Row { t },
                ..
            } => Turn::AskRow { t },
            _ => Turn::Ended,
        }
    }

    /// Goes on until a step is made, a question must be asked of another part, or the walk ends. It ticks
    /// once for each dart whose edge comes from a column: neither a miss nor one in the strip. Of all words a
    /// dart of its step takes each edge by exactly its share: its weight times its factor.
    pub fn advance<L: Ledger>(&mut self, run: &Run, part: &PartRows, steps: &mut Steps<L>) -> Turn
        requires stands { StandsIn run.now part.now self.old }
        requires ready { IsTrue (is_ready self.old.mode) }
        ensures data { (g : RowGraph) → IsPartOf g part.now → self.new ≡ advance (parted g run.now part.now.cuts) self.old }
        ensures ticks { (g : RowGraph) → IsPartOf g part.now → steps.new ≡ steps.old + columns_in (parted g run.now part.now.cuts) self.old }
        ensures fair { (g : RowGraph) → IsPartOf g part.now
            → 0 < length (row_at (journey_on g run.now part.now.cuts self.old) self.old.state)
            → HasFairDarts (board_at (journey_on g run.now part.now.cuts self.old) self.old.state) }
        ensures turn { result ≡ turn_of self.new.mode self.new.state.at }
        ensures within { IsWithin part.now.vertices self.new }
        ensures stands { owner part.now.cuts self.new.state.at ≡ part.now.part → StandsIn run.now part.now self.new }
    {
        // its edges weigh something
        let _row = part.row(self.at());
        let factors = rule_factors(&run.plan.rule);
        let mut reader = self.reader(run);
        self.decide(run, &factors, part, &mut reader, steps);
        self.go(run, part);
        self.turn()
    }

    /// Hears the reply to the question for which it waits. It stays where it stands, keeps what the reply
    /// decides, and can go on by itself.
    pub fn hear(&mut self, run: &Run, part: &PartRows, reply: &Reply)
        requires stands { StandsIn run.now part.now self.old }
        requires waits { question_of self.old.mode ≡ Some reply.now.ask.question }
        requires answers { Answers reply.now.ask.question reply.now.found }
        ensures data { (g : RowGraph) → IsPartOf g part.now → self.new ≡ hear (parted g run.now part.now.cuts) self.old reply.now.found }
        ensures ready { IsTrue (is_ready self.new.mode) }
        ensures stands { StandsIn run.now part.now self.new }
        ensures stays { self.new ≡ record self.old { mode = self.new.mode } }
    {
        match self.mode {
            Mode::Asked {
                left,
                place,
                question,
            } => {
                let factors = near_factors(&run.plan.rule);
                let near = told_near(reply.ask.question, &reply.found);
                let mut reader = reader_with(&self.words, run.seed, self.number, place);
                self.mode = hear_edge::<Brand>(
                    part,
                    &run.plan,
                    &factors,
                    left,
                    self.state,
                    asked(question),
                    near,
                    &mut reader,
                    Blank::new(1),
                );
            }
            Mode::AskedRow { place, question } => {
                let factors = near_factors(&run.plan.rule);
                let ends = told_ends(reply.ask.question, &reply.found);
                let mut words = reader_with(&self.words, run.seed, self.number, place);
                self.mode = hear_row(
                    part,
                    &run.plan,
                    &factors,
                    self.state,
                    asked(question),
                    ends,
                    &mut words,
                );
            }
            _ => {}
        }
    }
}
