//! A reader along one stream, and words that are carried from one reader to another.

ghost use Rattle.std.specs.Prelude.{◌≡◌, ℕ, ◌≤◌, ◌<◌, ◌+◌, ◌^◌, slice_index};
ghost use Rattle.walk_model.specs.Words.{word, draw, coin};
ghost use Rattle.walker_stream.specs.Folds.{HasFairFolds, HasFairCoins};
ghost use Rattle.walker_stream.specs.Standing.{standing};

use crate::folds::fold;
use crate::generating::{HELD, generator_of, renew};
use rand_chacha::ChaCha8Rng;
use std::marker::Model;
use walk_model::Fraction;

/// The greatest number of words that are carried.
const CARRIED: usize = 8;

/// Reads the words of a walker's stream one after another, from any place on.
///
/// It holds up to 32 words, and moves among them without a refill. A refill is made where a word is asked for
/// that it doesn't hold.
#[derive(Drop)]
pub struct StreamReader {
    seed: u64,
    walker: u64,
    // the place of the next word less `index`, below 0 wrapped
    origin: u64,
    // how many of `words` aren't the stream's; where none is, the generator stands behind the last one
    unknown: usize,
    // where the next word stands in `words`
    index: usize,
    words: [u64; HELD],
    generator: ChaCha8Rng,
}

impl Model for StreamReader {
    ghost use Rattle.walker_stream.specs.Standing.{Standing};

    ghost Value = { Standing };

    ghost use Rattle.walker_stream.specs.Held.{Holds, place_by};

    ghost view = { λ r. record { seed = r.seed; walker = r.walker; place = place_by r.origin r.index } };

    ghost invariant = { λ r. Holds r };
}

/// The next words of a walker's stream from a place on, eight at most, which are carried from one reader to
/// another: with them that one needs no refill.
#[derive(Debug, Drop)]
pub struct CarriedWords {
    seed: u64,
    walker: u64,
    place: u64,
    // how many of `words` aren't the stream's; the next word stands behind them
    unknown: usize,
    words: [u64; CARRIED],
}

impl Model for CarriedWords {
    ghost use Rattle.walker_stream.specs.Standing.{Standing};

    ghost Value = { Standing };

    ghost use Rattle.walker_stream.specs.Held.{Carries};

    ghost view = { λ c. record { seed = c.seed; walker = c.walker; place = c.place } };

    ghost invariant = { λ c. Carries c };
}

impl CarriedWords {
    /// No words, of a walker's stream at a place: a reader that takes them up makes its own.
    pub fn none(seed: u64, walker: u64, place: u64) -> CarriedWords
        ensures { result ≡ standing seed walker place }
    {
        CarriedWords {
            seed,
            walker,
            place,
            unknown: CARRIED,
            words: [0; CARRIED],
        }
    }

    /// The walker of their stream.
    #[inline]
    pub fn walker(&self) -> u64
        ensures { result ≡ self.now.walker }
    {
        self.walker
    }

    /// A reader that stands where they do, and holds them.
    pub fn reader(&self) -> StreamReader
        ensures { result ≡ self.now }
    {
        let mut reader = StreamReader::at(self.seed, self.walker, self.place);
        reader.take_up(self);
        reader
    }
}

/// The words from a place of an array on.
#[inline]
fn words_from(words: &[u64; HELD], start: usize) -> [u64; CARRIED]
    requires { start ≤ 24 }
    ensures { (k : ℕ) → k < 8 → slice_index result k ≡ slice_index words.now (start + k) }
{
    let mut some = [0; CARRIED];
    some.copy_from_slice(&words[start..start + CARRIED]);
    some
}

/// Puts words at the end of an array.
#[inline]
fn put_last(words: &mut [u64; HELD], last: &[u64; CARRIED])
    ensures { (k : ℕ) → k < 8 → slice_index words.new (24 + k) ≡ slice_index last.now k }
{
    words[HELD - CARRIED..].copy_from_slice(last);
}

impl StreamReader {
    /// A reader at a place of a stream.
    pub(crate) fn at(seed: u64, walker: u64, place: u64) -> StreamReader
        ensures { result ≡ standing seed walker place }
    {
        StreamReader {
            seed,
            walker,
            origin: place.wrapping_sub(HELD as u64),
            unknown: HELD,
            index: HELD,
            words: [0; HELD],
            generator: generator_of(seed),
        }
    }

    /// The seed of its stream.
    #[inline]
    pub fn seed(&self) -> u64
        ensures { result ≡ self.now.seed }
    {
        self.seed
    }

    /// The walker of its stream.
    #[inline]
    pub fn walker(&self) -> u64
        ensures { result ≡ self.now.walker }
    {
        self.walker
    }

    /// The place of the next word.
    #[inline]
    pub fn place(&self) -> u64
        ensures { result ≡ self.now.place }
    {
        self.origin.wrapping_add(self.index as u64)
    }

    /// The next word.
    #[inline]
    pub fn next(&mut self) -> u64
        requires { self.old.place < u64.MAX }
        ensures word { result ≡ word self.old.seed self.old.walker self.old.place }
        ensures moved { self.new ≡ record self.old { place = self.old.place + 1 } }
    {
        if self.index >= HELD {
            let place = self.place();
            let there = self.unknown == 0;
            self.index = renew(
                &mut self.generator,
                &mut self.words,
                self.walker,
                place,
                there,
            );
            self.origin = place - self.index as u64;
            self.unknown = 0;
        }
        let word = self.words[self.index];
        self.index += 1;
        word
    }

    /// The next word, which stays the next one.
    #[inline]
    pub fn peek(&mut self) -> u64
        requires { self.old.place < u64.MAX }
        ensures word { result ≡ word self.old.seed self.old.walker self.old.place }
        ensures stays { self.new ≡ self.old }
    {
        if self.index >= HELD {
            let place = self.place();
            let there = self.unknown == 0;
            self.index = renew(
                &mut self.generator,
                &mut self.words,
                self.walker,
                place,
                there,
            );
            self.origin = place - self.index as u64;
            self.unknown = 0;
        }
        self.words[self.index]
    }

    /// Moves to a place of a walker's stream. Where it holds that word, the word is made no second time.
    #[inline]
    pub fn seek(&mut self, walker: u64, place: u64)
        ensures { self.new ≡ standing self.old.seed walker place }
    {
        if walker != self.walker || place != self.place() {
            self.move_to(walker, place);
        }
    }

    /// Moves to another place, or to another walker's stream.
    #[inline(never)]
    fn move_to(&mut self, walker: u64, place: u64)
        ensures { self.new ≡ standing self.old.seed walker place }
    {
        let here = self.place();
        let same = walker == self.walker;
        if same && here <= place && place - here <= (HELD - self.index) as u64 {
            self.index += (place - here) as usize;
        } else if same && place < here && here - place <= (self.index - self.unknown) as u64 {
            self.index -= (here - place) as usize;
        } else {
            self.walker = walker;
            self.origin = place.wrapping_sub(HELD as u64);
            self.unknown = HELD;
            self.index = HELD;
        }
    }

    /// Moves to a place of a walker's stream under a seed. A generator is keyed anew only where the seed
    /// is another; elsewhere it is a seek.
    #[inline]
    pub fn follow(&mut self, seed: u64, walker: u64, place: u64)
        ensures { self.new ≡ standing seed walker place }
    {
        if seed == self.seed {
            self.seek(walker, place);
        } else {
            self.begin_anew(seed, walker, place);
        }
    }

    /// Begins at a place of a walker's stream with another generator.
    #[inline(never)]
    fn begin_anew(&mut self, seed: u64, walker: u64, place: u64)
        ensures { self.new ≡ standing seed walker place }
    {
        *self = StreamReader::at(seed, walker, place);
    }

    /// The next words that it holds, to be carried to another reader.
    #[inline]
    pub fn pack(&self) -> CarriedWords
        ensures { result ≡ self.now }
    {
        let start = self.index.min(HELD - CARRIED);
        CarriedWords {
            seed: self.seed,
            walker: self.walker,
            place: self.place(),
            unknown: self.index - start,
            words: words_from(&self.words, start),
        }
    }

    /// Stands where carried words do, and holds them: it runs no generator before they are read. One is keyed anew
    /// only where their seed is another.
    #[inline]
    pub fn take_up(&mut self, carried: &CarriedWords)
        ensures { self.new ≡ carried.now }
    {
        if carried.seed != self.seed {
            self.begin_anew(carried.seed, carried.walker, carried.place);
        }
        put_last(&mut self.words, &carried.words);
        self.walker = carried.walker;
        self.index = HELD - CARRIED + carried.unknown;
        self.unknown = self.index;
        self.origin = carried.place.wrapping_sub(self.index as u64);
    }

    /// A number below a bound, from at most 64 words on. Where none of them has a fold, the last one
    /// is taken all the same.
    #[tactic(auto, using(crate::proofs::FairLemmas::fair_lemmas))]
    pub fn draw(&mut self, below: u64) -> u64
        requires some { 1 ≤ below }
        requires bound { below ≤ 2 ^ 62 }
        requires room { self.old.place ≤ 2 ^ 63 }
        ensures value { (result, self.new.place) ≡ draw below (word self.old.seed self.old.walker) self.old.place }
        ensures within { result < below }
        ensures fair { HasFairFolds below }
        ensures coins { HasFairCoins below }
        ensures stream { self.new ≡ record self.old { place = self.new.place } }
        ensures onward { self.old.place < self.new.place }
        ensures next { self.new.place ≤ self.old.place + 64 }
    {
        for _ in 0..63u32 {
            let word = self.next();
            if let Some(value) = fold(word, below) {
                return value;
            }
        }
        self.next() % below
    }

    /// Whether a coin falls that does so with this chance. It takes no word where the chance is 0, and
    /// else those of one draw, 64 at most.
    #[tactic(auto, unfolding(walk_model::specs::Words::coin))]
    #[inline]
    pub fn coin(&mut self, chance: Fraction) -> bool
        requires room { self.old.place ≤ 2 ^ 63 }
        ensures value { (result, self.new.place) ≡ coin chance (word self.old.seed self.old.walker) self.old.place }
        ensures stream { self.new ≡ record self.old { place = self.new.place } }
        ensures onward { self.old.place ≤ self.new.place }
        ensures next { self.new.place ≤ self.old.place + 64 }
    {
        if chance.top == 0 {
            return false;
        }
        self.draw(u64::from(chance.bottom)) < u64::from(chance.top)
    }
}
