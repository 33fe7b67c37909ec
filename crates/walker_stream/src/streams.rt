//! The streams of a seed.

ghost use Rattle.std.specs.Prelude.{◌≡◌, ◌≤◌, ◌<◌, ◌+◌, ◌^◌};
ghost use Rattle.walk_model.specs.Words.{word, draw};
ghost use Rattle.walker_stream.specs.Folds.{HasFairFolds, HasFairCoins};
ghost use Rattle.walker_stream.specs.Standing.{standing};

use crate::generating::word_at;
use crate::reader::StreamReader;

/// The random words of a seed, one stream for each walker.
#[derive(Clone, Copy, Debug, PartialEq, Eq)]
pub struct Streams {
    pub seed: u64,
}

impl Streams {
    /// The streams of a seed.
    pub fn new(seed: u64) -> Streams
        ensures { result.seed ≡ seed }
    {
        Streams { seed }
    }

    /// A reader that stands at a place of a walker's stream.
    pub fn reader(&self, walker: u64, place: u64) -> StreamReader
        ensures { result ≡ standing self.now.seed walker place }
    {
        StreamReader::at(self.seed, walker, place)
    }

    /// The word at a place of a walker's stream. Who wants several takes a reader, which makes the
    /// words of a stream many at a time.
    pub fn word(&self, walker: u64, place: u64) -> u64
        ensures { result ≡ word self.now.seed walker place }
    {
        word_at(self.seed, walker, place)
    }

    /// A number below a bound from at most 64 words of a walker's stream, and the place after them.
    pub fn draw(&self, below: u64, walker: u64, place: u64) -> (u64, u64)
        requires some { 1 ≤ below }
        requires bound { below ≤ 2 ^ 62 }
        requires room { place ≤ 2 ^ 63 }
        ensures value { result ≡ draw below (word self.now.seed walker) place }
        ensures within { result.0 < below }
        ensures fair { HasFairFolds below }
        ensures coins { HasFairCoins below }
        ensures onward { place < result.1 }
        ensures next { result.1 ≤ place + 64 }
    {
        let mut reader = self.reader(walker, place);
        let value = reader.draw(below);
        (value, reader.place())
    }
}
