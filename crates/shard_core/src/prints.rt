//! Prints in pieces, so that none is copied when more come.

ghost use Rattle.std.specs.Prelude.{◌≡◌, ◌<◌, ◌≤◌, ◌+◌, ℕ, List, [], ◌∷◌, ◌++◌, length, slice_get, Some, IfOk, IfErr, OnOk, OnErr};
ghost use Rattle.walk_model.specs.declared.results.Print.{Print};
ghost use Rattle.shard_core.specs.Pieces.{PrintList, all_of};
ghost use Rattle.shard_core.specs.declared.prints.TheConstants.{PIECE};

use std::alloc::Global;
use std::marker::Model;
use std::mem;
use walk_model::{Memory, Print};

/// The most prints of a piece.
pub const PIECE: usize = 65_536;

/// The most prints, with the room for more.
const MOST: u64 = 1 << 62;

/// Prints in the order in which they came, in pieces of at most 65,536. A print takes 16 bytes.
#[derive(Debug, Drop)]
pub struct Prints {
    full: Vec<Vec<Print>>,
    last: Vec<Print>,
    before: u64,
}

impl Model for Prints {
    ghost use Rattle.shard_core.specs.Pieces.{PrintList};

    ghost Value = { PrintList };

    ghost use Rattle.shard_core.specs.Kept.{print_list, IsKept};

    ghost view = { print_list };

    ghost invariant = { IsKept };
}

/// The print at an index of some pieces one after another, or how far behind them it is.
fn find_in(pieces: &[Vec<Print>], index: usize) -> Result<Print, usize>
    ensures found { IfOk result (λ p. slice_get (all_of pieces.now) index ≡ Some p) }
    ensures behind { IfErr result (λ rest. length (all_of pieces.now) + rest ≡ index) }
{
    let mut left = index;
    for piece in pieces {
        if left < piece.len() {
            return Ok(piece[left]);
        }
        left -= piece.len();
    }
    Err(left)
}

impl Prints {
    /// No prints, and no room. It takes no memory.
    pub fn new(alloc: Global) -> Prints
        ensures prints { result.prints ≡ [] }
        ensures room { result.room ≡ 0 }
    {
        Prints {
            full: Vec::new(alloc),
            last: Vec::new(alloc),
            before: 0,
        }
    }

    /// Makes room for `n` more prints, at most a piece. A piece that has less room left is closed.
    ///
    /// # Errors
    ///
    /// `Memory` where there is none; then nothing has changed.
    pub fn make_room(&mut self, alloc: Global, n: usize) -> Result<(), Memory>
        requires { n ≤ PIECE }
        ensures prints { self.new.prints ≡ self.old.prints }
        ensures room { OnOk result (n ≤ self.new.room) }
        ensures more { self.old.room ≤ self.new.room }
        ensures err { OnErr result (self.new ≡ self.old) }
    {
        if n <= self.last.capacity() - self.last.len() {
            return Ok(());
        }
        self.begin_piece(alloc)
    }

    /// Closes the last piece and begins another one.
    #[cold]
    fn begin_piece(&mut self, alloc: Global) -> Result<(), Memory>
        ensures prints { self.new.prints ≡ self.old.prints }
        ensures room { OnOk result (self.new.room ≡ PIECE) }
        ensures more { self.old.room ≤ PIECE }
        ensures err { OnErr result (self.new ≡ self.old) }
    {
        let before = self.before + self.last.len() as u64;
        if before > MOST - PIECE as u64 {
            return Err(Memory);
        }
        self.full.reserve(1)?;
        let next = Vec::with_capacity(alloc, PIECE)?;
        self.full.push_reserved(mem::replace(&mut self.last, next));
        self.before = before;
        Ok(())
    }

    /// Adds a print, for which there is room. It takes no memory.
    #[inline]
    pub fn push(&mut self, print: Print)
        requires { 0 < self.old.room }
        ensures prints { self.new.prints ≡ self.old.prints ++ print ∷ [] }
        ensures room { self.new.room + 1 ≡ self.old.room }
    {
        self.last.push_reserved(print);
    }

    /// Takes all prints out. The room of the last piece stays for the next ones.
    pub fn clear(&mut self)
        ensures { self.new.prints ≡ [] }
    {
        self.full.clear();
        self.last.clear();
        self.before = 0;
    }

    /// How many prints there are.
    pub fn len(&self) -> u64
        ensures { result ≡ length self.now.prints }
    {
        self.before + self.last.len() as u64
    }

    /// Print `k`. It goes over the pieces to find it.
    pub fn get(&self, k: u64) -> Print
        requires { k < length self.now.prints }
        ensures { slice_get self.now.prints k ≡ Some result }
    {
        match find_in(self.full.as_slice(), k as usize) {
            Ok(print) => print,
            Err(rest) => self.last[rest],
        }
    }

    /// The pieces that are closed, and the last one, to look at.
    pub(crate) fn pieces(&self) -> (&[Vec<Print>], &[Print])
        ensures { self.now.prints ≡ all_of result.0.now ++ result.1.now }
    {
        (self.full.as_slice(), self.last.as_slice())
    }

    /// The pieces that are closed, and the last one.
    pub(crate) fn into_pieces(self) -> (Vec<Vec<Print>>, Vec<Print>)
        ensures { self.prints ≡ all_of result.0.items ++ result.1.items }
    {
        let Prints {
            full,
            last,
            before: _,
        } = self;
        (full, last)
    }
}
