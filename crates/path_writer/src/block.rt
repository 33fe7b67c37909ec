//! A block of bytes on their way to a sink.

ghost use Rattle.std.specs.Prelude.{◌≡◌, ◌+◌, ◌≤◌, ◌++◌, ◌∷◌, [], length, decimal};

use itoa::write_digits;
use std::marker::Model;

/// The number of bytes that a block has room for.
pub(crate) const ROOM: usize = 65536;

/// The bytes that wait to be written, seen as their list.
#[derive(Drop)]
pub struct Block {
    bytes: [u8; ROOM],
    len: usize,
}

impl Model for Block {
    ghost use Rattle.std.specs.Prelude.{◌≤◌, List, ℕ, take};

    ghost Value = { List ℕ };

    ghost view = { λ b. take b.len b.bytes };

    ghost invariant = { λ b. b.len ≤ 65536 };
}

impl Block {
    /// A block in which nothing waits.
    pub fn new() -> Block
        ensures { result ≡ [] }
    {
        Block {
            bytes: [0; ROOM],
            len: 0,
        }
    }

    /// The number of bytes that wait.
    #[inline(always)]
    pub(crate) fn len(&self) -> usize
        ensures count { result ≡ length self.now }
        ensures within { result ≤ 65536 }
    {
        self.len
    }

    /// The bytes that wait.
    pub(crate) fn as_slice(&self) -> &[u8]
        ensures { result.now ≡ self.now }
    {
        &self.bytes[..self.len]
    }

    /// Lets nothing wait.
    pub(crate) fn clear(&mut self)
        ensures { self.new ≡ [] }
    {
        self.len = 0;
    }

    /// Adds a byte.
    #[inline(always)]
    pub(crate) fn push_byte(&mut self, byte: u8)
        requires { length self.old + 1 ≤ 65536 }
        ensures { self.new ≡ self.old ++ byte ∷ [] }
    {
        self.bytes[self.len] = byte;
        self.len += 1;
    }

    /// Adds a number in decimal, which takes at most ten bytes.
    #[inline(always)]
    pub(crate) fn push_number(&mut self, number: u32)
        requires { length self.old + 10 ≤ 65536 }
        ensures { self.new ≡ self.old ++ decimal number }
    {
        let end = self.len + digit_count(number);
        write_digits(number as u64, &mut self.bytes, end);
        self.len = end;
    }
}

/// The number of a number's digits.
#[inline(always)]
#[tactic(auto, using(crate::proofs::DigitLemmas::digit_counts))]
fn digit_count(number: u32) -> usize
    ensures count { result ≡ length (decimal number) }
    ensures few { result ≤ 10 }
{
    match number {
        0..=9 => 1,
        10..=99 => 2,
        100..=999 => 3,
        1_000..=9_999 => 4,
        10_000..=99_999 => 5,
        100_000..=999_999 => 6,
        1_000_000..=9_999_999 => 7,
        10_000_000..=99_999_999 => 8,
        100_000_000..=999_999_999 => 9,
        _ => 10,
    }
}
