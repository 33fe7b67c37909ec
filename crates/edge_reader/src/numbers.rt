//! A number whose digits are still being read.

ghost use Rattle.std.specs.Prelude.{◌≡◌, ◌≤◌, ◌+◌, ◌-◌, ◌*◌, ◌&&◌, true, IfOk};
ghost use Rattle.std.specs.Char.{is_ascii_digit};
ghost use Rattle.edge_reader.specs.Numbers.{capped, judged};

use walk_model::Why;

/// A value above every number that an edge list may have. Greater ones stay here.
const TOO_GREAT: u64 = 4294967296;

/// The bytes of a field so far: the value of its digits, and whether all are digits.
#[derive(Clone, Copy)]
pub(crate) struct Digits {
    value: u64,
    is_number: bool,
    ghost in_range: { value ≤ 4294967296 },
}

impl Digits {
    /// No bytes.
    #[inline]
    pub(crate) fn none() -> Digits
        ensures value { result.value ≡ 0 }
        ensures is_number { result.is_number ≡ true }
    {
        Digits {
            value: 0,
            is_number: true,
        }
    }

    /// A number with this value.
    #[inline]
    pub(crate) fn of(value: u64) -> Digits
        requires { value ≤ 4294967296 }
        ensures value { result.value ≡ value }
        ensures is_number { result.is_number ≡ true }
    {
        Digits {
            value,
            is_number: true,
        }
    }

    /// One byte more.
    #[inline]
    pub(crate) fn and(self, b: u8) -> Digits
        ensures value { result.value ≡ capped (10 * self.value + (b - 48)) }
        ensures is_number { result.is_number ≡ (self.is_number && is_ascii_digit b) }
    {
        let next = 10 * self.value + u64::from(b.saturating_sub(b'0'));
        Digits {
            value: next.min(TOO_GREAT),
            is_number: self.is_number && b.is_ascii_digit(),
        }
    }

    /// The number, if there is one and it is at most `most`.
    #[inline]
    pub(crate) fn number(self, most: u64) -> Result<u64, Why>
        ensures number { result ≡ judged most self.is_number self.value }
        ensures within { IfOk result (λ n. n ≤ most) }
    {
        if !self.is_number {
            return Err(Why::Number);
        }
        if self.value > most {
            return Err(Why::TooGreat);
        }
        Ok(self.value)
    }
}
