//! Fractions in texts.

ghost use Rattle.std.specs.Prelude.{◌≡◌, ◌≤◌, ◌<◌, ◌^◌, ◌==◌, length, position, IfSome};
ghost use Rattle.std.specs.Int.{IsGcd};
ghost use Rattle.std.specs.List.{before_first, after_first};
ghost use Rattle.walk_programme.specs.Fractions.{reduced, number, quotient, decimal, written, fraction_of};

use walk_model::{Fraction, whole_number};

/// The greatest top and bottom of a fraction.
const MOST_PART: u64 = 1000000;

/// The greatest number of seven digits.
const MOST_NUMBER: u64 = 9999999;

/// The greatest common divisor.
fn divisor_of(a: u64, b: u64) -> u64
    ensures { IsGcd a b result }
{
    let mut x = a;
    let mut y = b;
    while y > 0 {
        let rest = x % y;
        x = y;
        y = rest;
    }
    x
}

/// A fraction in lowest terms, if its top and bottom are then small enough.
#[tactic(auto, unfolding(crate::specs::Fractions::reduced))]
pub(crate) fn reduced(top: u64, bottom: u64) -> Option<Fraction>
    requires { 1 ≤ bottom }
    ensures { result ≡ reduced top bottom }
{
    let divisor = divisor_of(top, bottom);
    let top = top / divisor;
    let bottom = bottom / divisor;
    if top > MOST_PART || bottom > MOST_PART {
        return None;
    }
    Some(Fraction {
        top: top as u32,
        bottom: bottom as u32,
    })
}

/// The number that one to `most` digits write.
#[tactic(auto, unfolding(crate::specs::Fractions::number, walk_model::specs::Digits::number_of))]
fn number(digits: &[u8], most: usize) -> Option<u64>
    requires { most ≤ 7 }
    ensures number { result ≡ number most digits.now }
    ensures within { IfSome result (λ n. n ≤ 9999999) }
    ensures digits { IfSome result (λ _. length digits.now ≤ most) }
{
    if digits.is_empty() || digits.len() > most {
        return None;
    }
    whole_number(digits, MOST_NUMBER).ok()
}

/// Where a mark stands first.
fn place_of(text: &[u8], mark: u8) -> Option<usize>
    ensures place { result ≡ position (λ b. b == mark) text.now }
    ensures within { IfSome result (λ i. i < length text.now) }
{
    text.iter().position(|b| *b == mark)
}

/// What stands before the first of a mark, and what stands behind it.
fn parts(text: &[u8], mark: u8) -> (&[u8], &[u8])
    ensures before { result.0.now ≡ before_first (λ b. b == mark) text.now }
    ensures after { result.1.now ≡ after_first (λ b. b == mark) text.now }
{
    match place_of(text, mark) {
        Some(place) => (&text[..place], &text[place + 1..]),
        None => (text, &[]),
    }
}

/// Two numbers as a top and a bottom.
fn quotient(top: &[u8], bottom: &[u8]) -> Option<(u64, u64)>
    ensures value { result ≡ quotient top.now bottom.now }
    ensures bottom { IfSome result (λ r. 1 ≤ r.1) }
{
    let top = number(top, 7)?;
    let bottom = number(bottom, 7)?;
    if bottom == 0 {
        return None;
    }
    Some((top, bottom))
}

/// Digits before and behind a point as a top and a bottom.
fn decimal(front: &[u8], back: &[u8]) -> Option<(u64, u64)>
    ensures value { result ≡ decimal front.now back.now }
    ensures bottom { IfSome result (λ r. 1 ≤ r.1) }
{
    let whole = number(front, 7)?;
    let part = number(back, 6)?;
    let bottom = 10u64.pow(back.len() as u32);
    Some((whole * bottom + part, bottom))
}

/// The top and the bottom that a text writes.
#[tactic(auto, unfolding(crate::specs::Fractions::written))]
fn written(text: &[u8]) -> Option<(u64, u64)>
    ensures value { result ≡ written text.now }
    ensures bottom { IfSome result (λ r. 1 ≤ r.1) }
{
    if let Some(whole) = number(text, 7) {
        return Some((whole, 1));
    }
    let (top, bottom) = parts(text, b'/');
    if let Some(ratio) = quotient(top, bottom) {
        return Some(ratio);
    }
    let (front, back) = parts(text, b'.');
    decimal(front, back)
}

/// The fraction that a text writes, in lowest terms: `1/2`, `3` or `0.25`. Each number has one to
/// seven digits, the part behind a point one to six. None for any other text, for a bottom of 0,
/// and where the top or the bottom is then above 1,000,000.
pub fn read_fraction(text: &[u8]) -> Option<Fraction>
    ensures { result ≡ fraction_of text.now }
{
    let (top, bottom) = written(text)?;
    reduced(top, bottom)
}
