//! Which TOML values serve a programme.

ghost use Rattle.std.specs.Prelude.{◌≡◌, ◌≤◌, length, IfOk, IfSome, option_map};
ghost use Rattle.toml.specs.View.{view, array_view};
ghost use Rattle.walk_programme.specs.Judges.{whole, walkers, fraction, chance, factor, types_in, scheme};

use crate::fractions::{read_fraction, reduced};
use std::alloc::Global;
use toml::Value;
use toml::value::Array;
use walk_model::{Fraction, Kinds, Memory};

/// The greatest number of walkers.
const MOST_WALKERS: u32 = 16777216;

/// The greatest whole number that stands for a fraction.
const MOST_WHOLE: u32 = 1000000;

/// The greatest type of an edge.
const MOST_TYPE: u32 = 255;

/// The greatest number of types of a scheme.
const MOST_TYPES: usize = 16;

/// A whole number from 0 to `most`.
pub(crate) fn whole(value: &Value, most: u32) -> Option<u32>
    ensures value { result ≡ whole most (view value.now) }
    ensures within { IfSome result (λ n. n ≤ most) }
{
    let number = value.as_integer()?;
    if number < 0 || number > i64::from(most) {
        return None;
    }
    Some(number as u32)
}

/// A number of walkers; none is told by the text `each`.
#[tactic(auto, unfolding(crate::specs::Judges::walkers))]
pub(crate) fn walkers(value: &Value) -> Option<Option<u32>>
    ensures value { result ≡ walkers (view value.now) }
    ensures within { IfSome result (λ o. IfSome o (λ n. n ≤ 16777216)) }
{
    match value {
        Value::String(text) if text.as_str() == "each" => Some(None),
        Value::String(_) => None,
        _ => Some(Some(whole(value, MOST_WALKERS)?)),
    }
}

/// A fraction: a text, or a whole number.
#[tactic(auto, unfolding(crate::specs::Judges::fraction))]
fn fraction(value: &Value) -> Option<Fraction>
    ensures { result ≡ fraction (view value.now) }
{
    match value {
        Value::String(text) => read_fraction(text.as_bytes()),
        _ => reduced(u64::from(whole(value, MOST_WHOLE)?), 1),
    }
}

/// A fraction from 0 to 1.
pub(crate) fn chance(value: &Value) -> Option<Fraction>
    ensures value { result ≡ chance (view value.now) }
    ensures within { IfSome result (λ r. r.top ≤ r.bottom) }
{
    let ratio = fraction(value)?;
    if ratio.top > ratio.bottom {
        return None;
    }
    Some(ratio)
}

/// A fraction above 0.
pub(crate) fn factor(value: &Value) -> Option<Fraction>
    ensures value { result ≡ factor (view value.now) }
    ensures within { IfSome result (λ r. 1 ≤ r.top) }
{
    let ratio = fraction(value)?;
    if ratio.top == 0 {
        return None;
    }
    Some(ratio)
}

/// The types that the items of an array are.
fn types_in(alloc: Global, array: &Array) -> Result<Option<Vec<u8>>, Memory>
    ensures { IfOk result (λ o. types_in (array_view array.now) ≡ option_map (λ v. v.items) o) }
{
    let mut types = Vec::new(alloc);
    for value in array {
        match whole(value, MOST_TYPE) {
            Some(kind) => types.push(kind as u8)?,
            None => return Ok(None),
        }
    }
    Ok(Some(types))
}

/// An array of 1 to 16 types.
#[tactic(auto, unfolding(crate::specs::Judges::scheme))]
pub(crate) fn scheme(alloc: Global, value: &Value) -> Result<Option<Kinds>, Memory>
    ensures { IfOk result (λ o. scheme (view value.now) ≡ o) }
{
    let Some(array) = value.as_array() else {
        return Ok(None);
    };
    let Some(types) = types_in(alloc, array)? else {
        return Ok(None);
    };
    if types.is_empty() || types.len() > MOST_TYPES {
        return Ok(None);
    }
    Ok(Some(Kinds::of(types)))
}
