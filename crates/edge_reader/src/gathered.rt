//! The fields of a line so far.

ghost use Rattle.std.specs.Prelude.{◌≡◌, ◌==◌, List, ℕ};
ghost use Rattle.edge_reader.specs.GraphFile.{edge_of, edge_of_fields, not_zero};
ghost use Rattle.edge_reader.specs.Numbers.{judged};
ghost use Rattle.edge_reader.specs.Unfinished.{with_field, with_fields, outcome};

use crate::numbers::Digits;
use walk_model::{Edge, Why};

/// The greatest id of a vertex, and the greatest weight.
const MOST: u64 = 4294967295;
/// The greatest type.
const MOST_KIND: u64 = 255;

/// How many fields there are, up to 5, and what the first four of them say.
#[derive(Clone, Copy)]
pub(crate) struct Gathered {
    count: u8,
    src: Result<u32, Why>,
    dst: Result<u32, Why>,
    weight: Result<u64, Why>,
    kind: Result<u8, Why>,
}

/// An id.
#[inline]
fn id(field: Digits) -> Result<u32, Why>
    ensures { result ≡ judged 4294967295 field.is_number field.value }
{
    match field.number(MOST) {
        Ok(n) => Ok(n as u32),
        Err(why) => Err(why),
    }
}

/// A weight.
#[inline]
fn weight(field: Digits) -> Result<u64, Why>
    ensures { result ≡ not_zero (judged 4294967295 field.is_number field.value) }
{
    match field.number(MOST) {
        Ok(0) => Err(Why::ZeroWeight),
        Ok(n) => Ok(n),
        Err(why) => Err(why),
    }
}

/// A type.
#[inline]
fn kind(field: Digits) -> Result<u8, Why>
    ensures { result ≡ judged 255 field.is_number field.value }
{
    match field.number(MOST_KIND) {
        Ok(n) => Ok(n as u8),
        Err(why) => Err(why),
    }
}

/// The edge with these numbers, judged from left to right.
#[inline]
fn edge(fields: &Gathered) -> Result<Option<Edge>, Why>
    ensures { result ≡ edge_of fields.now.src fields.now.dst fields.now.weight fields.now.kind }
{
    let src = match fields.src {
        Ok(src) => src,
        Err(why) => return Err(why),
    };
    let dst = match fields.dst {
        Ok(dst) => dst,
        Err(why) => return Err(why),
    };
    let weight = match fields.weight {
        Ok(weight) => weight,
        Err(why) => return Err(why),
    };
    match fields.kind {
        Ok(kind) => Ok(Some(Edge {
            src,
            dst,
            weight,
            kind,
        })),
        Err(why) => Err(why),
    }
}

impl Gathered {
    /// No fields.
    #[inline]
    pub(crate) fn none() -> Gathered
        ensures none { result.count ≡ 0 }
        ensures fields { (fs : List (List ℕ)) → with_fields result fs ≡ edge_of_fields fs }
    {
        Gathered {
            count: 0,
            src: Ok(0),
            dst: Ok(0),
            weight: Ok(1),
            kind: Ok(0),
        }
    }

    /// One field more.
    #[inline]
    pub(crate) fn add(&mut self, field: Digits)
        ensures { self.new ≡ with_field self.old field.is_number field.value }
    {
        match self.count {
            0 => {
                self.count = 1;
                self.src = id(field);
            }
            1 => {
                self.count = 2;
                self.dst = id(field);
            }
            2 => {
                self.count = 3;
                self.weight = weight(field);
            }
            3 => {
                self.count = 4;
                self.kind = kind(field);
            }
            _ => {
                self.count = 5;
            }
        }
    }

    /// Whether there is no field yet.
    #[inline]
    pub(crate) fn is_empty(&self) -> bool
        ensures { result ≡ (self.now.count == 0) }
    {
        self.count == 0
    }

    /// What a line with these fields comes to.
    #[inline]
    pub(crate) fn outcome(&self) -> Result<Option<Edge>, Why>
        ensures { result ≡ outcome self.now }
    {
        match self.count {
            0 => Ok(None),
            2..=4 => edge(self),
            _ => Err(Why::Fields),
        }
    }
}
