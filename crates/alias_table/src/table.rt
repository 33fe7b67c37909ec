//! The table of a row of weights.

ghost use Rattle.std.specs.Prelude.{◌≡◌, ℕ, ◌≤◌, ◌<◌, ◌+◌, ◌*◌, ◌/◌, ◌%◌, ◌^◌, length, sum, slice_index, IfOk, All};
ghost use Rattle.walk_model.specs.Alias.{own, alias, piece};
ghost use Rattle.alias_table.specs.Columns.{AreColumns, IsRow};
ghost use Rattle.alias_table.specs.Filled.{IsColumn};
ghost use Rattle.alias_table.specs.Shares.{HasFairShares};

use crate::columns::{Column, Columns};
use crate::division::{choose, divide, inverse_of};
use crate::filling::filled_columns;
use crate::sums::{all_are, total};
use std::alloc::Global;
use std::marker::Model;
use std::sync::ledger::Ledger;
use walk_model::{Memory, Steps};

/// Weights with their columns of equal size, seen as the list of the weights.
///
/// Over n weights with the sum W there are n columns of W places each. Of all places each item is
/// picked by n times its weight.
#[derive(Drop)]
pub struct AliasTable {
    // what a pick reads stands first, in one cache line or two
    whole: u128,
    // what places are divided by the sum with, where that fits 64 bits
    inverse: u64,
    // what words are divided by the number of all places with, where that fits 64 bits, and else 0
    places_inverse: u64,
    columns: Columns,
    // of this a pick reads no more than the length
    row: Vec<u64>,
}

impl Model for AliasTable {
    ghost use Rattle.std.specs.Prelude.{List, ℕ};

    ghost Value = { List ℕ };

    ghost use Rattle.alias_table.specs.Columns.{IsTable};

    ghost view = { λ t. t.row.items };

    ghost invariant = { λ t. IsTable t.row.items t.whole t.inverse t.places_inverse t.columns };
}

/// The columns of weights in the form that serves them.
fn columns_of(alloc: Global, weights: &[u64], whole: u128) -> Result<Columns, Memory>
    requires row { IsRow weights.now }
    requires whole { whole ≡ sum weights.now }
    ensures { IfOk result (AreColumns weights.now) }
{
    if all_are(weights, weights[0]) {
        return Ok(Columns::Whole);
    }
    let count = weights.len() as u64;
    let places = whole * u128::from(count);
    if places <= 0xffff_ffff {
        let columns = filled_columns(alloc, weights, count as u32, whole as u32)?;
        return Ok(Columns::Slim(columns));
    }
    if places <= 0xffff_ffff_ffff_ffff {
        let columns = filled_columns(alloc, weights, count, whole as u64)?;
        return Ok(Columns::Narrow(columns));
    }
    let columns = filled_columns(alloc, weights, u128::from(count), whole)?;
    Ok(Columns::Wide(columns))
}

impl AliasTable {
    /// The table of a row of weights: at least one and fewer than 2^31, each from 1 to below 2^62. It
    /// takes time linear in the row.
    ///
    /// # Errors
    ///
    /// No memory was found for the weights or their columns.
    pub fn build(alloc: Global, weights: &[u64]) -> Result<AliasTable, Memory>
        requires { IsRow weights.now }
        ensures { IfOk result (λ table. table ≡ weights.now) }
    {
        let whole = total(weights);
        let inverse = inverse_of(whole);
        let places_inverse = inverse_of(whole * weights.len() as u128);
        let row = weights.to_vec(alloc)?;
        let columns = columns_of(alloc, weights, whole)?;
        Ok(AliasTable {
            whole,
            inverse,
            places_inverse,
            columns,
            row,
        })
    }

    /// The number of columns.
    pub fn len(&self) -> usize
        ensures value { result ≡ length self.now }
        ensures some { 1 ≤ result }
        ensures short { result < 2 ^ 31 }
    {
        self.row.len()
    }

    /// The sum of the weights, which is the size of each column.
    pub fn sum(&self) -> u128
        ensures value { result ≡ sum self.now }
        ensures bound { result < 2 ^ 93 }
    {
        self.whole
    }

    /// The weights.
    pub fn weights(&self) -> &[u64]
        ensures value { result.now ≡ self.now }
        ensures range { IsRow self.now }
    {
        &self.row
    }

    /// How much of a column its own item has.
    pub fn own(&self, column: usize) -> u128
        requires { column < length self.now }
        ensures { result ≡ own self.now column }
    {
        self.column(column).own
    }

    /// The other item of a column, where its own item leaves room.
    pub fn alias(&self, column: usize) -> Option<usize>
        requires { column < length self.now }
        ensures { result ≡ alias self.now column }
    {
        let here = self.column(column);
        if here.own < self.whole {
            Some(here.other as usize)
        } else {
            None
        }
    }

    /// A column, whatever form it is kept in.
    fn column(&self, column: usize) -> Column<u128>
        requires { column < length self.now }
        ensures { IsColumn self.now column result.own result.other }
    {
        match &self.columns {
            Columns::Whole => Column {
                own: self.whole,
                other: 0,
            },
            Columns::Slim(columns) => {
                let slim = columns[column];
                Column {
                    own: u128::from(slim.own),
                    other: slim.other,
                }
            }
            Columns::Narrow(columns) => {
                let here = columns[column];
                Column {
                    own: u128::from(here.own),
                    other: here.other,
                }
            }
            Columns::Wide(columns) => columns[column],
        }
    }

    /// The column that a dart with this word reads on a board of height 1 without a strip, where the
    /// word doesn't miss. It reads no column itself: for callers that bring one near before a pick.
    #[inline]
    pub fn column_for(&self, word: u64) -> usize
        ensures value { result ≡ (word / sum self.now) % length self.now }
        ensures column { result ≡ (word % (length self.now * sum self.now)) / sum self.now }
        ensures within { result < length self.now }
    {
        if self.places_inverse == 0 {
            return self.wide_column_for(word);
        }
        let places = self.row.len() as u64 * self.whole as u64;
        let place = divide(word, places, self.places_inverse).1;
        divide(place, self.whole as u64, self.inverse).0 as usize
    }

    /// The same where the places don't fit 64 bits.
    #[cold]
    fn wide_column_for(&self, word: u64) -> usize
        ensures value { result ≡ (word / sum self.now) % length self.now }
        ensures column { result ≡ (word % (length self.now * sum self.now)) / sum self.now }
        ensures within { result < length self.now }
    {
        (u128::from(word) / self.whole % self.row.len() as u128) as usize
    }

    /// What a word leaves when it is divided by the number of all places. It takes no division.
    #[inline]
    pub fn rest(&self, word: u64) -> u64
        requires { length self.now * sum self.now ≤ 18446744073709551615 }
        ensures { result ≡ word % (length self.now * sum self.now) }
    {
        let places = self.row.len() as u64 * self.whole as u64;
        divide(word, places, self.places_inverse).1
    }

    /// The item at a place of all columns: the column's own where its own part reaches the place,
    /// else the other one. It ticks once, for the column that it reads.
    #[inline]
    pub fn pick<L: Ledger>(&self, place: u128, steps: &mut Steps<L>) -> usize
        requires { place < length self.now * sum self.now }
        ensures piece { result ≡ piece self.now place }
        ensures within { result < length self.now }
        ensures cost { steps.new ≡ steps.old + 1 }
        ensures shares { HasFairShares self.now }
    {
        steps.tick();
        self.item_at(place)
    }

    /// The item at a place of all columns.
    #[inline]
    fn item_at(&self, place: u128) -> usize
        requires { place < length self.now * sum self.now }
        ensures piece { result ≡ piece self.now place }
        ensures within { result < length self.now }
    {
        match &self.columns {
            Columns::Whole => {
                if self.whole <= 0xffff_ffff_ffff_ffff && place <= 0xffff_ffff_ffff_ffff {
                    let part = divide(place as u64, self.whole as u64, self.inverse);
                    return part.0 as usize;
                }
                (place / self.whole) as usize
            }
            Columns::Slim(columns) => {
                let part = divide(place as u64, self.whole as u64, self.inverse);
                let column = part.0 as usize;
                let here = columns[column];
                choose(part.1 < u64::from(here.own), column, here.other as usize)
            }
            Columns::Narrow(columns) => {
                let part = divide(place as u64, self.whole as u64, self.inverse);
                let column = part.0 as usize;
                let here = columns[column];
                choose(part.1 < here.own, column, here.other as usize)
            }
            Columns::Wide(columns) => {
                let column = (place / self.whole) as usize;
                let here = columns[column];
                if place % self.whole < here.own {
                    column
                } else {
                    here.other as usize
                }
            }
        }
    }
}
