//! Columns filled by what the heavy items have to spare, in row order.
//!
//! One pass by two places of the row. Each heavy item first works off what the column before it was
//! closed with too little, then fills up light columns until it has nothing to spare, and is closed
//! with what the last of them still lacked: the next heavy item fills that up.

ghost use Rattle.std.specs.Prelude.{◌≡◌, ℕ, ◌≤◌, ◌<◌, ◌+◌, ◌*◌, ◌^◌, suc, length, sum, take, slice_index, IfOk};
ghost use Rattle.walk_model.specs.Alias.{lacks, spares};
ghost use Rattle.walk_model.specs.Lists.{front_reaching};
ghost use Rattle.alias_table.specs.Filled.{Counted, AllFilled, Filled, own_part, other_item};

use crate::columns::Column;
use crate::widths::Width;
use std::alloc::Global;
use walk_model::Memory;

/// The first heavy item from a place on, or the length where there is none.
#[tactic(auto, using(crate::proofs::FillLemmas::fill_lemmas))]
fn next_heavy<N: Width>(weights: &[u64], count: N, whole: N, from: usize) -> usize
    requires row { Counted weights.now (N.value count) (N.value whole) }
    requires fits { length weights.now * sum weights.now < N.bound }
    requires within { from ≤ length weights.now }
    ensures onward { from ≤ result }
    ensures within { result ≤ length weights.now }
    ensures heavy { result < length weights.now → 0 < slice_index (spares weights.now) result }
    ensures passed { (k : ℕ) → from ≤ k → k < result → slice_index (spares weights.now) k ≡ 0 }
{
    let mut at = from;
    while at < weights.len() {
        if count.times(weights[at]).exceeds(whole) {
            break;
        }
        at += 1;
    }
    at
}

/// Fills up light columns from a place on with a heavy item, until that has nothing to spare. Answers
/// the place after the last of them, and what that one lacked beyond it.
#[tactic(auto, using(crate::proofs::FillLemmas::fill_lemmas))]
fn serve<N: Width>(
    weights: &[u64],
    count: N,
    whole: N,
    heavy: usize,
    from: usize,
    spare: N,
    columns: &mut [Column<N>],
) -> (usize, N)
    requires row { Counted weights.now (N.value count) (N.value whole) }
    requires fits { length weights.now * sum weights.now < N.bound }
    requires short { length weights.now < 2 ^ 31 }
    requires within { heavy < length weights.now }
    requires spare { 0 < N.value spare }
    requires from { from ≤ length weights.now }
    requires balance { sum (take from (lacks weights.now)) + N.value spare ≡ sum (take (suc heavy) (spares weights.now)) }
    requires behind { sum (take heavy (spares weights.now)) ≤ sum (take from (lacks weights.now)) }
    requires filled { Filled (own_part N.value) other_item weights.now from heavy columns.old }
    ensures place { result.0 ≡ front_reaching (sum (take (suc heavy) (spares weights.now))) (lacks weights.now) }
    ensures within { result.0 ≤ length weights.now }
    ensures owing { N.value result.1 ≤ N.value whole }
    ensures balance { sum (take result.0 (lacks weights.now)) ≡ sum (take (suc heavy) (spares weights.now)) + N.value result.1 }
    ensures filled { Filled (own_part N.value) other_item weights.now result.0 heavy columns.new }
{
    let mut light = from;
    let mut left = spare;
    while light < weights.len() {
        let filled = count.times(weights[light]);
        if whole.exceeds(filled) {
            columns[light] = Column {
                own: filled,
                other: heavy as u32,
            };
            let lack = whole.minus(filled);
            if !left.exceeds(lack) {
                return (light + 1, lack.minus(left));
            }
            left = left.minus(lack);
        }
        light += 1;
    }
    (light, N::zero())
}

/// Fills the columns that aren't whole.
#[tactic(auto, using(crate::proofs::FillLemmas::fill_lemmas))]
fn fill<N: Width>(weights: &[u64], count: N, whole: N, columns: &mut [Column<N>])
    requires row { Counted weights.now (N.value count) (N.value whole) }
    requires fits { length weights.now * sum weights.now < N.bound }
    requires short { length weights.now < 2 ^ 31 }
    requires filled { Filled (own_part N.value) other_item weights.now 0 0 columns.old }
    ensures { AllFilled (own_part N.value) other_item weights.now columns.new }
{
    let mut heavy = next_heavy(weights, count, whole, 0);
    let mut light = 0usize;
    // what the columns before `light` lacked beyond all that was spare so far
    let mut debt = N::zero();
    while heavy < weights.len() {
        let spare = count.times(weights[heavy]).minus(whole);
        if spare.exceeds(debt) {
            let unspent = spare.minus(debt);
            let served = serve(weights, count, whole, heavy, light, unspent, columns);
            light = served.0;
            debt = served.1;
        } else {
            debt = debt.minus(spare);
        }
        let next = next_heavy(weights, count, whole, heavy + 1);
        columns[heavy] = Column {
            own: whole.minus(debt),
            other: next as u32,
        };
        heavy = next;
    }
}

/// The columns of weights, at a width in which their places can be counted.
pub(crate) fn filled_columns<N: Width>(
    alloc: Global,
    weights: &[u64],
    count: N,
    whole: N,
) -> Result<Vec<Column<N>>, Memory>
    requires row { Counted weights.now (N.value count) (N.value whole) }
    requires fits { length weights.now * sum weights.now < N.bound }
    requires short { length weights.now < 2 ^ 31 }
    ensures { IfOk result (λ v. AllFilled (own_part N.value) other_item weights.now v.items) }
{
    let column = Column {
        own: whole,
        other: 0,
    };
    let mut columns = vec![in alloc; column; weights.len()]?;
    fill(weights, count, whole, &mut columns);
    Ok(columns)
}
