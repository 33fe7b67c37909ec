//! Rows at which a step could overflow.

ghost use Rattle.std.specs.Prelude.{◌≡◌, ◌≤◌, ◌<◌, ◌*◌, ◌^◌, nat_lt, length, find, sum, map};
ghost use Rattle.vertex_partition.specs.Limits.{most_reach};
ghost use Rattle.vertex_partition.specs.OutWeights.{out_weight};
ghost use Rattle.walk_model.specs.Numbers.{below};
ghost use Rattle.vertex_partition.specs.Reaches.{row_reach};

use csr_store::{OutEdge, Rows};

/// The greatest reach of a row at which no step overflows: its number of edges, times the sum of their
/// weights, times the greatest factor.
const MOST_REACH: u128 = 0x4000_0000_0000_0000;

/// The sum of the static weights of a row.
fn weight_sum(weighted: bool, row: &[OutEdge]) -> u128
    requires few { length row.now < 2 ^ 31 }
    ensures sum { result ≡ sum (map (out_weight weighted) row.now) }
    ensures bound { result < 2 ^ 95 }
{
    if !weighted {
        return row.len() as u128;
    }
    let mut sum = 0u128;
    for edge in row {
        sum += u128::from(edge.weight);
    }
    sum
}

/// Whether the reach of a row is above 2^62.
fn overflows(weighted: bool, row: &[OutEdge], factor: u64) -> bool
    requires few { length row.now < 2 ^ 31 }
    ensures { result ≡ nat_lt most_reach (length row.now * sum (map (out_weight weighted) row.now) * factor) }
{
    let product = row.len() as u128 * weight_sum(weighted, row);
    match product.checked_mul(u128::from(factor)) {
        Some(reach) => reach > MOST_REACH,
        None => true,
    }
}

/// The least vertex at which a step could overflow, by the greatest factor that a step can meet: its
/// number of edges, times the sum of their weights, times the factor is above 2^62.
pub fn first_overflow(rows: &Rows, weighted: bool, factor: u64) -> Option<u32>
    ensures { result ≡ find (λ v. nat_lt most_reach (row_reach rows.now weighted factor v)) (below rows.now.vertices) }
{
    for v in 0..rows.vertices() {
        if overflows(weighted, rows.row(v), factor) {
            return Some(v);
        }
    }
    None
}
