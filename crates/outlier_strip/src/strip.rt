//! The strip, after KnightKing: edges whose factors rise above all others are kept apart, so that the
//! board under them stays low.

ghost use Rattle.std.specs.Prelude.{◌≡◌, ◌≤◌, ◌<◌, ◌*◌, ◌/◌, ◌^◌, length, sum};
ghost use Rattle.walk_model.specs.Lists.{first_above};

use walk_model::place_above;

/// The number of places of the strip above a row of `n` edges: the run's `sum` of weights and how
/// far its factor rises, for each column.
#[inline]
pub fn strip_area(n: u64, sum: u128, lift: u64) -> u128
    requires { n * sum * lift ≤ 2 ^ 126 }
    ensures { result ≡ n * sum * lift }
{
    // this order fits even where nothing rises
    u128::from(n) * u128::from(lift) * sum
}

/// The edge of the run that has a place of the strip: each has its weight times the number `n` of
/// columns, one edge after the other. Here `z` counts the places of one unit of height.
#[inline]
pub fn strip_pick(weights: &[u64], n: u64, z: u128) -> usize
    requires some { 1 ≤ n }
    requires within { z < n * sum weights.now }
    requires fits { n * sum weights.now ≤ 2 ^ 126 }
    ensures place { result ≡ first_above (z / n) weights.now }
    ensures within { result < length weights.now }
{
    match u64::try_from(z) {
        Ok(z) => place_above(z / n, weights),
        Err(_) => place_above_wide(z / u128::from(n), weights),
    }
}

/// The first place at which the running sum exceeds a number of more than 64 bits.
#[tactic(auto, unfolding(walk_model::specs::Lists::first_above))]
fn place_above_wide(z: u128, weights: &[u64]) -> usize
    ensures place { result ≡ first_above z weights.now }
{
    let mut left = z;
    for (i, w) in weights.iter().enumerate() {
        if left < u128::from(*w) {
            return i;
        }
        left -= u128::from(*w);
    }
    weights.len()
}
