//! Sums over weights, and a test for equal ones.

ghost use Rattle.std.specs.Prelude.{◌≡◌, ◌≤◌, ◌<◌, ◌^◌, ◌↔◌, length, sum, All, IsTrue};

/// The sum of weights.
pub(crate) fn total(weights: &[u64]) -> u128
    requires { length weights.now < 2 ^ 31 }
    ensures value { result ≡ sum weights.now }
    ensures bound { result < 2 ^ 95 }
{
    let mut sum = 0u128;
    for w in weights {
        sum += u128::from(*w);
    }
    sum
}

/// Whether all weights are equal to one.
pub(crate) fn all_are(weights: &[u64], one: u64) -> bool
    ensures { IsTrue result ↔ All (λ w. w ≡ one) weights.now }
{
    weights.iter().all(|w| *w == one)
}
