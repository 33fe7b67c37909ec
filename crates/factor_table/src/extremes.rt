//! The greatest and the least of some factors.

ghost use Rattle.std.specs.Prelude.{◌≡◌};
ghost use Rattle.factor_table.specs.Factors.{greatest_of, least_of};

/// The greatest factor, or 0 where there is none.
pub(crate) fn greatest_in(factors: &[u64]) -> u64
    ensures { result ≡ greatest_of factors.now }
{
    factors
        .iter()
        .fold(0, |greatest, factor| greatest.max(*factor))
}

/// The least factor, or 0 where there is none.
pub(crate) fn least_in(factors: &[u64]) -> u64
    ensures { result ≡ least_of factors.now }
{
    match factors {
        [] => 0,
        [first, rest @ ..] => rest.iter().fold(*first, |least, factor| least.min(*factor)),
    }
}
