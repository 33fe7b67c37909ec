//! Searches in the ends of a row, which rise.

ghost use Rattle.std.specs.Prelude.{◌≡◌, ◌≤◌, ◌==◌, nat_lt, count_by, All};
ghost use Rattle.std.specs.List.Sorted.{IsNonDecreasing};

/// Rows up to this length are looked through from end to end.
const SHORT: usize = 16;

/// How many of a row's ends, which don't fall, lie below a vertex.
#[inline]
pub fn ends_below(ends: &[u32], t: u32) -> usize
    requires { IsNonDecreasing ends.now }
    ensures { result ≡ count_by (λ e. nat_lt e t) ends.now }
{
    if ends.len() <= SHORT {
        ends.iter().filter(|e| **e < t).count()
    } else {
        ends.partition_point(|e| *e < t)
    }
}

/// How many of a row's ends, which don't fall, are a vertex, where none of them lies below it.
#[inline]
pub fn ends_at(ends: &[u32], t: u32) -> usize
    requires order { IsNonDecreasing ends.now }
    requires least { All (λ e. t ≤ e) ends.now }
    ensures { result ≡ count_by (λ e. e == t) ends.now }
{
    match ends {
        [first, ..] if *first != t => 0,
        [_, second, ..] if *second != t => 1,
        _ => ends.partition_point(|e| *e <= t),
    }
}
