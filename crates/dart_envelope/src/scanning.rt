//! The scan of a whole row by weight times factor.

ghost use Rattle.std.specs.Prelude.{◌≡◌, ℕ, ◌≤◌, ◌<◌, ◌^◌, List, length, IfSome};
ghost use Rattle.dart_envelope.specs.Hits.{HasFairScans, HasFairScansOf};
ghost use Rattle.dart_envelope.specs.Scans.{AnswersAre, total_of, scan_of};

/// The sum of weight times factor over a row's edges; the closure answers the factor of an edge by
/// its place. It is at most 2^62.
pub fn scan_total<F: Fn(usize) -> u64>(weights: &[u64], factors: F) -> u64
    requires callable { (edge : ℕ) → edge < length weights.now → F.pre factors edge }
    requires fits { (fs : List ℕ) × AnswersAre (F.post factors) (length weights.now) fs × (total_of weights.now fs ≤ 2 ^ 62) }
    ensures total { (fs : List ℕ) → AnswersAre (F.post factors) (length weights.now) fs → result ≡ total_of weights.now fs }
    ensures fair { (fs : List ℕ) → AnswersAre (F.post factors) (length weights.now) fs → HasFairScansOf weights.now fs result }
{
    let mut total = 0u64;
    for (edge, weight) in weights.iter().enumerate() {
        total += *weight * factors(edge);
    }
    total
}

/// The first edge whose running sum of weight times factor exceeds `z`, which is below the total
/// unless that is 0: then there is none.
pub fn scan<F: Fn(usize) -> u64>(weights: &[u64], factors: F, z: u64) -> Option<usize>
    requires callable { (edge : ℕ) → edge < length weights.now → F.pre factors edge }
    requires fits { (fs : List ℕ) × AnswersAre (F.post factors) (length weights.now) fs × (total_of weights.now fs ≤ 2 ^ 62) × (1 ≤ total_of weights.now fs → z < total_of weights.now fs) }
    ensures edge { (fs : List ℕ) → AnswersAre (F.post factors) (length weights.now) fs → result ≡ scan_of weights.now fs z }
    ensures within { IfSome result (λ edge. edge < length weights.now) }
    ensures fair { (fs : List ℕ) → AnswersAre (F.post factors) (length weights.now) fs → HasFairScans weights.now fs }
{
    let mut left = z;
    for (edge, weight) in weights.iter().enumerate() {
        let share = *weight * factors(edge);
        if left < share {
            return Some(edge);
        }
        left -= share;
    }
    None
}
