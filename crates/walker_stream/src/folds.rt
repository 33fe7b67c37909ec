//! Words folded to numbers below a bound.

ghost use Rattle.std.specs.Prelude.{◌≡◌, ◌≤◌, ◌<◌, ◌%◌, ◌^◌, IfSome};
ghost use Rattle.walk_model.specs.Words.{fold_word};
ghost use Rattle.walker_stream.specs.Folds.{HasFairFolds, HasFairCoins};

/// A word folded to a number below a bound, as `fold` does, where its rest by the bound is at hand.
#[tactic(auto, using(crate::proofs::FoldLemmas::fold_lemmas))]
#[inline]
pub fn fold_rest(word: u64, below: u64, rest: u64) -> Option<u64>
    requires some { 1 ≤ below }
    requires bound { below ≤ 2 ^ 62 }
    requires rest { rest ≡ word % below }
    ensures value { result ≡ fold_word below word }
    ensures within { IfSome result (λ x. x < below) }
{
    // at most `below` words lie past the last whole round
    if word <= u64::MAX - below {
        return Some(rest);
    }
    let past = (u64::MAX - below + 1) % below;
    if word > u64::MAX - past {
        None
    } else {
        Some(rest)
    }
}

/// A word folded to a number below a bound, or none where the word lies past the last whole round of
/// that many numbers among all words. So each number is the fold of the same count of words.
#[tactic(auto, using(crate::proofs::FairLemmas::fair_lemmas))]
#[inline]
pub fn fold(word: u64, below: u64) -> Option<u64>
    requires some { 1 ≤ below }
    requires bound { below ≤ 2 ^ 62 }
    ensures value { result ≡ fold_word below word }
    ensures within { IfSome result (λ x. x < below) }
    ensures fair { HasFairFolds below }
    ensures coins { HasFairCoins below }
{
    fold_rest(word, below, word % below)
}
