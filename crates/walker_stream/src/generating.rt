//! Words made by a generator: one alone, or those of four blocks at once.

ghost use Rattle.std.specs.Prelude.{◌≡◌, ℕ, IsTrue, ◌≤◌, ◌<◌, ◌+◌, ◌-◌, ◌*◌, ◌^◌, slice_index};
ghost use Rattle.rand_chacha.specs.ChaCha.{key_of};
ghost use Rattle.walk_model.specs.Words.{word, key_bytes};
ghost use Rattle.walker_stream.specs.Standing.{pair_at};

use rand_chacha::ChaCha8Rng;
use rand_core::SeedableRng;
use rand_core::utils::NextWord;

/// Words of 64 bits that one refill gives: those of four blocks.
pub(crate) const HELD: usize = 32;

/// Words of 64 bits in a block. A generator placed where a block begins makes no block twice.
const BLOCK: u64 = 8;

/// The key of a seed: its bytes, the least significant first, and zeros.
#[tactic(auto, unfolding(walk_model::specs::Words::key_bytes))]
fn key_of_seed(seed: u64) -> [u8; 32]
    ensures { result ≡ key_bytes seed }
{
    let mut key = [0u8; 32];
    key[..8].copy_from_slice(&seed.to_le_bytes());
    key
}

/// A generator of a seed's words.
pub(crate) fn generator_of(seed: u64) -> ChaCha8Rng
    ensures { result.key ≡ key_of (key_bytes seed) }
{
    ChaCha8Rng::from_seed(key_of_seed(seed))
}

/// The word at a place of a stream, with no reader.
#[tactic(auto, unfolding(walk_model::specs::Words::word))]
pub(crate) fn word_at(seed: u64, walker: u64, place: u64) -> u64
    ensures { result ≡ word seed walker place }
{
    let mut generator = generator_of(seed);
    generator.set_stream(walker);
    generator.set_word_pos(2 * u128::from(place));
    let low = generator.next_word();
    let high = generator.next_word();
    u64::from(low) + 0x1_0000_0000 * u64::from(high)
}

/// The next 32 words of 64 bits of a generator.
#[inline(never)]
fn refill(generator: &mut ChaCha8Rng, words: &mut [u64; HELD])
    requires room { generator.old.word_pos + 64 < 2 ^ 68 }
    ensures moved { generator.new ≡ record generator.old { word_pos = generator.old.word_pos + 64 } }
    ensures words { (k : ℕ) → k < 32
        → slice_index words.new k ≡ pair_at generator.old.key generator.old.stream (generator.old.word_pos + 2 * k) }
{
    for k in 0..HELD {
        let low = generator.next_word();
        let high = generator.next_word();
        words[k] = u64::from(low) + 0x1_0000_0000 * u64::from(high);
    }
}

/// Makes 32 words in which the one at a place of a walker's stream stands, and says how many stand before it.
/// Where the generator is at that place they are the next ones, and else those of four blocks from that of the
/// place on.
#[inline(never)]
pub(crate) fn renew(
    generator: &mut ChaCha8Rng,
    words: &mut [u64; HELD],
    walker: u64,
    place: u64,
    is_there: bool,
) -> usize
    requires { IsTrue is_there → (generator.old.stream ≡ walker) × (generator.old.word_pos ≡ 2 * place) }
    ensures few { result ≤ 7 }
    ensures within { result ≤ place }
    ensures moved { generator.new ≡ record { key = generator.old.key; stream = walker; word_pos = 2 * (place - result) + 64 } }
    ensures words { (k : ℕ) → k < 32
        → slice_index words.new k ≡ pair_at generator.old.key walker (2 * (place - result) + 2 * k) }
{
    if is_there {
        refill(generator, words);
        return 0;
    }
    let before = place % BLOCK;
    generator.set_stream(walker);
    generator.set_word_pos(2 * u128::from(place - before));
    refill(generator, words);
    before as usize
}
