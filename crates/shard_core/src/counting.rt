//! How many prints walkers left, and how many entries their walks have.

ghost use Rattle.std.specs.Prelude.{◌≡◌};
ghost use Rattle.std.specs.List.{flat_map};
ghost use Rattle.shard_core.specs.Counted.{count_all, count_walks};
ghost use Rattle.shard_core.specs.Pieces.{all_of};

use crate::prints::Prints;
use crate::shards::Shard;
use traveller::Traveller;
use walk_model::Print;

/// Counts each print of a piece for its walker.
fn count_piece(counts: &mut [u64], piece: &[Print])
    ensures { counts.new ≡ count_all counts.old piece.now }
{
    for print in piece {
        if print.walker < counts.len() as u64 {
            let count = &mut counts[print.walker as usize];
            *count = count.saturating_add(1);
        }
    }
}

/// Counts each print of some pieces for its walker.
fn count_pieces(counts: &mut [u64], pieces: &[Vec<Print>])
    ensures { counts.new ≡ count_all counts.old (all_of pieces.now) }
{
    for piece in pieces {
        count_piece(counts, piece.as_slice());
    }
}

/// Counts each print for its walker.
pub(crate) fn count_prints(counts: &mut [u64], prints: &Prints)
    ensures { counts.new ≡ count_all counts.old prints.now.prints }
{
    let (full, last) = prints.pieces();
    count_pieces(counts, full);
    count_piece(counts, last);
}

/// Puts down for each walker how many entries its walk has: one for its start, and one for each step.
fn count_walkers(counts: &mut [u64], walkers: &[Traveller])
    ensures { counts.new ≡ count_walks counts.old walkers.now }
{
    for walker in walkers {
        if walker.number() < counts.len() as u64 {
            counts[walker.number() as usize] = u64::from(walker.step()) + 1;
        }
    }
}

/// The same for the walkers of a shard.
fn count_residents(counts: &mut [u64], shard: &Shard)
    ensures { counts.new ≡ count_walks counts.old shard.now.residents }
{
    count_walkers(counts, shard.ready.as_slice());
    count_walkers(counts, shard.waiting.as_slice());
    count_walkers(counts, shard.ended.as_slice());
}

/// The same for the walkers of all shards.
pub(crate) fn count_in_shards(counts: &mut [u64], shards: &[Shard])
    ensures { counts.new ≡ count_walks counts.old (flat_map (λ s. s.residents) shards.now) }
{
    for shard in shards {
        count_residents(counts, shard);
    }
}
