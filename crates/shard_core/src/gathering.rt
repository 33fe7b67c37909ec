//! Walks that are put together batch by batch, so that no more prints are kept than one batch leaves.

ghost use Rattle.std.specs.Prelude.{◌≡◌, ◌≤◌, ◌<◌, ◌+◌, ◌++◌, ℕ, length, replicate, sum, All, IfOk};
ghost use Rattle.walk_model.specs.Beginnings.{begins_from};
ghost use Rattle.shard_core.specs.Gathered.{put_all};
ghost use Rattle.shard_core.specs.Pieces.{all_of};

use crate::finishing::{add_begins, put_piece};
use crate::prints::Prints;
use walk_model::{Memory, Print};

/// Puts each print of some pieces at its place.
fn put_each_piece(entries: &mut [u32], begins: &[u64], pieces: &[Vec<Print>])
    requires { All (λ b. b < length entries.old) begins.now }
    ensures { entries.new ≡ put_all begins.now entries.old (all_of pieces.now) }
{
    for piece in pieces {
        put_piece(entries, begins, piece.as_slice());
    }
}

/// Puts all prints at their places, and keeps the prints.
fn put_each(entries: &mut [u32], begins: &[u64], prints: &Prints)
    requires { All (λ b. b < length entries.old) begins.now }
    ensures { entries.new ≡ put_all begins.now entries.old prints.now.prints }
{
    let (full, last) = prints.pieces();
    put_each_piece(entries, begins, full);
    put_piece(entries, begins, last);
}

/// Adds the next walks, whose prints these are, by how many entries each has: at least one.
///
/// # Errors
///
/// `Memory` where there is none for their entries, 4 bytes each, or for their beginnings, 8 bytes each.
pub(crate) fn add_walks(
    entries: &mut Vec<u32>,
    begins: &mut Vec<u64>,
    prints: &Prints,
    counts: &[u64],
) -> Result<(), Memory>
    requires some { All (λ n. 1 ≤ n) counts.now }
    requires below { All (λ b. b < length entries.old.items) begins.old.items }
    ensures begins { IfOk result (λ _. begins.new.items ≡ begins.old.items ++ begins_from (length entries.old.items) counts.now) }
    ensures entries { IfOk result (λ _. entries.new.items ≡ put_all begins.new.items (entries.old.items ++ replicate (sum counts.now) 0) prints.now.prints) }
{
    let end = add_begins(begins, entries.len() as u64, counts)?;
    entries.resize(end as usize, 0)?;
    put_each(entries.as_mut_slice(), begins.as_slice(), prints);
    Ok(())
}
