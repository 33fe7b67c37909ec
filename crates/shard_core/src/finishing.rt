//! The walks that prints make.

ghost use Rattle.std.specs.Prelude.{◌≡◌, ◌≤◌, ◌<◌, ◌+◌, ◌^◌, ◌++◌, List, ℕ, length, map, sum, All, IfOk};
ghost use Rattle.std.specs.List.{flat_map};
ghost use Rattle.walk_model.specs.Beginnings.{begins_from};
ghost use Rattle.shard_core.specs.Gathered.{AreAllPrints, place_of, put_all};

use crate::prints::Prints;
use std::alloc::Global;
use walk_model::{Finished, Memory, Print};

/// Adds where the next walks begin, behind so many entries of others, by how many entries each has. The
/// result is where the last one ends.
pub(crate) fn add_begins(begins: &mut Vec<u64>, place: u64, counts: &[u64]) -> Result<u64, Memory>
    ensures begins { IfOk result (λ _. begins.new.items ≡ begins.old.items ++ begins_from place counts.now) }
    ensures end { IfOk result (λ end. end ≡ place + sum counts.now) }
{
    let mut next = place;
    for count in counts {
        begins.push(next)?;
        match next.checked_add(*count) {
            Some(place) => next = place,
            None => return Err(Memory),
        }
    }
    Ok(next)
}

/// The place of a print, which is at or behind the end where there is no such walk.
#[inline]
fn place_of_print(begins: &[u64], end: usize, print: &Print) -> usize
    requires end { end < 2 ^ 62 }
    requires below { All (λ b. b < end) begins.now }
    ensures { result ≡ place_of begins.now end print.now }
{
    let begin = if print.walker < begins.len() as u64 {
        begins[print.walker as usize] as usize
    } else {
        end
    };
    begin + print.step as usize
}

/// Puts each print of a piece at its place.
pub(crate) fn put_piece(entries: &mut [u32], begins: &[u64], piece: &[Print])
    requires { All (λ b. b < length entries.old) begins.now }
    ensures { entries.new ≡ put_all begins.now entries.old piece.now }
{
    for print in piece {
        let place = place_of_print(begins, entries.len(), print);
        if place < entries.len() {
            entries[place] = print.at;
        }
    }
}

/// Puts each print of some pieces at its place, and frees each piece when it is done.
fn put_pieces(entries: &mut [u32], begins: &[u64], pieces: Vec<Vec<Print>>)
    requires { All (λ b. b < length entries.old) begins.now }
    ensures { entries.new ≡ put_all begins.now entries.old (flat_map (λ piece. piece.items) pieces.items) }
{
    for piece in pieces {
        put_piece(entries, begins, piece.as_slice());
    }
}

/// Puts all prints at their places.
fn put_prints(entries: &mut [u32], begins: &[u64], prints: Prints)
    requires { All (λ b. b < length entries.old) begins.now }
    ensures { entries.new ≡ put_all begins.now entries.old prints.prints }
{
    let (full, last) = prints.into_pieces();
    put_pieces(entries, begins, full);
    put_piece(entries, begins, last.as_slice());
}

/// Puts the prints of all lists at their places.
fn put_lists(entries: &mut [u32], begins: &[u64], kept: Vec<Prints>)
    requires { All (λ b. b < length entries.old) begins.now }
    ensures { entries.new ≡ put_all begins.now entries.old (flat_map (λ k. k.prints) kept.items) }
{
    for prints in kept {
        put_prints(entries, begins, prints);
    }
}

/// The walks whose prints were kept, in any order in any lists: `counts[i]` is how many entries the walk of walker
/// `i` has, at least one. Each piece of prints is freed when its prints stand in the walks.
///
/// # Errors
///
/// `Memory` where there is none for all entries, 4 bytes each, or for the beginnings, 8 bytes each.
pub(crate) fn finish(alloc: Global, kept: Vec<Prints>, counts: &[u64]) -> Result<Finished, Memory>
    requires { All (λ n. 1 ≤ n) counts.now }
    ensures { IfOk result (λ f. (walks : List (List ℕ)) → AreAllPrints walks (flat_map (λ k. k.prints) kept.items) → map length walks ≡ counts.now → f ≡ walks) }
{
    let mut begins = Vec::with_capacity(alloc, counts.len())?;
    let end = add_begins(&mut begins, 0, counts)?;
    let mut entries = vec![in alloc; 0u32; end as usize]?;
    put_lists(entries.as_mut_slice(), begins.as_slice(), kept);
    Ok(Finished::of(entries, begins))
}
