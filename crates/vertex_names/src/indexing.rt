//! An index over rising ids by their leading bits.

ghost use Rattle.std.specs.Prelude.{◌≡◌, ◌≤◌, ◌+◌, ◌^◌, ◌<◌, ℕ, nat_lt, length, slice_index, IfOk, IfSome, All, count_by};
ghost use Rattle.std.specs.List.Sorted.{IsNonDecreasing, IsStrictlyIncreasing};
ghost use Rattle.vertex_names.specs.Ranks.{rank_of};
ghost use Rattle.vertex_names.specs.NameIndex.{bucket_of, IsIndex};

use std::alloc::Global;
use walk_model::Memory;

/// Parts up to this length are looked through from end to end.
const SHORT: usize = 16;

/// How many low bits a bucket leaves out, so that there are at most about twice as many buckets as
/// ids.
pub(crate) fn shift_for(span: u32, count: usize) -> u32
    ensures { result < 32 }
{
    let mut shift = 0;
    while shift < 31 && (span >> shift) as usize / 2 >= count {
        shift += 1;
    }
    shift
}

/// For each bucket the number of ids before it, and the number of all ids behind the last bucket.
pub(crate) fn bucket_starts(
    alloc: Global,
    ids: &[u32],
    first: u32,
    shift: u32,
) -> Result<Vec<u32>, Memory>
    requires rising { IsStrictlyIncreasing ids.now }
    requires least { All (λ y. first ≤ y) ids.now }
    requires few { length ids.now < 2 ^ 32 }
    requires shift { shift < 32 }
    ensures index { IfOk result (λ r. IsIndex first shift ids.now r.items) }
    ensures whole { IfOk result (λ r. (k : ℕ) → k < length ids.now → bucket_of first shift (slice_index ids.now k) + 1 < length r.items) }
{
    let mut starts = Vec::new(alloc);
    let mut i = 0;
    'ids: while i < ids.len() {
        let bucket = ((ids[i] - first) >> shift) as usize;
        'buckets: while starts.len() <= bucket {
            starts.push(i as u32)?;
        }
        i += 1;
    }
    starts.push(ids.len() as u32)?;
    Ok(starts)
}

/// How many ids of a rising part are below an id.
pub(crate) fn ids_below(part: &[u32], id: u32) -> usize
    requires { IsNonDecreasing part.now }
    ensures { result ≡ count_by (λ y. nat_lt y id) part.now }
{
    if part.len() <= SHORT {
        part.iter().filter(|y| **y < id).count()
    } else {
        part.partition_point(|y| *y < id)
    }
}

/// The rank of an id among rising ids, by a look into the bucket where it would stand.
pub(crate) fn find(ids: &[u32], starts: &[u32], first: u32, shift: u32, id: u32) -> Option<u32>
    requires rising { IsStrictlyIncreasing ids.now }
    requires few { length ids.now < 2 ^ 32 }
    requires shift { shift < 32 }
    requires low { first ≤ id }
    requires index { IsIndex first shift ids.now starts.now }
    requires whole { (k : ℕ) → k < length ids.now → bucket_of first shift (slice_index ids.now k) + 1 < length starts.now }
    ensures rank { result ≡ rank_of ids.now id }
    ensures id { IfSome result (λ r. (r < length ids.now) × (slice_index ids.now r ≡ id)) }
{
    let bucket = ((id - first) >> shift) as usize;
    if bucket + 1 >= starts.len() {
        return None;
    }
    let from = starts[bucket] as usize;
    let to = starts[bucket + 1] as usize;
    let part = &ids[from..to];
    let place = ids_below(part, id);
    if place >= part.len() {
        return None;
    }
    if part[place] == id {
        Some((from + place) as u32)
    } else {
        None
    }
}
