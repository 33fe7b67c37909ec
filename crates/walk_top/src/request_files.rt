//! Requests that are read from files, and whether they are within their limit.

ghost use Rattle.std.specs.Prelude.{◌≡◌, ◌≤◌, ◌<◌, ◌+◌, ℕ, List, ◌∷◌, [], length, drop, map, sum_by, All, IfOk, IfErr, IfSome, IfNone, IsTrue, IsFalse};
ghost use Rattle.walk_model.specs.declared.limits.TheConstants.{MAX_PATH_ENTRIES};
ghost use Rattle.request_replies.specs.Answered.{AreAllShort, lists_of};
ghost use Rattle.walk_top.specs.Verdicts.{MayBe};
ghost use Rattle.walk_top.specs.ErrorLines.{HasLine};
ghost use Rattle.walk_top.specs.Stages.{IsFaultIn};
ghost use Rattle.walk_top.specs.ServeVerdicts.{named_requests, all_requests, entries_of, all_entries};

use crate::files::read_fault;
use crate::texts::{TextFault, read_text};
use request_reader::limits::MAX_REQUEST_BYTES;
use request_reader::{Request, read_requests};
use std::alloc::Global;
use vertex_names::Names;
use walk_io::Files;
use walk_model::limits::MAX_PATH_ENTRIES;
use walk_model::{Limit, WalkFault};

/// The requests of a file.
fn file_requests<F: Files>(
    alloc: Global,
    files: &mut F,
    name: &str,
) -> Result<Vec<Option<Request>>, WalkFault>
    ensures requests { IfOk result (λ v. MayBe (named_requests (F.told files.old) name.now) v.items) }
    ensures few { IfOk result (λ v. length v.items ≤ 16777216) }
    ensures steps { IfOk result (λ v. All (λ r. IfSome r (λ q. q.length ≤ 65536)) v.items) }
    ensures fault { IfErr result (IsFaultIn (λ told. named_requests told name.now) (record {
      names = name.now ∷ [];
      told = F.told files.old;
      reads = F.faults files.old;
      reads_after = F.faults files.new;
    })) }
    ensures lined { IfErr result HasLine }
    ensures kept { (n : List ℕ) → F.told files.new n ≡ F.told files.old n }
    ensures later { (n : List ℕ) → F.faults files.old n ≤ F.faults files.new n }
{
    let text = match read_text(alloc, files, name, MAX_REQUEST_BYTES as usize) {
        Ok(text) => text,
        Err(TextFault::Read) => return Err(read_fault(alloc, name)),
        Err(TextFault::TooLong) => {
            return Err(WalkFault::Limit {
                what: Limit::RequestBytes,
            });
        }
        Err(TextFault::Memory) => return Err(WalkFault::Memory),
    };
    match read_requests(alloc, &text) {
        Ok(requests) => Ok(requests),
        Err(_) => Err(WalkFault::Memory),
    }
}

/// The name at a place.
fn name_at<'a>(names: &[&'a str], k: usize) -> &'a str
    requires { k < length names.now }
    ensures { drop k (map (λ n. n.now) names.now) ≡ result.now ∷ drop (k + 1) (map (λ n. n.now) names.now) }
{
    names[k]
}

/// The requests of several files, one file after another.
///
/// # Errors
///
/// The first of these: a file that can't be read, or that is too long. Besides, there may be no memory.
pub(crate) fn find_requests<F: Files>(
    alloc: Global,
    files: &mut F,
    names: &[&str],
) -> Result<Vec<Vec<Option<Request>>>, WalkFault>
    ensures requests { IfOk result (λ v. MayBe (all_requests (F.told files.old) (map (λ n. n.now) names.now)) (lists_of v.items)) }
    ensures count { IfOk result (λ v. length v.items ≡ length names.now) }
    ensures short { IfOk result (λ v. AreAllShort v.items) }
    ensures fault { IfErr result (IsFaultIn (λ told. all_requests told (map (λ n. n.now) names.now)) (record {
      names = map (λ n. n.now) names.now;
      told = F.told files.old;
      reads = F.faults files.old;
      reads_after = F.faults files.new;
    })) }
    ensures lined { IfErr result HasLine }
    ensures kept { (n : List ℕ) → F.told files.new n ≡ F.told files.old n }
    ensures later { (n : List ℕ) → F.faults files.old n ≤ F.faults files.new n }
{
    let mut all = Vec::new(alloc);
    'files: for k in 0..names.len() {
        let name = name_at(names, k);
        let requests = match file_requests(alloc, files, name) {
            Ok(requests) => requests,
            Err(fault) => return Err(fault),
        };
        match all.push(requests) {
            Ok(()) => {}
            Err(_) => return Err(WalkFault::Memory),
        }
    }
    Ok(all)
}

/// The entries that the walk of a request may have: none where it is bad or its start is no vertex.
fn entries_of(names: &Names, request: Option<Request>) -> u64
    requires { IfSome request (λ q. q.length ≤ 65536) }
    ensures entries { result ≡ entries_of names.now request }
    ensures few { result ≤ 65537 }
{
    match request {
        Some(request) => match names.rank(request.start) {
            Some(_) => u64::from(request.length) + 1,
            None => 0,
        },
        None => 0,
    }
}

/// How much room is left after the entries of a file's requests, if it is enough.
fn room_after(names: &Names, requests: &[Option<Request>], room: u64) -> Option<u64>
    requires { All (λ r. IfSome r (λ q. q.length ≤ 65536)) requests.now }
    ensures fits { IfSome result (λ left. left + sum_by (entries_of names.now) requests.now ≡ room) }
    ensures passed { IfNone result (room < sum_by (entries_of names.now) requests.now) }
{
    let mut left = room;
    'requests: for k in 0..requests.len() {
        let entries = entries_of(names, requests[k]);
        if entries > left {
            return None;
        }
        left -= entries;
    }
    Some(left)
}

/// Whether the walks of all good requests together, were each as long as it may be, have no more entries than the limit.
pub(crate) fn are_within(names: &Names, files: &[Vec<Option<Request>>]) -> bool
    requires { AreAllShort files.now }
    ensures yes { IsTrue result → all_entries names.now (lists_of files.now) ≤ MAX_PATH_ENTRIES }
    ensures no { IsFalse result → MAX_PATH_ENTRIES < all_entries names.now (lists_of files.now) }
{
    let mut room = MAX_PATH_ENTRIES;
    'files: for k in 0..files.len() {
        match room_after(names, files[k].as_slice(), room) {
            Some(left) => room = left,
            None => return false,
        }
    }
    true
}
