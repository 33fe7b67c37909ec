//! All requests of a text.

ghost use Rattle.std.specs.Prelude.{◌≡◌, ◌≤◌, ◌+◌, ◌++◌, length, All, IfOk, IfSome, OnOk};
ghost use Rattle.request_reader.specs.Requests.{line_requests, requests_of};

use crate::judging::judge;
use crate::lines::line_end;
use crate::requests::Request;
use std::alloc::Global;
use walk_model::Memory;

/// Adds the request of a line, unless the line is skipped.
fn add_request(requests: &mut Vec<Option<Request>>, line: &[u8]) -> Result<(), Memory>
    requires steps { All (λ r. IfSome r (λ q. q.length ≤ 65536)) requests.old.items }
    ensures added { OnOk result (requests.new.items ≡ requests.old.items ++ line_requests line.now) }
    ensures few { OnOk result (length requests.new.items ≤ length requests.old.items + 1) }
    ensures steps { OnOk result (All (λ r. IfSome r (λ q. q.length ≤ 65536)) requests.new.items) }
{
    if let Some(request) = judge(line) {
        requests.push(request)?;
    }
    Ok(())
}

/// The requests of a text in the order of its lines, each good or, as `None`, bad.
///
/// A line ends with a line feed, and one carriage return at its end isn't part of it; bytes after the last line feed are a line
/// too. A good line has three fields, parted by spaces or tabs, of at most twenty digits each: stream, start (4294967295 at most)
/// and length (65,536 at most). A line without fields is skipped, and any other is bad.
///
/// # Errors
///
/// `Memory` where there is too little of it: 24 bytes for each request, up to twice that while their list grows.
pub fn read_requests(alloc: Global, text: &[u8]) -> Result<Vec<Option<Request>>, Memory>
    ensures requests { IfOk result (λ v. v.items ≡ requests_of text.now) }
    ensures few { IfOk result (λ v. length v.items ≤ length text.now) }
    ensures steps { IfOk result (λ v. All (λ r. IfSome r (λ q. q.length ≤ 65536)) v.items) }
{
    let mut requests = Vec::new(alloc);
    let mut at = 0usize;
    'lines: while at < text.len() {
        let end = line_end(text, at);
        add_request(&mut requests, &text[at..end])?;
        at = end + 1;
    }
    Ok(requests)
}
