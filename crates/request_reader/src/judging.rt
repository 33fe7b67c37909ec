//! What a line asks for.

ghost use Rattle.std.specs.Prelude.{◌≡◌, ◌≤◌, ◌∷◌, length, drop, slice_range, option_to_list, IfSome};
ghost use Rattle.edge_reader.specs.Lines.{fields};
ghost use Rattle.request_reader.specs.Requests.{field_number, line_requests, request_of_fields, requests_of_fields, request_by, most_stream, most_start, most_steps};

use crate::lines::{next_field, trimmed};
use crate::requests::Request;
use walk_model::whole_number;

/// The greatest start, an id.
const MOST_START: u64 = 4294967295;

/// The greatest length, in steps.
const MOST_STEPS: u64 = 65536;

/// The number of a field, which has at most twenty digits.
#[tactic(auto, unfolding(crate::specs::Requests::field_number))]
fn field_number(field: &[u8], most: u64) -> Option<u64>
    ensures number { result ≡ field_number most field.now }
    ensures within { IfSome result (λ n. n ≤ most) }
{
    if field.len() > 20 {
        return None;
    }
    match whole_number(field, most) {
        Ok(n) => Some(n),
        Err(_) => None,
    }
}

/// The request of a line with these three fields, if it is good.
fn request_by(stream: &[u8], start: &[u8], steps: &[u8]) -> Option<Request>
    ensures request { result ≡ request_by (field_number most_stream stream.now) (field_number most_start start.now) (field_number most_steps steps.now) }
    ensures steps { IfSome result (λ q. q.length ≤ 65536) }
{
    let stream = field_number(stream, u64::MAX)?;
    let start = field_number(start, MOST_START)?;
    let steps = field_number(steps, MOST_STEPS)?;
    Some(Request {
        stream,
        start: start as u32,
        length: steps as u32,
    })
}

/// The request of a line whose first field has this begin and this end, if it is good.
fn request_from(line: &[u8], begin: usize, end: usize) -> Option<Request>
    requires { (begin ≤ end) × (end ≤ length line.now) }
    ensures request { result ≡ request_of_fields (slice_range line.now begin end ∷ fields (drop end line.now)) }
    ensures steps { IfSome result (λ q. q.length ≤ 65536) }
{
    let (start, start_end) = next_field(line, end)?;
    let (steps, steps_end) = next_field(line, start_end)?;
    match next_field(line, steps_end) {
        Some(_) => None,
        None => request_by(
            &line[begin..end],
            &line[start..start_end],
            &line[steps..steps_end],
        ),
    }
}

/// The request of a line, good or bad; none where the line is skipped.
pub(crate) fn judge(line: &[u8]) -> Option<Option<Request>>
    ensures requests { option_to_list result ≡ line_requests line.now }
    ensures steps { IfSome result (λ r. IfSome r (λ q. q.length ≤ 65536)) }
{
    let line = trimmed(line);
    let (begin, end) = next_field(line, 0)?;
    Some(request_from(line, begin, end))
}
