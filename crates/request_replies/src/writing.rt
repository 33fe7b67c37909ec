//! The lines of replies.

ghost use Rattle.std.specs.Prelude.{◌≡◌, ◌≤◌, ◌<◌, ◌+◌, ◌++◌, ℕ, List, length, map, Option, OnOk, OnErr, slice_get, Some};
ghost use Rattle.walk_io.specs.Causes.{Rose};
ghost use Rattle.walk_model.specs.Text.{line};
ghost use Rattle.path_writer.specs.Gains.{GainsFront, GainsBut};
ghost use Rattle.request_replies.specs.Lines.{entries};
ghost use Rattle.request_reader.specs.declared.requests.Request.{Request as TheRequest};
ghost use Rattle.request_replies.specs.Answered.{AreAllAnswered, AreAllCounted, AreAnswers, good_ones, lists_of};
ghost use Rattle.request_replies.specs.Replies.{walk_line, replies, all_replies};

use crate::asking::Answered;
use path_writer::{Block, put_byte, put_ids, put_number};
use request_reader::Request;
use walk_desk::WalkAnswer;
use walk_io::{Failed, Sink};
use walk_model::Path;

/// Adds a text.
fn put_text<K: Sink>(block: &mut Block, out: &mut K, text: &[u8]) -> Result<(), Failed>
    ensures whole { OnOk result (GainsBut (K.bytes out.old) (K.bytes out.new) (block.old ++ text.now) block.new) }
    ensures front { OnErr result (GainsFront (K.bytes out.old) (K.bytes out.new) (block.old ++ text.now)) }
    ensures later { K.faults out.old ≤ K.faults out.new }
    ensures failed { OnErr result (Rose (K.faults out.old) (K.faults out.new)) }
{
    for b in text {
        match put_byte(block, out, *b) {
            Ok(()) => {}
            Err(failed) => return Err(failed),
        }
    }
    Ok(())
}

/// Adds the entries of a walk with one space between.
fn put_entries<K: Sink>(block: &mut Block, out: &mut K, ids: &[u32]) -> Result<(), Failed>
    ensures whole { OnOk result (GainsBut (K.bytes out.old) (K.bytes out.new) (block.old ++ entries ids.now) block.new) }
    ensures front { OnErr result (GainsFront (K.bytes out.old) (K.bytes out.new) (block.old ++ entries ids.now)) }
    ensures later { K.faults out.old ≤ K.faults out.new }
    ensures failed { OnErr result (Rose (K.faults out.old) (K.faults out.new)) }
{
    let [first, rest @ ..] = ids else {
        return Ok(());
    };
    match put_number(block, out, *first) {
        Ok(()) => put_ids(block, out, rest),
        Err(failed) => Err(failed),
    }
}

/// Adds the line of a walk.
fn put_line<K: Sink>(block: &mut Block, out: &mut K, ids: &[u32]) -> Result<(), Failed>
    ensures whole { OnOk result (GainsBut (K.bytes out.old) (K.bytes out.new) (block.old ++ line ids.now) block.new) }
    ensures front { OnErr result (GainsFront (K.bytes out.old) (K.bytes out.new) (block.old ++ line ids.now)) }
    ensures later { K.faults out.old ≤ K.faults out.new }
    ensures failed { OnErr result (Rose (K.faults out.old) (K.faults out.new)) }
{
    match put_entries(block, out, ids) {
        Ok(()) => put_byte(block, out, b'\n'),
        Err(failed) => Err(failed),
    }
}

/// Adds the line of a walk, or of none.
fn put_walk<K: Sink>(block: &mut Block, out: &mut K, walk: &Option<Path>) -> Result<(), Failed>
    ensures whole { OnOk result (GainsBut (K.bytes out.old) (K.bytes out.new) (block.old ++ walk_line walk.now) block.new) }
    ensures front { OnErr result (GainsFront (K.bytes out.old) (K.bytes out.new) (block.old ++ walk_line walk.now)) }
    ensures later { K.faults out.old ≤ K.faults out.new }
    ensures failed { OnErr result (Rose (K.faults out.old) (K.faults out.new)) }
{
    match walk {
        Some(path) => put_line(block, out, path.as_slice()),
        None => put_text(block, out, b"? no vertex\n"),
    }
}

/// The answer of a number, where some were taken before others.
fn answer_at<'a>(taken: &'a [WalkAnswer], left: &'a [WalkAnswer], number: usize) -> &'a WalkAnswer
    requires { number < length taken.now + length left.now }
    ensures { slice_get (taken.now ++ left.now) number ≡ Some result.now }
{
    if number < taken.len() {
        return &taken[number];
    }
    &left[number - taken.len()]
}

/// Adds the replies to the requests of a file, by the answers to the good ones.
fn put_file<K: Sink>(
    block: &mut Block,
    out: &mut K,
    requests: &[Option<Request>],
    taken: &[WalkAnswer],
    left: &[WalkAnswer],
) -> Result<(), Failed>
    requires { length taken.now + length left.now ≡ length (good_ones requests.now) }
    ensures whole { (walks : TheRequest → Option (List ℕ)) → AreAnswers walks requests.now taken.now left.now
        → OnOk result (GainsBut (K.bytes out.old) (K.bytes out.new) (block.old ++ replies walks requests.now) block.new) }
    ensures front { (walks : TheRequest → Option (List ℕ)) → AreAnswers walks requests.now taken.now left.now
        → OnErr result (GainsFront (K.bytes out.old) (K.bytes out.new) (block.old ++ replies walks requests.now)) }
    ensures later { K.faults out.old ≤ K.faults out.new }
    ensures failed { OnErr result (Rose (K.faults out.old) (K.faults out.new)) }
{
    let mut next = 0usize;
    'replying: for k in 0..requests.len() {
        match requests[k] {
            Some(_) => match put_walk(block, out, &answer_at(taken, left, next).walk) {
                Ok(()) => next += 1,
                Err(failed) => return Err(failed),
            },
            None => match put_text(block, out, b"? bad request\n") {
                Ok(()) => {}
                Err(failed) => return Err(failed),
            },
        }
    }
    Ok(())
}

/// Adds the replies to the requests of all files.
pub(crate) fn put_files<K: Sink>(
    block: &mut Block,
    out: &mut K,
    files: &[Vec<Option<Request>>],
    answered: &Answered,
) -> Result<(), Failed>
    requires { AreAllCounted files.now answered.now.taken.items answered.now.left.items }
    ensures whole { (walks : TheRequest → Option (List ℕ)) → AreAllAnswered walks files.now answered.now.taken.items answered.now.left.items
        → OnOk result (GainsBut (K.bytes out.old) (K.bytes out.new) (block.old ++ all_replies walks (lists_of files.now)) block.new) }
    ensures front { (walks : TheRequest → Option (List ℕ)) → AreAllAnswered walks files.now answered.now.taken.items answered.now.left.items
        → OnErr result (GainsFront (K.bytes out.old) (K.bytes out.new) (block.old ++ all_replies walks (lists_of files.now))) }
    ensures later { K.faults out.old ≤ K.faults out.new }
    ensures failed { OnErr result (Rose (K.faults out.old) (K.faults out.new)) }
{
    'files: for k in 0..files.len() {
        let taken = answered.taken[k].as_slice();
        let left = answered.left[k].as_slice();
        match put_file(block, out, files[k].as_slice(), taken, left) {
            Ok(()) => {}
            Err(failed) => return Err(failed),
        }
    }
    Ok(())
}
