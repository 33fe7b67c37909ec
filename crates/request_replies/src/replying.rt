//! The replies to the requests of several files.

ghost use Rattle.std.specs.Prelude.{◌≡◌, ◌≤◌, length, IfOk, OnOk, OnErr, IfErr};
ghost use Rattle.std.specs.Io.KnownBytes.{append_known};
ghost use Rattle.path_writer.specs.Gains.{GainsFront};
ghost use Rattle.traveller.specs.Standing.{Suits};
ghost use Rattle.shard_core.specs.Abreast.{OwnsAll};
ghost use Rattle.request_replies.specs.Answered.{AreAllAnswered, AreAllShort, lists_of};
ghost use Rattle.request_replies.specs.PartWalks.{part_walk};
ghost use Rattle.request_replies.specs.Replies.{all_replies};
ghost use Rattle.request_replies.specs.ReplyFaults.{IsReplyFault};

use crate::asking::{Answered, ROOM, ask_files};
use crate::engine::PartEngine;
use crate::writing::put_files;
use path_writer::{Block, flush};
use request_reader::Request;
use std::alloc::Global;
use std::marker::Brand;
use std::sync::Wait;
use traveller::{Run, WalkPart};
use vertex_names::Names;
use vertex_partition::PartRows;
use walk_desk::DeskRings;
use walk_io::Sink;
use walk_model::Memory;

/// Why not all replies were written.
#[derive(Clone, Copy, Debug, PartialEq, Eq)]
pub enum ReplyFault {
    Failed,
    Memory,
}

/// The answers to the good requests of 1 to 16 files, by a desk that is opened and closed for them.
fn answer_files<R: Wait>(
    rt: &R,
    alloc: Global,
    names: &Names,
    run: &Run,
    part: &PartRows,
    files: &[Vec<Option<Request>>],
) -> Result<Answered, Memory>
    requires count { (1 ≤ length files.now) × (length files.now ≤ 16) }
    requires short { AreAllShort files.now }
    requires suits { Suits run.now part.now }
    requires all { OwnsAll part.now }
    requires named { length names.now ≡ run.now.vertices }
    ensures { IfOk result (λ r. AreAllAnswered (part_walk names.now (record { run = run.now; part = part.now })) files.now r.taken.items r.left.items) }
{
    let engine = PartEngine {
        names,
        here: WalkPart::of(run, part),
    };
    let rings = DeskRings::new(alloc, files.len() as u32, ROOM)?;
    ask_files::<R, Brand>(rt, alloc, rings, engine, files)
}

/// Writes the replies to the requests of 1 to 16 files, file by file in their order, once all good requests have been walked. Each
/// file has a client of its own at the desk through which its requests go. May wait for the desk's lock.
///
/// # Errors
///
/// `Failed` where a call on the sink failed, which has then taken a front of the replies. `Memory` where there is too little of it
/// before anything is written: about 100 bytes for each good request, and 4 for each entry that its walk may have.
pub fn write_replies<R: Wait, K: Sink>(
    rt: &R,
    alloc: Global,
    names: &Names,
    run: &Run,
    part: &PartRows,
    files: &[Vec<Option<Request>>],
    out: &mut K,
) -> Result<(), ReplyFault>
    requires count { (1 ≤ length files.now) × (length files.now ≤ 16) }
    requires short { AreAllShort files.now }
    requires suits { Suits run.now part.now }
    requires all { OwnsAll part.now }
    requires named { length names.now ≡ run.now.vertices }
    ensures whole { OnOk result (K.bytes out.new ≡ append_known (K.bytes out.old)
        (all_replies (part_walk names.now (record { run = run.now; part = part.now })) (lists_of files.now))) }
    ensures front { OnErr result (GainsFront (K.bytes out.old) (K.bytes out.new)
        (all_replies (part_walk names.now (record { run = run.now; part = part.now })) (lists_of files.now))) }
    ensures later { K.faults out.old ≤ K.faults out.new }
    ensures fault { IfErr result (IsReplyFault (K.faults out.old) (K.faults out.new)) }
{
    let answered = match answer_files(rt, alloc, names, run, part, files) {
        Ok(answered) => answered,
        Err(_) => return Err(ReplyFault::Memory),
    };
    let mut block = Block::new();
    match put_files(&mut block, out, files, &answered) {
        Ok(()) => {}
        Err(_) => return Err(ReplyFault::Failed),
    }
    match flush(&mut block, out) {
        Ok(()) => Ok(()),
        Err(_) => Err(ReplyFault::Failed),
    }
}
