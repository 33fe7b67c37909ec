//! Walks, one after another.

ghost use Rattle.std.specs.Prelude.{◌≡◌, ◌≤◌, ◌<◌, ◌++◌, length, take, map, slice_index, All, OnOk, OnErr};
ghost use Rattle.std.specs.List.{concat};
ghost use Rattle.std.specs.Io.KnownBytes.{append_known};
ghost use Rattle.walk_io.specs.Causes.{Rose};
ghost use Rattle.walk_model.specs.Text.{text, line};
ghost use Rattle.path_writer.specs.Gains.{GainsFront, GainsBut};
ghost use Rattle.path_writer.specs.Named.{spaced, later, entries, named, AreNamed};

use crate::block::Block;
use crate::filling::{flush, put_byte, put_number, put_spaced};
use vertex_names::Names;
use walk_io::{Failed, Sink};
use walk_model::Finished;

/// Not all could be written.
#[derive(Clone, Copy, Debug, PartialEq, Eq)]
pub struct WriteFault;

/// How many ids are looked up before any of them is put. The look-ups are then under way at once,
/// however far apart the ids lie.
const AHEAD: usize = 16;

/// Looks up the ids of some ranks, to the front of a list.
fn look_up(names: &Names, ranks: &[u32], ids: &mut [u32; AHEAD])
    requires named { All (λ r. r < length names.now) ranks.now }
    requires few { length ranks.now ≤ 16 }
    ensures { take (length ranks.now) ids.new ≡ map (slice_index names.now) ranks.now }
{
    for (i, rank) in ranks.iter().enumerate() {
        ids[i] = names.id(*rank);
    }
}

/// Adds a space and an id for each of some ids.
pub fn put_ids<K: Sink>(block: &mut Block, out: &mut K, ids: &[u32]) -> Result<(), Failed>
    ensures whole { OnOk result (GainsBut (K.bytes out.old) (K.bytes out.new) (block.old ++ concat (map spaced ids.now)) block.new) }
    ensures front { OnErr result (GainsFront (K.bytes out.old) (K.bytes out.new) (block.old ++ concat (map spaced ids.now))) }
    ensures later { K.faults out.old ≤ K.faults out.new }
    ensures failed { OnErr result (Rose (K.faults out.old) (K.faults out.new)) }
{
    for id in ids {
        match put_spaced(block, out, *id) {
            Ok(()) => {}
            Err(failed) => return Err(failed),
        }
    }
    Ok(())
}

/// Adds the entries of a walk after its first.
fn put_later<K: Sink>(
    block: &mut Block,
    out: &mut K,
    names: &Names,
    ranks: &[u32],
) -> Result<(), Failed>
    requires { All (λ r. r < length names.now) ranks.now }
    ensures whole { OnOk result (GainsBut (K.bytes out.old) (K.bytes out.new) (block.old ++ later names.now ranks.now) block.new) }
    ensures front { OnErr result (GainsFront (K.bytes out.old) (K.bytes out.new) (block.old ++ later names.now ranks.now)) }
    ensures later { K.faults out.old ≤ K.faults out.new }
    ensures failed { OnErr result (Rose (K.faults out.old) (K.faults out.new)) }
{
    let mut ids = [0u32; AHEAD];
    let mut done = 0usize;
    'putting: while done < ranks.len() {
        let count = AHEAD.min(ranks.len() - done);
        look_up(names, &ranks[done..done + count], &mut ids);
        match put_ids(block, out, &ids[..count]) {
            Ok(()) => done += count,
            Err(failed) => return Err(failed),
        }
    }
    Ok(())
}

/// Adds the entries of a walk with one space between.
fn put_entries<K: Sink>(
    block: &mut Block,
    out: &mut K,
    names: &Names,
    walk: &[u32],
) -> Result<(), Failed>
    requires { All (λ r. r < length names.now) walk.now }
    ensures whole { OnOk result (GainsBut (K.bytes out.old) (K.bytes out.new) (block.old ++ entries names.now walk.now) block.new) }
    ensures front { OnErr result (GainsFront (K.bytes out.old) (K.bytes out.new) (block.old ++ entries names.now walk.now)) }
    ensures later { K.faults out.old ≤ K.faults out.new }
    ensures failed { OnErr result (Rose (K.faults out.old) (K.faults out.new)) }
{
    let [first, rest @ ..] = walk else {
        return Ok(());
    };
    match put_number(block, out, names.id(*first)) {
        Ok(()) => put_later(block, out, names, rest),
        Err(failed) => Err(failed),
    }
}

/// Adds the line of a walk.
fn put_walk<K: Sink>(
    block: &mut Block,
    out: &mut K,
    names: &Names,
    walk: &[u32],
) -> Result<(), Failed>
    requires { All (λ r. r < length names.now) walk.now }
    ensures whole { OnOk result (GainsBut (K.bytes out.old) (K.bytes out.new) (block.old ++ line (map (slice_index names.now) walk.now)) block.new) }
    ensures front { OnErr result (GainsFront (K.bytes out.old) (K.bytes out.new) (block.old ++ line (map (slice_index names.now) walk.now))) }
    ensures later { K.faults out.old ≤ K.faults out.new }
    ensures failed { OnErr result (Rose (K.faults out.old) (K.faults out.new)) }
{
    match put_entries(block, out, names, walk) {
        Ok(()) => put_byte(block, out, b'\n'),
        Err(failed) => Err(failed),
    }
}

/// Adds the lines of all walks.
fn put_walks<K: Sink>(
    block: &mut Block,
    out: &mut K,
    names: &Names,
    finished: &Finished,
) -> Result<(), Failed>
    requires { AreNamed names.now finished.now }
    ensures whole { OnOk result (GainsBut (K.bytes out.old) (K.bytes out.new) (block.old ++ text (named names.now finished.now)) block.new) }
    ensures front { OnErr result (GainsFront (K.bytes out.old) (K.bytes out.new) (block.old ++ text (named names.now finished.now))) }
    ensures later { K.faults out.old ≤ K.faults out.new }
    ensures failed { OnErr result (Rose (K.faults out.old) (K.faults out.new)) }
{
    for i in 0..finished.count() {
        match put_walk(block, out, names, finished.walk(i)) {
            Ok(()) => {}
            Err(failed) => return Err(failed),
        }
    }
    Ok(())
}

/// Writes a line for each walk, in the order of the walks: the ids of its entries in decimal, with
/// one space between. It takes no memory, and makes a call on the sink for each block of bytes.
///
/// # Errors
///
/// `WriteFault` where a call on the sink failed. The sink has then taken a front of the text.
pub fn write_walks<K: Sink>(
    finished: &Finished,
    names: &Names,
    out: &mut K,
) -> Result<(), WriteFault>
    requires named { AreNamed names.now finished.now }
    ensures whole { OnOk result (K.bytes out.new ≡ append_known (K.bytes out.old) (text (named names.now finished.now))) }
    ensures front { OnErr result (GainsFront (K.bytes out.old) (K.bytes out.new) (text (named names.now finished.now))) }
    ensures later { K.faults out.old ≤ K.faults out.new }
    ensures failed { OnErr result (Rose (K.faults out.old) (K.faults out.new)) }
{
    let mut block = Block::new();
    match put_walks(&mut block, out, names, finished) {
        Ok(()) => {}
        Err(_) => return Err(WriteFault),
    }
    match flush(&mut block, out) {
        Ok(()) => Ok(()),
        Err(_) => Err(WriteFault),
    }
}
