//! Pieces of lines, which go to a sink block by block.

ghost use Rattle.std.specs.Prelude.{◌≡◌, ◌≤◌, ◌+◌, ◌++◌, ◌∷◌, [], length, decimal, OnOk, OnErr};
ghost use Rattle.std.specs.Io.KnownBytes.{append_known};
ghost use Rattle.walk_io.specs.Causes.{Rose};
ghost use Rattle.path_writer.specs.Gains.{GainsFront, GainsBut};

use crate::block::{Block, ROOM};
use crate::writing::write_all;
use walk_io::{Failed, Sink};

/// Writes all that waits.
pub fn flush<K: Sink>(block: &mut Block, out: &mut K) -> Result<(), Failed>
    ensures empty { OnOk result (block.new ≡ []) }
    ensures whole { OnOk result (K.bytes out.new ≡ append_known (K.bytes out.old) block.old) }
    ensures front { OnErr result (GainsFront (K.bytes out.old) (K.bytes out.new) block.old) }
    ensures later { K.faults out.old ≤ K.faults out.new }
    ensures failed { OnErr result (Rose (K.faults out.old) (K.faults out.new)) }
{
    match write_all(out, block.as_slice()) {
        Ok(()) => {
            block.clear();
            Ok(())
        }
        Err(failed) => Err(failed),
    }
}

/// Makes room for so many bytes more, by writing all that waits if need be.
#[inline(always)]
fn make_room<K: Sink>(block: &mut Block, out: &mut K, count: usize) -> Result<(), Failed>
    requires { count ≤ 65536 }
    ensures room { OnOk result (length block.new + count ≤ 65536) }
    ensures whole { OnOk result (GainsBut (K.bytes out.old) (K.bytes out.new) block.old block.new) }
    ensures front { OnErr result (GainsFront (K.bytes out.old) (K.bytes out.new) block.old) }
    ensures later { K.faults out.old ≤ K.faults out.new }
    ensures failed { OnErr result (Rose (K.faults out.old) (K.faults out.new)) }
{
    if count <= ROOM - block.len() {
        return Ok(());
    }
    flush(block, out)
}

/// Adds a byte.
pub fn put_byte<K: Sink>(block: &mut Block, out: &mut K, byte: u8) -> Result<(), Failed>
    ensures whole { OnOk result (GainsBut (K.bytes out.old) (K.bytes out.new) (block.old ++ byte ∷ []) block.new) }
    ensures front { OnErr result (GainsFront (K.bytes out.old) (K.bytes out.new) (block.old ++ byte ∷ [])) }
    ensures later { K.faults out.old ≤ K.faults out.new }
    ensures failed { OnErr result (Rose (K.faults out.old) (K.faults out.new)) }
{
    match make_room(block, out, 1) {
        Ok(()) => {
            block.push_byte(byte);
            Ok(())
        }
        Err(failed) => Err(failed),
    }
}

/// Adds a number.
pub fn put_number<K: Sink>(block: &mut Block, out: &mut K, number: u32) -> Result<(), Failed>
    ensures whole { OnOk result (GainsBut (K.bytes out.old) (K.bytes out.new) (block.old ++ decimal number) block.new) }
    ensures front { OnErr result (GainsFront (K.bytes out.old) (K.bytes out.new) (block.old ++ decimal number)) }
    ensures later { K.faults out.old ≤ K.faults out.new }
    ensures failed { OnErr result (Rose (K.faults out.old) (K.faults out.new)) }
{
    match make_room(block, out, 10) {
        Ok(()) => {
            block.push_number(number);
            Ok(())
        }
        Err(failed) => Err(failed),
    }
}

/// Adds a space and a number.
#[inline(always)]
pub(crate) fn put_spaced<K: Sink>(block: &mut Block, out: &mut K, number: u32) -> Result<(), Failed>
    ensures whole { OnOk result (GainsBut (K.bytes out.old) (K.bytes out.new) (block.old ++ 32 ∷ decimal number) block.new) }
    ensures front { OnErr result (GainsFront (K.bytes out.old) (K.bytes out.new) (block.old ++ 32 ∷ decimal number)) }
    ensures later { K.faults out.old ≤ K.faults out.new }
    ensures failed { OnErr result (Rose (K.faults out.old) (K.faults out.new)) }
{
    match make_room(block, out, 11) {
        Ok(()) => {
            block.push_byte(b' ');
            block.push_number(number);
            Ok(())
        }
        Err(failed) => Err(failed),
    }
}
