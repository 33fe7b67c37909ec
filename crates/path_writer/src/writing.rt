//! Whole texts.

ghost use Rattle.std.specs.Prelude.{◌≡◌, ◌≤◌, OnOk, OnErr};
ghost use Rattle.std.specs.Io.KnownBytes.{append_known};
ghost use Rattle.walk_io.specs.Causes.{Rose};
ghost use Rattle.path_writer.specs.Gains.{GainsFront};

use walk_io::{Failed, Sink};

/// Writes a whole text, as far as the sink takes it.
///
/// # Errors
///
/// `Failed` where a call on the sink failed. The sink has then taken a front of the text.
pub fn write_all<K: Sink>(sink: &mut K, text: &[u8]) -> Result<(), Failed>
    ensures whole { OnOk result (K.bytes sink.new ≡ append_known (K.bytes sink.old) text.now) }
    ensures front { OnErr result (GainsFront (K.bytes sink.old) (K.bytes sink.new) text.now) }
    ensures later { K.faults sink.old ≤ K.faults sink.new }
    ensures failed { OnErr result (Rose (K.faults sink.old) (K.faults sink.new)) }
{
    let mut done = 0usize;
    'writing: while done < text.len() {
        match sink.write(&text[done..]) {
            Ok(count) => done += count,
            Err(failed) => return Err(failed),
        }
    }
    Ok(())
}
