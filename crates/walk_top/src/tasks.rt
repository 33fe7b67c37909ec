//! What is done for a command once its graph is ready.

ghost use Rattle.std.specs.Prelude.{◌≡◌, ◌≤◌, ◌^◌, [], List, OnOk, OnErr, IfErr};
ghost use Rattle.std.specs.Io.KnownBytes.{append_known};
ghost use Rattle.walk_model.specs.declared.graph.Edge.{Edge};
ghost use Rattle.walk_model.specs.Settings.{Settings};
ghost use Rattle.path_writer.specs.Gains.{GainsFront};
ghost use Rattle.walk_top.specs.Carriage.{CarriesTask};
ghost use Rattle.walk_top.specs.JobViews.{IsInRange, job_of};
ghost use Rattle.walk_top.specs.Jobs.{parts_of};
ghost use Rattle.walk_top.specs.Outputs.{output};
ghost use Rattle.walk_top.specs.ReadyTasks.{IsReadyTask, task_of_words};
ghost use Rattle.walk_top.specs.WriteFaults.{IsWriteFault, OnceWalked};

use crate::readying::Ready;
use crate::reporting::walk_and_report;
use crate::walking::{WriteFault, walk_and_write};
use crate::words::Words;
use shard_core::Item;
use std::thread::Threads;
use walk_io::Sink;
use walker_mail::{Carrier, Gate};

/// Takes the walks of a command on its graph, and writes what it asks for.
pub(crate) fn do_task<R: Threads + Sync + AllocGlobal, K: Sink, C: Carrier<Item>, G: Gate + Sync>(
    rt: &R,
    out: &mut K,
    words: &Words<'_>,
    ready: Ready,
    carrier: &mut C,
    gate: &G,
) -> Result<(), WriteFault>
    requires range { IsInRange words.now }
    requires ready { (plan : Settings) × (edges : List Edge) × IsReadyTask words.now plan edges ready }
    requires held { C.held carrier.old ≡ [] }
    requires count { C.carried carrier.old ≤ 2 ^ 63 }
    ensures whole { (plan : Settings) (edges : List Edge) → IsReadyTask words.now plan edges ready
        → OnOk result (K.bytes out.new ≡ append_known (K.bytes out.old) (output (task_of_words words.now plan edges))) }
    ensures front { (plan : Settings) (edges : List Edge) → IsReadyTask words.now plan edges ready
        → OnErr result (GainsFront (K.bytes out.old) (K.bytes out.new) (output (task_of_words words.now plan edges))) }
    ensures later { K.faults out.old ≤ K.faults out.new }
    ensures fault { IfErr result (IsWriteFault (K.faults out.old) (K.faults out.new)) }
    ensures carried { (plan : Settings) (edges : List Edge) → IsReadyTask words.now plan edges ready
        → OnceWalked result (CarriesTask (task_of_words words.now plan edges) (C.carried carrier.old) (C.carried carrier.new) (C.log carrier.old) (C.log carrier.new)) }
    ensures empty { OnceWalked result (C.held carrier.new ≡ []) }
    ensures alone { parts_of (job_of words.now) ≡ 1 → carrier.new ≡ carrier.old }
{
    if words.asks_report() {
        return walk_and_report(rt, out, ready, words.workers(), carrier, gate);
    }
    walk_and_write(rt, out, ready, words.workers(), carrier, gate)
}
