//! A graph that is ready and undivided.

ghost use Rattle.std.specs.Prelude.{◌≡◌, ℕ, List, length};
ghost use Rattle.walk_model.specs.declared.graph.Edge.{Edge};
ghost use Rattle.walk_model.specs.Settings.{Settings};
ghost use Rattle.walk_top.specs.Readiness.{IsReadyFor};
ghost use Rattle.walk_top.specs.UndividedReadiness.{IsUndividedFor};

use crate::readying::Ready;
use traveller::Run;
use vertex_names::Names;
use vertex_partition::PartRows;

/// A graph that is ready to be walked on one part, which has all its rows: the names of its vertices, what its walkers do, and
/// that part.
#[derive(Drop)]
pub(crate) struct Undivided {
    pub names: Names,
    pub run: Run,
    pub part: PartRows,
}

/// A graph that was made ready in one part.
pub(crate) fn make_undivided(ready: Ready) -> Undivided
    requires { length ready.parts.items ≡ 1 }
    ensures { (edges : List Edge) (plan : Settings) (seed : ℕ) → IsReadyFor edges plan seed 1 ready → IsUndividedFor edges plan seed result }
{
    let Ready {
        names,
        run,
        parts,
        ..
    } = ready;
    let mut parts = parts;
    let part = parts.remove(0);
    Undivided { names, run, part }
}
