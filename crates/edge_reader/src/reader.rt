//! Edge lists in pieces.

ghost use Rattle.std.specs.Prelude.{◌+◌, ◌≤◌};

use crate::limits::ReadLimits;
use crate::progress::Progress;
use crate::unfinished::Line;
use std::alloc::Global;
use walk_model::{Edge, Limit, LineFault};

/// Reads an edge list that is fed in pieces, cut anywhere.
///
/// A line has two to four fields, parted by spaces or tabs: source, destination, weight and type. A missing weight
/// is 1 and a missing type is 0. Lines without fields are skipped, and so are those whose first field begins with
/// `#` or `%`. An id is at most 4294967295, a weight is from 1 to 4294967295, a type is at most 255.
///
/// No line is kept: what a line says is told from its bytes as they come.
#[derive(Drop)]
pub struct EdgeReader {
    progress: Progress,
    /// How many bytes may still come.
    left: u64,
    fault: Option<LineFault>,
    ghost few_lines: { progress.number + left ≤ 1073741825 },
}

impl EdgeReader {
    ghost use Rattle.std.specs.Prelude.{◌≡◌, ◌≢◌, ◌≤◌, ◌+◌, ◌++◌, [], List, ℕ, Bool, length, All, Option, Some, None, Result, Ok, Err, OnOk, IfOk, IfErr};
    ghost use Rattle.walk_model.specs.declared.faults.LineFault.{LineFault};
    ghost use Rattle.edge_reader.specs.declared.limits.ReadLimits.{ReadLimits};
    ghost use Rattle.edge_reader.specs.GraphFile.{graph_of, graph_so_far, IsFault};
    ghost use Rattle.edge_reader.specs.Taken.{Took, Tells, met, within};

    /// A reader that has taken nothing, and takes no memory yet.
    ///
    /// With `undirected`, an edge whose ends differ is followed by its mirror. At most 1073741824 bytes and
    /// 16777216 edges may be asked for.
    pub fn new(alloc: Global, undirected: bool, limits: ReadLimits) -> EdgeReader
        requires bytes { limits.bytes ≤ 1073741824 }
        requires edges { limits.edges ≤ 16777216 }
        ensures took { Took undirected limits [] result }
        ensures met { met result ≡ None }
    {
        EdgeReader {
            progress: Progress {
                undirected,
                number: 1,
                room: limits.edges,
                line: Line::start(),
                edges: Vec::new(alloc),
            },
            left: limits.bytes,
            fault: None,
        }
    }

    /// Reads a piece, or as much of it as may still come.
    fn read(&mut self, piece: &[u8]) -> Result<(), LineFault>
        ensures same { self.new.fault ≡ self.old.fault }
        ensures taken { OnOk result ((whole : Bool) (text : List ℕ) →
            within self.old.left whole self.old.progress (piece.now ++ text) ≡ within self.new.left whole self.new.progress text) }
        ensures fault { IfErr result (λ f. (whole : Bool) (text : List ℕ) →
            IsFault f (within self.old.left whole self.old.progress (piece.now ++ text))) }
    {
        if piece.len() as u64 <= self.left {
            self.left -= piece.len() as u64;
            return self.progress.read(piece);
        }
        let left = self.left as usize;
        self.left = 0;
        match self.progress.read(&piece[..left]) {
            Ok(()) => Err(LineFault::Limit {
                what: Limit::GraphBytes,
            }),
            Err(fault) => Err(fault),
        }
    }

    /// Takes the next piece of the text.
    ///
    /// # Errors
    ///
    /// The first fault of the lines that have ended so far and of the limits. Lines are numbered from 1. A byte
    /// beyond the limit comes before another fault at the same byte. After a fault each call answers that same fault.
    pub fn feed(&mut self, piece: &[u8]) -> Result<(), LineFault>
        ensures took { (undirected : Bool) (limits : ReadLimits) (input : List ℕ) → Took undirected limits input self.old →
            result ≢ Err LineFault.Memory → Took undirected limits (input ++ piece.now) self.new }
        ensures so_far { (undirected : Bool) (limits : ReadLimits) (input : List ℕ) → Took undirected limits input self.old →
            Tells result (graph_so_far undirected limits (input ++ piece.now)) }
        ensures fault { (undirected : Bool) (limits : ReadLimits) (input : List ℕ) → Took undirected limits input self.old →
            IfErr result (λ f. (rest : List ℕ) → IsFault f (graph_of undirected limits (input ++ piece.now ++ rest))) }

        ensures none { OnOk result (met self.new ≡ None) }
        ensures met { IfErr result (λ f. met self.new ≡ Some f) }
        ensures stays { (f : LineFault) → met self.old ≡ Some f → result ≡ Err f }
    {
        match self.fault {
            Some(fault) => return Err(fault),
            None => {}
        }
        match self.read(piece) {
            Ok(()) => Ok(()),
            Err(fault) => {
                self.fault = Some(fault);
                Err(fault)
            }
        }
    }

    /// The edges of the whole text, in its order.
    ///
    /// # Errors
    ///
    /// The first fault of the whole text, its last line included.
    pub fn finish(self) -> Result<Vec<Edge>, LineFault>
        ensures edges { (undirected : Bool) (limits : ReadLimits) (input : List ℕ) → Took undirected limits input self →
            IfOk result (λ v. graph_of undirected limits input ≡ Ok v.items) }
        ensures fault { (undirected : Bool) (limits : ReadLimits) (input : List ℕ) → Took undirected limits input self →
            IfErr result (λ f. IsFault f (graph_of undirected limits input)) }
        ensures stays { (f : LineFault) → met self ≡ Some f → result ≡ Err f }

        ensures few { (undirected : Bool) (limits : ReadLimits) (input : List ℕ) → Took undirected limits input self →
            IfOk result (λ v. length v.items ≤ limits.edges) }
        ensures weights { (undirected : Bool) (limits : ReadLimits) (input : List ℕ) → Took undirected limits input self →
            IfOk result (λ v. All (λ e. (1 ≤ e.weight) × (e.weight ≤ 4294967295)) v.items) }
    {
        let EdgeReader {
            mut progress,
            left: _,
            fault,
        } = self;
        match fault {
            Some(fault) => return Err(fault),
            None => {}
        }
        match progress.end() {
            Ok(()) => Ok(progress.edges),
            Err(fault) => Err(fault),
        }
    }
}
