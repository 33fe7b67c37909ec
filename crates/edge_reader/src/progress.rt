//! The lines of an edge list so far.

ghost use Rattle.std.specs.Prelude.{◌≡◌, ◌≤◌, ◌+◌, ◌-◌, ◌∷◌, [], ◌++◌, length, List, ℕ, Bool, ◌<◌, ◌^◌, true, Option, Some, Result, Ok, OnOk, IfOk, IfErr};
ghost use Rattle.walk_model.specs.declared.graph.Edge.{Edge};
ghost use Rattle.walk_model.specs.declared.faults.LineFault.{LineFault};
ghost use Rattle.edge_reader.specs.GraphFile.{after_line, edges_of, in_front, mirror, IsFault};
ghost use Rattle.edge_reader.specs.Unfinished.{line_with};
ghost use Rattle.edge_reader.specs.Taken.{edges_with};

use crate::unfinished::Line;
use std::alloc::Global;
use walk_model::{Edge, Limit, LineFault};

/// The edges so far, and where the reader stands.
#[derive(Drop)]
pub(crate) struct Progress {
    pub(crate) undirected: bool,
    /// The number of the line that hasn't ended.
    pub(crate) number: u64,
    /// How many edges may still come.
    pub(crate) room: u64,
    pub(crate) line: Line,
    pub(crate) edges: Vec<Edge>,
}

/// An edge turned round.
fn mirrored(edge: Edge) -> Edge
    ensures { result ≡ mirror edge }
{
    Edge {
        src: edge.dst,
        dst: edge.src,
        ..edge
    }
}

/// Adds the edges that a line's edge stands for, and answers how many more may still come.
fn add_edge(
    edges: &mut Vec<Edge>,
    undirected: bool,
    room: u64,
    edge: Edge,
) -> Result<u64, LineFault>
    ensures fits { OnOk result (length (edges_of undirected (Some edge)) ≤ room) }
    ensures added { OnOk result (edges.new.items ≡ edges.old.items ++ edges_of undirected (Some edge)) }
    ensures room { IfOk result (λ left. left ≡ room - length (edges_of undirected (Some edge))) }
    ensures fault { IfErr result (λ f. (number : ℕ) (later : ℕ → Result (List Edge) LineFault) →
        IsFault f (after_line undirected number room (Ok (Some edge)) later)) }
{
    let both = undirected && edge.src != edge.dst;
    let more = if both { 2 } else { 1 };
    if more > room {
        return Err(LineFault::Limit { what: Limit::Edges });
    }
    match edges.push(edge) {
        Ok(()) => {}
        Err(_) => return Err(LineFault::Memory),
    }
    if both {
        match edges.push(mirrored(edge)) {
            Ok(()) => {}
            Err(_) => return Err(LineFault::Memory),
        }
    }
    Ok(room - more)
}

impl Progress {
    /// Judges a line that ends here, and adds its edges.
    fn end_line(&mut self, line: &Line) -> Result<(), LineFault>
        requires { self.old.number < 2 ^ 62 }
        ensures number { self.new.number ≤ self.old.number + 1 }
        ensures next { OnOk result (self.new.number ≡ self.old.number + 1) }
        ensures undirected { OnOk result (self.new.undirected ≡ self.old.undirected) }
        ensures added { OnOk result ((later : ℕ → Result (List Edge) LineFault) →
            in_front self.old.edges.items (after_line self.old.undirected self.old.number self.old.room (line_with line.now []) later)
            ≡ in_front self.new.edges.items (later self.new.room)) }
        ensures fault { IfErr result (λ f. (es : List Edge) (later : ℕ → Result (List Edge) LineFault) →
            IsFault f (in_front es (after_line self.old.undirected self.old.number self.old.room (line_with line.now []) later))) }
    {
        match line.edge() {
            Err(why) => {
                return Err(LineFault::Bad {
                    line: self.number,
                    why,
                });
            }
            Ok(None) => {}
            Ok(Some(edge)) => match add_edge(&mut self.edges, self.undirected, self.room, edge) {
                Ok(room) => self.room = room,
                Err(fault) => return Err(fault),
            },
        }
        self.number += 1;
        Ok(())
    }

    /// Reads a piece of the text.
    pub(crate) fn read(&mut self, piece: &[u8]) -> Result<(), LineFault>
        requires { self.old.number + length piece.now < 2 ^ 62 }
        ensures number { self.new.number ≤ self.old.number + length piece.now }
        ensures read { OnOk result ((whole : Bool) (text : List ℕ) →
            edges_with whole self.old (piece.now ++ text) ≡ edges_with whole self.new text) }
        ensures fault { IfErr result (λ f. (whole : Bool) (text : List ℕ) →
            IsFault f (edges_with whole self.old (piece.now ++ text))) }
    {
        let mut line = self.line;
        let mut at = 0;
        'reading: while at < piece.len() {
            if piece[at] == b'\n' {
                match self.end_line(&line) {
                    Ok(()) => {}
                    Err(fault) => return Err(fault),
                }
                line = Line::start();
                at += 1;
            } else {
                at = line.take_from(piece, at);
            }
        }
        self.line = line;
        Ok(())
    }

    /// Judges the last line, which no line feed ends.
    pub(crate) fn end(&mut self) -> Result<(), LineFault>
        requires { self.old.number < 2 ^ 62 }
        ensures edges { OnOk result (edges_with true self.old [] ≡ Ok self.new.edges.items) }
        ensures fault { IfErr result (λ f. IsFault f (edges_with true self.old [])) }
    {
        let line = self.line;
        self.end_line(&line)
    }
}
