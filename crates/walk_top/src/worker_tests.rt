//! Walks by several workers: the same bytes, side by side.

use crate::carried_tests::expect_plain_carried;
use crate::tests::{Answer, CYCLE, WALKS, add_file, answer_into, files_of, programme_of};
use crate::walk_tests::{Line, PLANS, plain_lines, shortened};
use graph_maker::make;
use shard_core::Item;
use std::alloc::Global;
use std::process::Abort;
use std::sync::atomic::{AtomicU64, Ordering};
use std::test::Fail;
use std::thread;
use std::thread::Threads;
use walk_io::{MemoryFiles, MemorySink};
use walk_model::{Edge, Memory};
use walk_programme::read_plan;
use walker_mail::{Gate, InOrder, NoGate};

/// A graph of five vertices.
const FIVE: [Line; 9] = [
    (3, 8, 2, 0),
    (8, 70, 3, 1),
    (70, 900, 1, 0),
    (900, 12, 4, 1),
    (12, 3, 2, 0),
    (3, 70, 5, 1),
    (70, 3, 1, 0),
    (900, 8, 6, 1),
    (8, 8, 2, 0),
];

/// Asserts that the walks of each plan in three parts are those of the definition, by one worker and by so many.
fn expect_all_plans<R: Abort + Threads + Sync + AllocGlobal>(
    rt: &R,
    workers: u32,
) -> Result<(), Fail> {
    for programme in PLANS {
        let short = shortened(rt.alloc(), programme, 3)?;
        expect_plain_carried(rt, &FIVE, short.as_str(), &[3], &[workers])?;
    }
    Ok(())
}

// Workers meet at each letter that a carrier hands over alone, so each number of them has a test of its own.

#[test]
fn two_workers_change_no_byte(rt: HostRuntime) -> Result<(), Fail> {
    expect_all_plans(&rt, 2)
}

#[test]
fn three_workers_change_no_byte(rt: HostRuntime) -> Result<(), Fail> {
    expect_all_plans(&rt, 3)
}

#[test]
fn seven_workers_change_no_byte(rt: HostRuntime) -> Result<(), Fail> {
    expect_all_plans(&rt, 7)
}

/// More workers than parts, more parts than vertices, and the most of both.
#[test]
fn the_most_workers_and_parts(rt: HostRuntime) -> Result<(), Fail> {
    for programme in [
        "length = 5; undirected = true; scheme = [0, 1]",
        "length = 5; undirected = true; retries = 0; p = '1/2'; q = '2'",
    ] {
        expect_plain_carried(&rt, &FIVE, programme, &[2, 256], &[5, 16])?;
    }
    Ok(())
}

/// The most turns of the loop in which a worker waits for the other.
const TURNS: u32 = 200_000_000;

/// Holds the first entry of worker 0 until worker 1 has entered, and that of worker 1 until worker 0 has. It notes whether one of
/// them gave up.
#[derive(Drop)]
struct Meeting {
    entered: [AtomicU64; 2],
    gave_up: AtomicU64,
}

impl Gate for Meeting {
    fn enter(&self, worker: u32, turn: u64) {
        if worker > 1 || turn != 1 {
            return;
        }
        self.entered[worker as usize].store(1, Ordering::SeqCst);
        for _ in 0..TURNS {
            if self.entered[1 - worker as usize].load(Ordering::SeqCst) == 1 {
                return;
            }
            thread::yield_now();
        }
        self.gave_up.store(1, Ordering::SeqCst);
    }
}

/// The call on words and files through a gate, with room for so many bytes of output.
fn answer_at<R: Threads + Sync + AllocGlobal, G: Gate + Sync>(
    rt: &R,
    words: &[&str],
    files: &mut MemoryFiles,
    room: usize,
    gate: &G,
) -> Result<Answer, Memory> {
    let alloc = rt.alloc();
    let out = MemorySink::new(alloc, room, Vec::new(alloc), 65536)?;
    let err = MemorySink::new(alloc, 4096, Vec::new(alloc), 4096)?;
    let mut carrier: InOrder<Item> = InOrder::new(alloc);
    answer_into(rt, words, files, out, err, &mut carrier, gate)
}

/// As many workers walk side by side as the words ask for.
#[test]
fn workers_walk_side_by_side(rt: HostRuntime) -> Result<(), Fail> {
    let alloc = rt.alloc();
    let gate = Meeting {
        entered: [AtomicU64::new(0), AtomicU64::new(0)],
        gave_up: AtomicU64::new(0),
    };
    let mut files = files_of(alloc, "g", CYCLE, &[], 65536)?;
    add_file(alloc, &mut files, "p", "length = 3")?;
    let words = ["walk", "g", "p", "--seed=7", "--parts=2", "--workers=2"];
    let answer = answer_at(&rt, &words, &mut files, 4096, &gate)?;
    assert_eq!(rt; answer.status, 0);
    assert_eq!(rt; answer.out.bytes.as_slice(), WALKS.as_bytes());
    assert_eq!(rt; gate.gave_up.load(Ordering::SeqCst), 0);
    Ok(())
}

/// The ends of edges, with a tab between the two, below three lines of comments.
fn text_of_ends(alloc: Global, edges: &[Edge]) -> Result<String, Memory> {
    let mut text = String::from_str(alloc, "# A made graph\n#\n# source\tdestination\n")?;
    for edge in edges {
        let (src, dst) = (edge.src, edge.dst);
        let line = format!(in alloc; "{src}\t{dst}\n")?;
        text.push_str(line.as_str())?;
    }
    Ok(text)
}

/// The edges that such a text has: with these ends, of weight 1 and type 0.
fn bare(alloc: Global, edges: &[Edge]) -> Result<Vec<Edge>, Memory> {
    let mut bare = Vec::new(alloc);
    for edge in edges {
        bare.push(Edge {
            src: edge.src,
            dst: edge.dst,
            weight: 1,
            kind: 0,
        })?;
    }
    Ok(bare)
}

/// Asserts that a text has so many lines, and each so many ids.
fn expect_lines<R: Abort>(rt: &R, text: &[u8], lines: usize, ids: usize) {
    let mut seen = 0usize;
    let mut here = 1usize;
    for byte in text {
        if *byte == b' ' {
            here = here.saturating_add(1);
        }
        if *byte == b'\n' {
            assert_eq!(rt; here, ids);
            here = 1;
            seen = seen.saturating_add(1);
        }
    }
    assert_eq!(rt; seen, lines);
}

#[test]
fn a_realistic_file(rt: HostRuntime) -> Result<(), Fail> {
    let alloc = rt.alloc();
    let edges = make(alloc, 500, 10, 7)?;
    let graph = text_of_ends(alloc, &edges)?;
    let programme = programme_of(alloc, "length = 80; p = '0.5'; q = '2'")?;
    let mut files = files_of(alloc, "g", graph.as_str(), &[], 65536)?;
    add_file(alloc, &mut files, "p", programme.as_str())?;
    let words = ["walk", "g", "p", "--seed=7", "--parts=8", "--workers=4"];
    let answer = answer_at(&rt, &words, &mut files, 262144, &NoGate)?;
    assert_eq!(rt; answer.status, 0);
    let out = answer.out.bytes.as_slice();
    expect_lines(&rt, out, 500, 81);
    assert!(rt; programme.len() <= 65536);
    let Ok(plan) = read_plan(alloc, programme.as_bytes()) else {
        return Err(Fail::new("a programme that can't be read"));
    };
    let want = plain_lines(alloc, &bare(alloc, &edges)?, &plan, 20)?;
    assert!(rt; out.starts_with(want.as_bytes()));
    Ok(())
}
