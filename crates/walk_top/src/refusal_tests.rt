//! Refusals of `walk` by example, and which of two comes first.

use crate::tests::{
    CYCLE, add_file, answer_on, answer_to_failing, expect_walk, files_of, programme_of, words_of,
};
use crate::top;
use shard_core::Item;
use std::alloc::{AllocError, Global};
use std::process::Abort;
use std::test::Fail;
use std::thread::Threads;
use walk_io::MemorySink;
use walk_model::Memory;
use walker_mail::{InOrder, NoGate};

/// A piece so many times, one after the other.
fn repeated(alloc: Global, piece: &str, times: u32) -> Result<String, AllocError> {
    let mut text = String::new(alloc);
    for _ in 0..times {
        text.push_str(piece)?;
    }
    Ok(text)
}

#[test]
fn programmes_are_refused(rt: HostRuntime) -> Result<(), Fail> {
    for (programme, line) in [
        ("", "error: programme: missing length\n"),
        ("foo = 1", "error: programme: unknown key foo\n"),
        ("length = 3; p = 0.5", "error: programme: bad value p\n"),
        (
            "length = 3; scheme = [1]; q = '1'",
            "error: programme: clash scheme\n",
        ),
        ("length = 3; from = 1", "error: programme: clash from\n"),
        ("length = ", "error: programme: text\n"),
        // the least unknown key, each of whose bytes that can't be printed is a question mark
        (
            "z = 1; \"\\u007fé\" = 1; length = 3",
            "error: programme: unknown key z\n",
        ),
        (
            "\"\\u007fé\" = 1; length = 3",
            "error: programme: unknown key ???\n",
        ),
        // a fault of the text before an unknown key, that before a bad value, and that before a clash
        ("b = 1; length = x", "error: programme: text\n"),
        ("b = 1; length = 'x'", "error: programme: unknown key b\n"),
        ("from = 'x'", "error: programme: missing length\n"),
        (
            "length = 3; from = 1; retries = 1001",
            "error: programme: bad value retries\n",
        ),
    ] {
        expect_walk(&rt, CYCLE, programme, 3, "", line)?;
    }
    Ok(())
}

#[test]
fn programmes_may_be_so_long(rt: HostRuntime) -> Result<(), Fail> {
    let alloc = rt.alloc();
    // the line end of a programme's last line is its last byte
    let most = repeated(alloc, "#", 65535)?;
    expect_walk(
        &rt,
        CYCLE,
        most.as_str(),
        3,
        "",
        "error: programme: missing length\n",
    )?;
    let more = repeated(alloc, "#", 65536)?;
    expect_walk(
        &rt,
        CYCLE,
        more.as_str(),
        5,
        "",
        "error: limit: programme bytes\n",
    )?;
    Ok(())
}

/// Too many path entries come after a bad line, and before a start that is missing and an overflow.
#[test]
fn too_many_entries_are_refused(rt: HostRuntime) -> Result<(), Fail> {
    let entries = "length = 1048576; walkers = 128";
    let without_start = "length = 1048576; walkers = 128; from = 7";
    let line = "error: limit: path entries\n";
    let heavy = repeated(rt.alloc(), "0 1 4294967295\n", 32769)?;
    expect_walk(&rt, "0 1\n1 x\n", entries, 4, "", "error: line 2: number\n")?;
    for (graph, programme) in [
        (CYCLE, entries),
        ("", entries),
        (CYCLE, without_start),
        (heavy.as_str(), without_start),
    ] {
        expect_walk(&rt, graph, programme, 5, "", line)?;
    }
    Ok(())
}

/// A start that is missing comes before an overflow.
#[test]
fn missing_starts_and_overflows_are_refused(rt: HostRuntime) -> Result<(), Fail> {
    let heavy = repeated(rt.alloc(), "0 1 4294967295\n", 32769)?;
    let heavy = heavy.as_str();
    for (graph, programme, status, line) in [
        (
            heavy,
            "length = 1; walkers = 1; from = 7",
            5,
            "error: no start 7\n",
        ),
        (heavy, "length = 1", 5, "error: overflow at vertex 0\n"),
        (
            heavy,
            "length = 1; undirected = true",
            5,
            "error: overflow at vertex 0\n",
        ),
        ("", "length = 3; walkers = 1", 5, "error: no start\n"),
        (
            "",
            "length = 3; walkers = 1; from = 0",
            5,
            "error: no start 0\n",
        ),
        (
            "",
            "length = 3; walkers = 0; from = 0",
            5,
            "error: no start 0\n",
        ),
        (
            CYCLE,
            "length = 2; walkers = 2; from = 7",
            5,
            "error: no start 7\n",
        ),
    ] {
        expect_walk(&rt, graph, programme, status, "", line)?;
    }
    Ok(())
}

#[test]
fn weights_up_to_the_overflow(rt: HostRuntime) -> Result<(), Fail> {
    let alloc = rt.alloc();
    let most = repeated(alloc, "0 1 4294967295\n", 32768)?;
    expect_walk(&rt, most.as_str(), "length = 1", 0, "0 1\n1\n", "")?;
    let more = repeated(alloc, "0 1 4294967295\n", 32769)?;
    // each edge weighs 1 where the walk isn't weighted
    let plain = "length = 1; weighted = false";
    expect_walk(&rt, more.as_str(), plain, 0, "0 1\n1\n", "")?;
    // the least id at which a step could overflow, which isn't the first in the file
    let mut both = repeated(alloc, "9 1 4294967295\n", 32769)?;
    let four = repeated(alloc, "4 1 4294967295\n", 32769)?;
    both.push_str(four.as_str())?;
    expect_walk(
        &rt,
        both.as_str(),
        "length = 1",
        5,
        "",
        "error: overflow at vertex 4\n",
    )?;
    Ok(())
}

/// Asserts what words of `walk` answer on a graph and a programme, where the read calls in the list fail.
fn expect_refusal<R: Abort + Threads + Sync + AllocGlobal>(
    rt: &R,
    words: &str,
    graph: &str,
    lines: &str,
    fails: &[u64],
    status: u8,
    line: &str,
) -> Result<(), Memory> {
    let alloc = rt.alloc();
    let programme = programme_of(alloc, lines)?;
    let mut files = files_of(alloc, "g", graph, fails, 4096)?;
    add_file(alloc, &mut files, "p", programme.as_str())?;
    let mut list = Vec::new(alloc);
    for word in words.split(' ') {
        list.push(word)?;
    }
    let answer = answer_on(rt, &list, &mut files, &[], 4096)?;
    assert!(rt; answer.status == status, "{words} on {lines}");
    assert!(rt; answer.out.bytes.is_empty(), "{words} on {lines}");
    assert!(rt;
        answer.err.bytes.as_slice() == line.as_bytes(),
        "{words} on {lines}"
    );
    Ok(())
}

#[test]
fn words_are_refused(rt: HostRuntime) -> Result<(), Fail> {
    for words in [
        "walk g",
        "walk g p",
        "walk g p --seed 1 --seed 2",
        "walk g p --seed 1 --parts 0",
        "walk - - --seed 1",
        "walk g p q --seed 1",
        "run g",
        "make",
        "make 0 1 0",
        "make 1 65 0",
        "make 1 1 0 0",
        "make 1 1 --seed 0",
        // before a programme and a graph that aren't there
        "walk a b --seed x",
    ] {
        expect_refusal(&rt, words, CYCLE, "length = 3", &[], 2, "error: words\n")?;
    }
    Ok(())
}

/// A made graph is refused before any file is read.
#[test]
fn too_many_edges_are_not_made(rt: HostRuntime) -> Result<(), Fail> {
    let limit = "error: limit: edges\n";
    for words in ["make 1000000 17 0", "make 262145 64 0", "make 1000000 64 1"] {
        expect_refusal(&rt, words, CYCLE, "", &[1], 5, limit)?;
    }
    Ok(())
}

#[test]
fn reads_fail_in_order(rt: HostRuntime) -> Result<(), Fail> {
    let walk = "walk g p --seed 7";
    let bad = "0 1\n1 x\n";
    for (words, graph, programme, failing, status, line) in [
        // the programme is read by calls 1 and 2, before its faults are told
        (walk, bad, "foo = 1", 1, 6, "error: read p\n"),
        (walk, bad, "foo = 1", 2, 6, "error: read p\n"),
        (
            walk,
            bad,
            "foo = 1",
            3,
            3,
            "error: programme: unknown key foo\n",
        ),
        // the graph is read by calls 3 and 4, and a bad line that has ended is told before a later failure
        (walk, bad, "length = 1", 3, 6, "error: read g\n"),
        (walk, bad, "length = 1", 4, 4, "error: line 2: number\n"),
        (walk, CYCLE, "length = 1", 4, 6, "error: read g\n"),
        (
            walk,
            CYCLE,
            "length = 1; walkers = 1; from = 7",
            4,
            6,
            "error: read g\n",
        ),
        (
            walk,
            CYCLE,
            "length = 1; walkers = 1; from = 7",
            5,
            5,
            "error: no start 7\n",
        ),
    ] {
        expect_refusal(&rt, words, graph, programme, &[failing], status, line)?;
    }
    Ok(())
}

/// Files that aren't there, and one file that is both programme and graph.
#[test]
fn missing_files_are_told(rt: HostRuntime) -> Result<(), Fail> {
    let bad = "0 1\n1 x\n";
    for (words, programme, status, line) in [
        ("walk g b --seed 7", "foo = 1", 6, "error: read b\n"),
        (
            "walk a p --seed 7",
            "foo = 1",
            3,
            "error: programme: unknown key foo\n",
        ),
        ("walk a p --seed 7", "length = 1", 6, "error: read a\n"),
        ("walk a b --seed 7", "length = 1", 6, "error: read b\n"),
        ("walk - p --seed 7", "length = 1", 6, "error: read -\n"),
        // one file as programme and graph
        (
            "walk p p --seed 7",
            "length = 1",
            4,
            "error: line 1: number\n",
        ),
        (
            "walk g g --seed 7",
            "length = 1",
            3,
            "error: programme: text\n",
        ),
    ] {
        expect_refusal(&rt, words, bad, programme, &[], status, line)?;
    }
    Ok(())
}

#[test]
fn long_programmes_fail_in_order(rt: HostRuntime) -> Result<(), Fail> {
    let alloc = rt.alloc();
    let words = "walk g p --seed 7";
    // the byte beyond the limit is read by call 17
    let long = repeated(alloc, "#", 65536)?;
    let limit = "error: limit: programme bytes\n";
    expect_refusal(
        &rt,
        words,
        CYCLE,
        long.as_str(),
        &[17],
        6,
        "error: read p\n",
    )?;
    expect_refusal(&rt, words, CYCLE, long.as_str(), &[18], 5, limit)?;
    Ok(())
}

/// Asserts that words give the walks of the cycle, where one of the two files is standard input.
fn expect_walks_of_input<R: Abort + Threads + Sync + AllocGlobal>(
    rt: &R,
    graph: &str,
    programme: &str,
) -> Result<(), Memory> {
    let alloc = rt.alloc();
    let mut files = files_of(alloc, graph, CYCLE, &[], 1)?;
    add_file(alloc, &mut files, programme, "length = 3")?;
    let words = [
        "walk",
        graph,
        programme,
        "--seed=7",
        "--parts=1",
        "--workers",
        "1",
    ];
    let answer = answer_on(rt, &words, &mut files, &[], 1)?;
    let walks = "0 1 2 0\n1 2 0 1\n2 0 1 2\n";
    assert!(rt; answer.status == 0);
    assert!(rt; answer.out.bytes.as_slice() == walks.as_bytes());
    assert!(rt; answer.err.bytes.is_empty());
    Ok(())
}

#[test]
fn either_file_is_standard_input(rt: HostRuntime) -> Result<(), Fail> {
    expect_walks_of_input(&rt, "g", "p")?;
    expect_walks_of_input(&rt, "-", "p")?;
    expect_walks_of_input(&rt, "g", "-")?;
    Ok(())
}

#[test]
fn writes_fail(rt: HostRuntime) -> Result<(), Fail> {
    let alloc = rt.alloc();
    let words = ["walk", "g", "p", "--seed", "7"];
    let mut files = files_of(alloc, "g", CYCLE, &[], 4096)?;
    add_file(alloc, &mut files, "p", "length = 3")?;
    for (failing, out) in [(1, ""), (2, "0 "), (3, "0 1 ")] {
        let answer = answer_on(&rt, &words, &mut files, &[failing], 2)?;
        assert!(rt; answer.status == 7);
        assert!(rt; answer.out.bytes.as_slice() == out.as_bytes());
        assert!(rt; answer.err.bytes.as_slice() == b"error: write\n".as_slice());
    }
    // an error sink that fails changes no status
    let mut files = files_of(alloc, "g", CYCLE, &[], 4096)?;
    add_file(alloc, &mut files, "p", "foo = 1")?;
    let answer = answer_to_failing(&rt, &words, &mut files)?;
    assert!(rt; answer.status == 3);
    assert!(rt; answer.out.bytes.is_empty());
    assert!(rt; answer.err.bytes.as_slice() == b"error: ".as_slice());
    Ok(())
}

#[test]
fn factors_up_to_the_overflow(rt: HostRuntime) -> Result<(), Fail> {
    let alloc = rt.alloc();
    let programme = "length = 1; p = '1/1000'; q = '1000'";
    let most = repeated(alloc, "0 1 4294967295\n", 32)?;
    expect_walk(&rt, most.as_str(), programme, 0, "0 1\n1\n", "")?;
    let more = repeated(alloc, "0 1 4294967295\n", 33)?;
    let line = "error: overflow at vertex 0\n";
    expect_walk(&rt, more.as_str(), programme, 5, "", line)?;
    Ok(())
}
