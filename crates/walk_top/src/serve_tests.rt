//! `serve` by example.

use crate::tests::{Answer, CYCLE, add_file, answer_on, files_of, programme_of, words_of};
use crate::top_serve;
use std::alloc::Global;
use std::process::Abort;
use std::sync::Wait;
use std::test::Fail;
use std::thread::Threads;
use walk_io::{MemoryFiles, MemorySink, NamedBytes};
use walk_model::Memory;

/// What `top_serve` answers on words and files. The write calls in the list fail, and take at most `most` bytes.
fn served<R: Threads + Sync + AllocGlobal + Wait>(
    rt: &R,
    words: &[&str],
    files: &mut MemoryFiles,
    write_fails: &[u64],
    most: usize,
) -> Result<Answer, Memory> {
    let alloc = rt.alloc();
    let words = words_of(alloc, words)?;
    let fails = Vec::from_slice(alloc, write_fails)?;
    let mut out = MemorySink::new(alloc, 4096, fails, most.max(1))?;
    let mut err = MemorySink::new(alloc, 4096, Vec::new(alloc), 4096)?;
    let status = top_serve(rt, &words, files, &mut out, &mut err);
    Ok(Answer { status, out, err })
}

/// The cycle as `g`, a programme as `p`, and request files. The read calls in the list fail, and give at most `most` bytes.
fn files_with<R: AllocGlobal>(
    rt: &R,
    programme: &str,
    requests: &[(&str, &str)],
    fails: &[u64],
    most: usize,
) -> Result<MemoryFiles, Memory> {
    let alloc = rt.alloc();
    let mut files = files_of(alloc, "g", CYCLE, fails, most)?;
    let programme = programme_of(alloc, programme)?;
    add_file(alloc, &mut files, "p", programme.as_str())?;
    for (name, text) in requests {
        add_file(alloc, &mut files, name, text)?;
    }
    Ok(files)
}

/// Asserts what was answered.
fn expect<R: Abort>(rt: &R, answer: &Answer, status: u8, out: &str, err: &str) {
    assert!(rt; answer.status == status, "{err}");
    assert!(rt; answer.out.bytes.as_slice() == out.as_bytes(), "{err}");
    assert!(rt; answer.err.bytes.as_slice() == err.as_bytes(), "{err}");
}

/// Asserts what `serve g p --seed 1` and these names answer on the cycle.
fn expect_served<R: Abort + Threads + Sync + AllocGlobal + Wait>(
    rt: &R,
    names: &[&str],
    requests: &[(&str, &str)],
    status: u8,
    out: &str,
    err: &str,
) -> Result<(), Memory> {
    let alloc = rt.alloc();
    let mut words = Vec::new(alloc);
    for word in ["serve", "g", "p", "--seed", "1"] {
        words.push(word)?;
    }
    for name in names {
        words.push(*name)?;
    }
    let mut files = files_with(rt, "length = 5", requests, &[], 65536)?;
    let answer = served(rt, words.as_slice(), &mut files, &[], 4096)?;
    expect(rt, &answer, status, out, err);
    Ok(())
}

#[test]
fn replies_file_by_file(rt: HostRuntime) -> Result<(), Fail> {
    let a = ("a", "5 0 2\nx\n");
    let b = ("b", "5 7 2\n6 1 1\n");
    let both = "0 1 2\n? bad request\n? no vertex\n1 2\n";
    expect_served(&rt, &["a", "b"], &[a, b], 0, both, "")?;
    let other = "? no vertex\n1 2\n0 1 2\n? bad request\n";
    expect_served(&rt, &["b", "a"], &[a, b], 0, other, "")?;
    let twice = "0 1 2\n? bad request\n0 1 2\n? bad request\n";
    expect_served(&rt, &["a", "a"], &[a], 0, twice, "")?;
    expect_served(
        &rt,
        &["a", "-"],
        &[a, ("-", "7 2 0")],
        0,
        "0 1 2\n? bad request\n2\n",
        "",
    )?;
    expect_served(&rt, &["e"], &[("e", "")], 0, "", "")?;
    expect_served(
        &rt,
        &["e", "b"],
        &[("e", "\n \r\n"), b],
        0,
        "? no vertex\n1 2\n",
        "",
    )?;
    Ok(())
}

/// A text of so many equal lines.
fn lines_of(alloc: Global, line: &str, count: u32) -> Result<String, Memory> {
    let mut text = String::new(alloc);
    for _ in 0..count {
        text.push_str(line)?;
    }
    Ok(text)
}

#[test]
fn more_requests_than_a_ring_holds(rt: HostRuntime) -> Result<(), Fail> {
    let alloc = rt.alloc();
    let hundred = lines_of(alloc, "5 0 2\n", 100)?;
    let walks = lines_of(alloc, "0 1 2\n", 100)?;
    expect_served(
        &rt,
        &["a"],
        &[("a", hundred.as_str())],
        0,
        walks.as_str(),
        "",
    )?;
    let one = ("a", "5 0 2\n");
    let sixteen = lines_of(alloc, "0 1 2\n", 16)?;
    expect_served(&rt, &["a"; 16], &[one], 0, sixteen.as_str(), "")?;
    expect_served(&rt, &["a"; 17], &[one], 2, "", "error: words\n")?;
    Ok(())
}

#[test]
fn words_of_serve(rt: HostRuntime) -> Result<(), Fail> {
    let cases: [&[&str]; 8] = [
        &["serve", "g", "p", "a"],
        &["serve", "g", "p", "--seed", "1"],
        &["serve", "g", "--seed", "1"],
        &["serve", "-", "p", "a", "-", "--seed", "1"],
        &["serve", "g", "p", "a", "--seed", "18446744073709551616"],
        &["serve", "g", "p", "a", "--seed", "1", "--parts", "1"],
        &["quick", "g", "7", "3"],
        &[],
    ];
    for words in cases {
        let mut files = files_with(&rt, "length = 5", &[("a", "5 0 2\n")], &[], 65536)?;
        let answer = served(&rt, words, &mut files, &[], 4096)?;
        expect(&rt, &answer, 2, "", "error: words\n");
    }
    let mut files = files_with(&rt, "length = 5", &[("a", "5 0 2\n")], &[], 65536)?;
    let words = ["serve", "g", "p", "a", "--seed", "1"];
    let answer = answer_on(&rt, &words, &mut files, &[], 4096)?;
    expect(&rt, &answer, 2, "", "error: words\n");
    Ok(())
}

#[test]
fn faults_of_serve(rt: HostRuntime) -> Result<(), Fail> {
    // a programme, the read calls that fail, the write calls that fail, and what comes of them
    let cases: [(&str, &[u64], &[u64], u8, &str, &str); 7] = [
        (
            "length = 5; walkers = 2; from = 77",
            &[],
            &[],
            0,
            "0 1 2\n? bad request\n",
            "",
        ),
        ("", &[], &[], 3, "", "error: programme: missing length\n"),
        ("length = 5", &[2], &[], 6, "", "error: read p\n"),
        ("length = 5", &[4], &[], 6, "", "error: read g\n"),
        // the read that would tell the end of the request file, after its whole text
        ("length = 5", &[6], &[], 6, "", "error: read a\n"),
        ("length = 5", &[], &[1], 7, "", "error: write\n"),
        ("length = 5", &[], &[2], 7, "0 1", "error: write\n"),
    ];
    for (programme, fails, write_fails, status, out, err) in cases {
        let mut files = files_with(&rt, programme, &[("a", "5 0 2\nx\n")], fails, 65536)?;
        let words = ["serve", "g", "p", "a", "--seed", "1"];
        let answer = served(&rt, &words, &mut files, write_fails, 3)?;
        expect(&rt, &answer, status, out, err);
    }
    expect_served(&rt, &["b"], &[], 6, "", "error: read b\n")?;
    Ok(())
}

#[test]
fn limits_of_serve(rt: HostRuntime) -> Result<(), Fail> {
    let alloc = rt.alloc();
    // 16,777,217 bytes, one more than a request file may have
    let mut files = files_with(&rt, "length = 5", &[("a", "")], &[], 65536)?;
    files.names.push(NamedBytes {
        name: String::from_str(alloc, "b")?,
        bytes: vec![in alloc; b' '; 16777217]?,
        faults: 0,
    })?;
    let words = ["serve", "g", "p", "a", "b", "--seed", "1"];
    let answer = served(&rt, &words, &mut files, &[], 4096)?;
    expect(&rt, &answer, 5, "", "error: limit: request bytes\n");
    // 2048 times 65537 entries
    let many = lines_of(alloc, "5 0 65536\n", 2048)?;
    let passed = "error: limit: path entries\n";
    expect_served(&rt, &["a"], &[("a", many.as_str())], 5, "", passed)?;
    // where the start is no vertex there is none
    let none = lines_of(alloc, "5 7 65536\nx\n", 128)?;
    let replies = lines_of(alloc, "? no vertex\n? bad request\n", 128)?;
    expect_served(
        &rt,
        &["a"],
        &[("a", none.as_str())],
        0,
        replies.as_str(),
        "",
    )?;
    Ok(())
}

#[test]
fn requests_for_the_walks_of_a_programme(rt: HostRuntime) -> Result<(), Fail> {
    let alloc = rt.alloc();
    let graph = "3 5 2\n3 8 1\n5 3 4\n5 8 1\n8 3 1\n8 5 7\n8 8 2\n";
    for programme in [
        "length = 12",
        "length = 12; weighted = false; stop = \"1/20\"",
        "length = 12; p = \"1/2\"; q = \"2\"; retries = 1",
        "length = 12; restart = \"1/4\"; p = \"4\"",
    ] {
        let mut files = files_of(alloc, "g", graph, &[], 65536)?;
        let text = programme_of(alloc, programme)?;
        add_file(alloc, &mut files, "p", text.as_str())?;
        add_file(alloc, &mut files, "a", "0 3 12\n1 5 12\n2 8 12\n")?;
        let walk = ["walk", "g", "p", "--seed", "9"];
        let walks = answer_on(&rt, &walk, &mut files, &[], 4096)?;
        let words = ["serve", "g", "p", "a", "--seed", "9"];
        let replies = served(&rt, &words, &mut files, &[], 4096)?;
        assert!(rt; walks.status == 0 && replies.status == 0, "{programme}");
        assert!(rt; walks.out.bytes == replies.out.bytes, "{programme}");
    }
    Ok(())
}
