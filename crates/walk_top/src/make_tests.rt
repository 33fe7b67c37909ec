//! Reports on the walks of made graphs, beside what a carrier recorded.

use crate::tests::{answer_by, files_of};
use shard_core::Item;
use std::process::Abort;
use std::test::Fail;
use std::thread::Threads;
use walk_model::What;
use walker_mail::{InOrder, Recording};

/// Asserts that words of `make` report so many walks and steps, and the moves and asks that were carried. Answers the moves.
fn expect_report<R: Abort + Threads + Sync + AllocGlobal>(
    rt: &R,
    words: &[&str],
    walks: u32,
    steps: u32,
) -> Result<u64, Fail> {
    let alloc = rt.alloc();
    let mut files = files_of(alloc, "g", "", &[], 1)?;
    let mut carrier: Recording<Item, InOrder<Item>> = Recording::new(alloc, InOrder::new(alloc));
    let answer = answer_by(rt, words, &mut files, &[], 5, &mut carrier)?;
    let mut moves: u64 = 0;
    let mut asks: u64 = 0;
    for letter in carrier.letters() {
        match letter.what {
            What::Move => moves = moves.saturating_add(1),
            What::AskEdge { .. } => asks = asks.saturating_add(1),
            What::AskRow { .. } => asks = asks.saturating_add(1),
            _ => {}
        }
    }
    let want = format!(in alloc; "walks {walks}\nsteps {steps}\nmoves {moves}\nasks {asks}\n")?;
    assert_eq!(rt; answer.status, 0);
    assert_eq!(rt; answer.out.bytes.as_slice(), want.as_bytes());
    assert!(rt; answer.err.bytes.is_empty());
    Ok(moves)
}

#[test]
fn reports_are_what_was_carried(rt: HostRuntime) -> Result<(), Fail> {
    // one vertex, in one of the four parts
    let alone = expect_report(&rt, &["make", "1", "1", "0"], 1, 20)?;
    assert_eq!(rt; alone, 0);
    // a cycle, whose three vertices are in three parts
    let around = expect_report(&rt, &["make", "3", "1", "0"], 3, 60)?;
    assert_eq!(rt; around, 60);
    let once = expect_report(&rt, &["make", "1000", "8", "3"], 1000, 20000)?;
    let twice = expect_report(&rt, &["make", "1000", "8", "3"], 1000, 20000)?;
    assert_eq!(rt; once, twice);
    Ok(())
}
