use crate::words::{Words, read_words};
use std::alloc::{AllocGlobal, Global};
use std::process::Abort;
use std::test::Fail;
use walk_model::Memory;

/// The words of a line, between single spaces.
fn words_of(alloc: Global, line: &str) -> Result<Vec<String>, Memory> {
    let mut words = Vec::new(alloc);
    for word in line.split(' ') {
        words.push(String::from_str(alloc, word)?)?;
    }
    Ok(words)
}

/// The names and numbers of a job, in order.
fn shown(alloc: Global, job: &Words<'_>) -> Result<String, Memory> {
    let text = match job {
        Words::Quick(q) => format!(in alloc; "quick {} {} {}", q.graph, q.seed, q.length)?,
        Words::Walk(w) => {
            format!(in alloc;
                "walk {} {} {} {} {}",
                w.graph, w.programme, w.seed, w.parts, w.workers
            )?
        }
        Words::Make(m) => format!(in alloc; "make {} {} {}", m.vertices, m.degree, m.seed)?,
    };
    Ok(text)
}

/// Asserts the job of words, or that they have none.
fn expect_job<R: Abort + AllocGlobal>(rt: &R, words: &[String], want: &str) -> Result<(), Memory> {
    let got = match read_words(rt.alloc(), words)? {
        Some(job) => shown(rt.alloc(), &job)?,
        None => String::from_str(rt.alloc(), "none")?,
    };
    assert_eq!(rt; got.as_str(), want);
    Ok(())
}

/// Asserts the job of each line.
fn expect_jobs<R: Abort + AllocGlobal>(rt: &R, rows: &[(&str, &str)]) -> Result<(), Memory> {
    for (line, want) in rows {
        let words = words_of(rt.alloc(), line)?;
        expect_job(rt, &words, want)?;
    }
    Ok(())
}

#[test]
fn quick_has_three_places(rt: HostRuntime) -> Result<(), Fail> {
    expect_job(&rt, &[], "quick - 1 3")?;
    expect_jobs(
        &rt,
        &[
            ("quick g 7 3", "quick g 7 3"),
            ("quick - 1 3", "quick - 1 3"),
            ("quick -- -x 1 3", "quick -x 1 3"),
            ("quick g -- 1 3", "quick g 1 3"),
            ("quick g 1 3 --", "quick g 1 3"),
            ("quick g 1 -- --", "none"),
            ("quick  1 3", "quick  1 3"),
            ("quick g  3", "none"),
            ("quick -x 1 3", "none"),
            ("quick g -1 3", "none"),
            ("quick --seed 1 g 1 3", "none"),
            ("quick g 1", "none"),
            ("quick g 1 3 4", "none"),
            ("quick", "none"),
            ("quick g 0 0", "quick g 0 0"),
            (
                "quick g 18446744073709551615 1048576",
                "quick g 18446744073709551615 1048576",
            ),
            ("quick g 18446744073709551616 3", "none"),
            ("quick g 1 1048577", "none"),
            ("quick g 00000000000000000007 3", "quick g 7 3"),
            ("quick g 000000000000000000007 3", "none"),
            ("quick g +1 3", "none"),
            ("quick g 0x1 3", "none"),
        ],
    )?;
    Ok(())
}

#[test]
fn walk_has_places_and_options(rt: HostRuntime) -> Result<(), Fail> {
    expect_jobs(
        &rt,
        &[
            ("walk g p --seed=1", "walk g p 1 1 1"),
            ("walk g p --seed 7", "walk g p 7 1 1"),
            ("walk --seed=7 g --parts 1 p --workers=1", "walk g p 7 1 1"),
            ("walk --seed 7 -- --g --", "walk --g -- 7 1 1"),
            (
                "walk - p --seed 18446744073709551615",
                "walk - p 18446744073709551615 1 1",
            ),
            ("walk g - --seed 0", "walk g - 0 1 1"),
            ("walk g p --seed 1 --parts 256", "walk g p 1 256 1"),
            ("walk g p --seed 1 --workers 1", "walk g p 1 1 1"),
            (
                "walk g p --seed 1 --workers=16 --parts 3",
                "walk g p 1 3 16",
            ),
        ],
    )?;
    Ok(())
}

#[test]
fn other_places_and_options_are_refused(rt: HostRuntime) -> Result<(), Fail> {
    expect_jobs(
        &rt,
        &[
            ("walk g p --seed 18446744073709551616", "none"),
            ("walk g", "none"),
            ("walk g --seed 1", "none"),
            ("walk g p q --seed 1", "none"),
            ("walk g p", "none"),
            ("walk g p --seed 1 --seed 2", "none"),
            ("walk g p --seed 1 --seed=1", "none"),
            ("walk g p --seed 1 --parts 0", "none"),
            ("walk g p --seed 1 --parts 257", "none"),
            ("walk g p --seed 1 --workers 0", "none"),
            ("walk g p --seed 1 --workers=17", "none"),
            ("walk g p --seed 1 --workers", "none"),
            ("walk g p --seed 1 --workers=", "none"),
            ("walk g p --seed 1 --workers 2 --workers 2", "none"),
            ("walk - - --seed 1", "none"),
            ("walk - -- - --seed 1", "none"),
            ("walk - p --seed -", "none"),
            ("walk - p --seed=-", "none"),
            ("walk g p --seed=", "none"),
            ("walk g p --seed ", "none"),
            ("walk g p --seed", "none"),
            ("walk g p --seed --parts=1", "none"),
            ("walk g p --seed -1", "none"),
            ("walk g p --seed=-1", "none"),
            ("walk g p --seed -- 7", "none"),
            ("walk g p -- --seed 7", "none"),
            ("walk g p --see 7", "none"),
            ("walk g p --Seed 7", "none"),
            ("walk g p -s 7", "none"),
            ("walk g p --seed 7 -x", "none"),
            ("walk g p --seed 7 --help", "none"),
            ("walk g p --seed 7 --version", "none"),
        ],
    )?;
    Ok(())
}

#[test]
fn make_has_three_places(rt: HostRuntime) -> Result<(), Fail> {
    expect_jobs(
        &rt,
        &[
            ("make 1 1 0", "make 1 1 0"),
            (
                "make 1000000 64 18446744073709551615",
                "make 1000000 64 18446744073709551615",
            ),
            ("make 0003 -- 2 07", "make 3 2 7"),
            ("make", "none"),
            ("make 1 1", "none"),
            ("make 1 1 0 0", "none"),
            ("make 0 1 0", "none"),
            ("make 1000001 1 0", "none"),
            ("make 1 0 0", "none"),
            ("make 1 65 0", "none"),
            ("make 1 1 18446744073709551616", "none"),
            ("make 1 1 --seed 0", "none"),
            ("make 1 1 --seed=0", "none"),
            ("make 1 1 0 --parts 4", "none"),
            ("make x 1 0", "none"),
            ("make -1 1 0", "none"),
        ],
    )?;
    Ok(())
}

#[test]
fn other_commands_are_refused(rt: HostRuntime) -> Result<(), Fail> {
    expect_jobs(
        &rt,
        &[
            ("", "none"),
            ("run g", "none"),
            ("Walk g p --seed 7", "none"),
            ("-- quick g 1 3", "none"),
            ("--help", "none"),
        ],
    )?;
    Ok(())
}
