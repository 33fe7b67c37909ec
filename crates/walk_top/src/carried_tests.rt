//! What walks between parts are held against: the walks of the definition, and the letters of other carriers and workers.

ghost use Rattle.std.specs.Prelude.{◌≡◌, ◌≤◌, ◌^◌, []};

use crate::tests::{add_file, answer_by, files_of, programme_of};
use crate::walk_tests::{Line, plain_text, text_of};
use shard_core::Item;
use std::process::Abort;
use std::test::Fail;
use std::thread::Threads;
use walk_model::{Letter, Memory};
use walker_mail::{Carrier, InOrder, OneByOne, Recording, Reversed, Shuffled};

/// Asserts what `walk g p --seed 7` answers in so many parts, by so many workers, over a carrier.
pub(crate) fn expect_over<R: Abort + Threads + Sync + AllocGlobal, C: Carrier<Item>>(
    rt: &R,
    graph: &str,
    lines: &str,
    many: (u32, u32),
    out: &str,
    carrier: &mut C,
) -> Result<(), Memory>
    requires held { C.held carrier.old ≡ [] }
    requires count { C.carried carrier.old ≤ 2 ^ 63 }
{
    let alloc = rt.alloc();
    let (parts, workers) = many;
    let programme = programme_of(alloc, lines)?;
    let parts = format!(in alloc; "{parts}")?;
    let mut files = files_of(alloc, "g", graph, &[], 65536)?;
    add_file(alloc, &mut files, "p", programme.as_str())?;
    let workers = format!(in alloc; "--workers={workers}")?;
    let words = [
        "walk",
        "g",
        "p",
        "--seed",
        "7",
        "--parts",
        parts.as_str(),
        workers.as_str(),
    ];
    let answer = answer_by(rt, &words, &mut files, &[], 4096, carrier)?;
    assert!(rt; answer.status == 0, "{lines}");
    assert!(rt; answer.out.bytes.as_slice() == out.as_bytes(), "{lines}");
    assert!(rt; answer.err.bytes.is_empty(), "{lines}");
    Ok(())
}

/// The same over a carrier that holds nothing. The letters that it carried are the result, walker by walker, each walker's in order.
fn letters_over<R: Abort + Threads + Sync + AllocGlobal, C: Carrier<Item> + Drop>(
    rt: &R,
    graph: &str,
    lines: &str,
    many: (u32, u32),
    out: &str,
    inner: C,
) -> Result<Vec<Letter>, Memory>
    requires held { C.held inner ≡ [] }
    requires count { C.carried inner ≤ 2 ^ 63 }
{
    let alloc = rt.alloc();
    let mut carrier: Recording<Item, C> = Recording::new(alloc, inner);
    expect_over(rt, graph, lines, many, out, &mut carrier)?;
    let mut letters = Vec::from_slice(alloc, carrier.letters())?;
    letters.sort_by_key(|letter| letter.walker)?;
    Ok(letters)
}

/// The same over each carrier, which carry as many letters, and each walker's in the same order.
pub(crate) fn letters_of_each<R: Abort + Threads + Sync + AllocGlobal>(
    rt: &R,
    graph: &str,
    lines: &str,
    many: (u32, u32),
    out: &str,
) -> Result<Vec<Letter>, Memory> {
    let alloc = rt.alloc();
    let in_order = letters_over(rt, graph, lines, many, out, InOrder::new(alloc))?;
    let reversed = letters_over(rt, graph, lines, many, out, Reversed::new(alloc))?;
    let one_by_one = letters_over(rt, graph, lines, many, out, OneByOne::new(alloc))?;
    let shuffled = letters_over(rt, graph, lines, many, out, Shuffled::new(alloc, 5))?;
    for letters in [&reversed, &one_by_one, &shuffled] {
        assert!(rt; letters.as_slice() == in_order.as_slice(), "{lines}");
    }
    Ok(in_order)
}

/// Asserts the same by one worker and by each of these numbers of workers, with the same letters of each walker.
pub(crate) fn expect_carried<R: Abort + Threads + Sync + AllocGlobal>(
    rt: &R,
    graph: &str,
    lines: &str,
    parts: u32,
    workers: &[u32],
    out: &str,
) -> Result<(), Memory> {
    let alone = letters_of_each(rt, graph, lines, (parts, 1), out)?;
    for count in workers {
        let letters = letters_of_each(rt, graph, lines, (parts, *count), out)?;
        assert!(rt; letters.as_slice() == alone.as_slice(), "{lines}");
    }
    Ok(())
}

/// Asserts that a programme's walks of a graph are those of the definition in each of these numbers of parts, by one worker and by
/// each of these numbers of workers, over each carrier.
pub(crate) fn expect_plain_carried<R: Abort + Threads + Sync + AllocGlobal>(
    rt: &R,
    lines: &[Line],
    programme: &str,
    parts: &[u32],
    workers: &[u32],
) -> Result<(), Fail> {
    let want = plain_text(rt, lines, programme)?;
    let graph = text_of(rt.alloc(), lines)?;
    for count in parts {
        expect_carried(
            rt,
            graph.as_str(),
            programme,
            *count,
            workers,
            want.as_str(),
        )?;
    }
    Ok(())
}
