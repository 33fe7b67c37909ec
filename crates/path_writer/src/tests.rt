ghost use Rattle.std.specs.Prelude.{◌≡◌, ◌<◌, ℕ, true, length, All};
ghost use Rattle.path_writer.specs.Named.{AreNamed};

use super::*;
use std::alloc::Global;
use std::test::Fail;
use vertex_names::Names;
use walk_io::{Failed, MemorySink, SureSink};
use walk_model::{Edge, Finished};

/// The names of two vertices.
fn names_of_two(alloc: Global, low: u32, high: u32) -> Result<Names, Fail> {
    let edge = Edge {
        src: high,
        dst: low,
        weight: 1,
        kind: 0,
    };
    let names = Names::of(alloc, &[edge])?;
    Ok(names)
}

/// Whether each rank of a walk is below a number.
fn is_below(walk: &[u32], count: u32) -> bool
    ensures { result ≡ true → All (λ r. r < count) walk.now }
{
    for rank in walk {
        if *rank >= count {
            return false;
        }
    }
    true
}

/// Whether each rank of each walk has a name.
fn are_named(names: &Names, finished: &Finished) -> bool
    ensures { result ≡ true → AreNamed names.now finished.now }
{
    let count = names.len();
    for i in 0..finished.count() {
        if !is_below(finished.walk(i), count) {
            return false;
        }
    }
    true
}

/// A sink that walks by ranks 0 and 1 were written to with these two names, and whether all was.
fn written(
    alloc: Global,
    ids: (u32, u32),
    finished: &Finished,
    mut sink: MemorySink,
) -> Result<(bool, MemorySink), Fail> {
    let names = names_of_two(alloc, ids.0, ids.1)?;
    if !are_named(&names, finished) {
        return Err(Fail::new("a rank without a name"));
    }
    let whole = write_walks(finished, &names, &mut sink).is_ok();
    Ok((whole, sink))
}

#[test]
fn lines_of_walks(rt: HostRuntime) -> Result<(), Fail> {
    let alloc = rt.alloc();
    for (ids, finished, text) in [
        (
            (5, 9),
            Finished::of(vec![in alloc; 0, 1, 1]?, vec![in alloc; 0, 2]?),
            b"5 9\n9\n".as_slice(),
        ),
        (
            (5, 9),
            Finished::of(vec![in alloc]?, vec![in alloc]?),
            b"".as_slice(),
        ),
        (
            (0, u32::MAX),
            Finished::of(vec![in alloc; 1, 0, 1, 0]?, vec![in alloc; 0, 2, 3]?),
            b"4294967295 0\n4294967295\n0\n".as_slice(),
        ),
    ] {
        let sink = MemorySink::new(alloc, 64, vec![in alloc]?, 64)?;
        let (whole, sink) = written(alloc, ids, &finished, sink)?;
        assert!(rt; whole);
        assert_eq!(rt; sink.bytes.as_slice(), text);
    }
    Ok(())
}

#[test]
fn many_blocks(rt: HostRuntime) -> Result<(), Fail> {
    let alloc = rt.alloc();
    let mut entries = vec![in alloc; 1; 30_000]?;
    entries.push(0)?;
    let finished = Finished::of(entries, vec![in alloc; 0, 30_000]?);
    let sink = MemorySink::new(alloc, 400_000, vec![in alloc]?, 400_000)?;
    let (whole, sink) = written(alloc, (7, u32::MAX), &finished, sink)?;
    assert!(rt; whole);
    assert_eq!(rt; sink.bytes.len(), 330_002);
    // one call for each block of 65536 bytes, but for what an entry may leave of it
    assert_eq!(rt; sink.calls, 6);
    for (i, b) in sink.bytes.iter().enumerate() {
        let wanted = match i {
            329_999 | 330_001 => b'\n',
            330_000 => b'7',
            _ => b"4294967295 "[i % 11],
        };
        assert_eq!(rt; *b, wanted, "at {i}");
    }
    Ok(())
}

#[test]
fn a_sink_that_fails(rt: HostRuntime) -> Result<(), Fail> {
    let alloc = rt.alloc();
    let finished = Finished::of(vec![in alloc; 0, 1, 1]?, vec![in alloc; 0, 2]?);
    let sink = MemorySink::new(alloc, 64, vec![in alloc; 2]?, 3)?;
    let (whole, sink) = written(alloc, (5, 9), &finished, sink)?;
    assert!(rt; !whole);
    assert_eq!(rt; sink.bytes.as_slice(), b"5 9".as_slice());
    let mut sink = MemorySink::new(alloc, 4, vec![in alloc]?, 3)?;
    assert_eq!(rt; write_all(&mut sink, b"5 9\n"), Ok(()));
    assert_eq!(rt; write_all(&mut sink, b"9"), Err(Failed));
    assert_eq!(rt; write_all(&mut SureSink, b"9"), Ok(()));
    Ok(())
}
