use super::*;
use std::alloc::AllocGlobal;
use std::process::Abort;
use std::test::Fail;
use walk_model::{Edge, Limit, LineFault, Why};

const WIDE: ReadLimits = ReadLimits {
    bytes: 99,
    edges: 9,
};

fn edge(src: u32, dst: u32, weight: u64, kind: u8) -> Edge {
    Edge {
        src,
        dst,
        weight,
        kind,
    }
}

fn bad(line: u64, why: Why) -> Result<(), LineFault> {
    Err(LineFault::Bad { line, why })
}

/// Feeds a text in pieces of so many bytes, and asserts the edges or the fault.
fn expect_read<R: Abort + AllocGlobal>(
    rt: &R,
    undirected: bool,
    limits: ReadLimits,
    text: &[u8],
    size: usize,
    want: Result<(), LineFault>,
    edges: &[Edge],
) -> Result<(), Fail> {
    let alloc = rt.alloc();
    let can = limits.bytes <= 1073741824 && limits.edges <= 16777216 && size > 0;
    assert!(rt; can);
    let mut reader = EdgeReader::new(alloc, undirected, limits);
    let mut met = None;
    for piece in text.chunks(size) {
        match reader.feed(piece) {
            Ok(()) => assert!(rt; met.is_none()),
            Err(fault) => {
                assert!(rt; met.is_none() || met == Some(fault));
                met = Some(fault);
            }
        }
    }
    match reader.finish() {
        Ok(found) => {
            assert!(rt; want.is_ok() && met.is_none());
            assert!(rt; found.as_slice() == edges);
        }
        Err(fault) => assert!(rt; want == Err(fault)),
    }
    Ok(())
}

/// The same of a text as a whole and in pieces of 1, 2 and 3 bytes.
fn expect_cut<R: Abort + AllocGlobal>(
    rt: &R,
    undirected: bool,
    limits: ReadLimits,
    text: &[u8],
    want: Result<(), LineFault>,
    edges: &[Edge],
) -> Result<(), Fail> {
    for size in [1, 2, 3, 99] {
        expect_read(rt, undirected, limits, text, size, want, edges)?;
    }
    Ok(())
}

#[test]
fn edges(rt: HostRuntime) -> Result<(), Fail> {
    let cycle = [edge(0, 1, 1, 0), edge(1, 2, 1, 0), edge(2, 0, 1, 0)];
    let file = b"# nodes\n% x y z w v\n\n0\t1\r\n 01  2 \n2 0 1 0";
    expect_cut(&rt, false, WIDE, file, Ok(()), &cycle)?;
    let both = [
        edge(5, 9, 4294967295, 255),
        edge(9, 5, 4294967295, 255),
        edge(4, 4, 1, 0),
    ];
    expect_cut(
        &rt,
        true,
        WIDE,
        b"5 9 04294967295 255\r\n \r\n4 4\r",
        Ok(()),
        &both,
    )?;
    expect_cut(&rt, true, WIDE, b"", Ok(()), &[])
}

#[test]
fn faults(rt: HostRuntime) -> Result<(), Fail> {
    let cases: [(&[u8], u64, Why); 10] = [
        (b"0 1\n1 2\n1 x", 3, Why::Number),
        (b"0 1\n1 2\n1 2 0", 3, Why::ZeroWeight),
        (b"0 1\n1 2\n1", 3, Why::Fields),
        (b"0 1\n1 2\n4294967296 1", 3, Why::TooGreat),
        (b"x 1 0 1 2\n", 1, Why::Fields),
        (b"4294967296 x\n0\n", 1, Why::TooGreat),
        (b"42949672960x 1\n", 1, Why::Number),
        (b"1 2 0 x\n", 1, Why::ZeroWeight),
        (b"1 2 3 256\n", 1, Why::TooGreat),
        (b"\n1\r 2\r\r\n", 2, Why::Number),
    ];
    for (text, line, why) in cases {
        expect_cut(&rt, false, WIDE, text, bad(line, why), &[])?;
    }
    Ok(())
}

#[test]
fn limits(rt: HostRuntime) -> Result<(), Fail> {
    let cycle = b"0 1\n1 2\n2 0\n";
    let cases: [(bool, u64, u64, &[u8], Limit); 5] = [
        (false, 7, 9, cycle, Limit::GraphBytes),
        (false, 99, 2, cycle, Limit::Edges),
        (true, 99, 5, cycle, Limit::Edges),
        (false, 11, 2, cycle, Limit::GraphBytes),
        (false, 3, 9, b"0 x\n", Limit::GraphBytes),
    ];
    for (undirected, bytes, edges, text, what) in cases {
        let limits = ReadLimits { bytes, edges };
        let want = Err(LineFault::Limit { what });
        expect_cut(&rt, undirected, limits, text, want, &[])?;
    }
    Ok(())
}
