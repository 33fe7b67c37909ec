use super::*;
use std::alloc::AllocGlobal;
use std::process::Abort;
use std::test::Fail;

fn good(stream: u64, start: u32, length: u32) -> Option<Request> {
    Some(Request {
        stream,
        start,
        length,
    })
}

/// Asserts the requests of a text.
fn expect_requests<R: Abort + AllocGlobal>(
    rt: &R,
    text: &[u8],
    want: &[Option<Request>],
) -> Result<(), Fail> {
    let found = read_requests(rt.alloc(), text)?;
    assert!(rt; found.as_slice() == want);
    Ok(())
}

#[test]
fn lines(rt: HostRuntime) -> Result<(), Fail> {
    expect_requests(&rt, b"", &[])?;
    expect_requests(&rt, b"\n \t\n\r\n \r", &[])?;
    let three = [good(5, 0, 2), None, good(6, 1, 1)];
    expect_requests(&rt, b"5 0 2\nx\n6 1 1", &three)?;
    expect_requests(&rt, b" 5\t0  2 \r\n\n# 5 0 2\r\n06 001 1\n", &three)?;
    expect_requests(&rt, b"5 0 2\r\r\n5 0 2\n", &[None, good(5, 0, 2)])
}

#[test]
fn edges_of_ranges(rt: HostRuntime) -> Result<(), Fail> {
    let cases: [(&[u8], Option<Request>); 14] = [
        (
            b"18446744073709551615 4294967295 65536",
            good(18446744073709551615, 4294967295, 65536),
        ),
        (b"0 0 0", good(0, 0, 0)),
        (
            b"00000000000000000001 00000000000000000002 00000000000000000003",
            good(1, 2, 3),
        ),
        (b"18446744073709551616 0 1", None),
        (b"0 4294967296 1", None),
        (b"0 0 65537", None),
        (b"000000000000000000001 2 3", None),
        (b"1 000000000000000000002 3", None),
        (b"1 2 000000000000000000003", None),
        (b"1 2", None),
        (b"1 2 3 4", None),
        (b"-1 2 3", None),
        (b"1 2 3x", None),
        (b"1,2,3", None),
    ];
    for (line, want) in cases {
        expect_requests(&rt, line, &[want])?;
    }
    Ok(())
}
