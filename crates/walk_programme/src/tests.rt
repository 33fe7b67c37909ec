//! Programmes and fractions by example.

use super::*;
use std::alloc::AllocError;
use std::process::Abort;
use std::test::Fail;

/// Asserts what a programme is answered, as it is printed.
fn expect_answer<R: Abort + AllocGlobal>(
    rt: &R,
    text: &[u8],
    want: &str,
) -> Result<(), AllocError> {
    assert!(rt; text.len() <= 65536);
    let answer = read_plan(rt.alloc(), text);
    let answer = format!(in rt.alloc(); "{answer:?}")?;
    assert!(rt; answer.as_str() == want, "{answer} and not {want}");
    Ok(())
}

/// Asserts the fault of each programme.
fn expect_faults<R: Abort + AllocGlobal>(rt: &R, rows: &[(&str, &str)]) -> Result<(), AllocError> {
    for (text, fault) in rows {
        let want = format!(in rt.alloc(); "Err({fault})")?;
        expect_answer(rt, text.as_bytes(), want.as_str())?;
    }
    Ok(())
}

#[test]
fn plans(rt: HostRuntime) -> Result<(), Fail> {
    let usual =
        "Ok(Plan { weighted: true, undirected: false, length: 3, start: Each, retries: 32, stop: Fraction { top: 0, bottom: 1 }, restart: Fraction { top: 0, bottom: 1 }, rule: Plain })";
    for text in [
        "length = 3",
        "length = 0x3\nwalkers = \"each\" # all",
        "'length' = +3\nwalkers = '''each'''",
    ] {
        expect_answer(&rt, text.as_bytes(), usual)?;
    }
    let rows = [
        (
            "length = 1_048_576\nwalkers = 16777216\nfrom = 4294967295\nretries = 1000\nstop = \"1/1\"\nrestart = 1\nscheme = [0, 255]",
            "Ok(Plan { weighted: true, undirected: false, length: 1048576, start: From { walkers: 16777216, id: 4294967295 }, retries: 1000, stop: Fraction { top: 1, bottom: 1 }, restart: Fraction { top: 1, bottom: 1 }, rule: Scheme { kinds: Kinds { kinds: [0, 255] } } })",
        ),
        (
            "length = 0\nwalkers = 0\nweighted = false\nundirected = true\nretries = 0\nstop = \"0.25\"\nrestart = \"2/4\"\np = \"1/1000000\"",
            "Ok(Plan { weighted: false, undirected: true, length: 0, start: Spread { walkers: 0 }, retries: 0, stop: Fraction { top: 1, bottom: 4 }, restart: Fraction { top: 1, bottom: 2 }, rule: Node2vec { p: Fraction { top: 1, bottom: 1000000 }, q: Fraction { top: 1, bottom: 1 } } })",
        ),
        (
            "length = 1\nq = 1000000",
            "Ok(Plan { weighted: true, undirected: false, length: 1, start: Each, retries: 32, stop: Fraction { top: 0, bottom: 1 }, restart: Fraction { top: 0, bottom: 1 }, rule: Node2vec { p: Fraction { top: 1, bottom: 1 }, q: Fraction { top: 1000000, bottom: 1 } } })",
        ),
    ];
    for (text, want) in &rows {
        expect_answer(&rt, text.as_bytes(), want)?;
    }
    Ok(())
}

/// Faults of the text come before unknown keys, the least first, and those before a missing one.
#[test]
fn faults_of_texts_and_keys(rt: HostRuntime) -> Result<(), Fail> {
    expect_faults(
        &rt,
        &[
            ("", "Missing { key: Length }"),
            ("length = ", "Text"),
            ("length = 3\nlength = 4", "Text"),
            (
                "foo = 1",
                "UnknownKey { key: KeyText { bytes: [102, 111, 111] } }",
            ),
            ("b = 1\nlength = x", "Text"),
            (
                "z = 1\nb = 1\nc = 2\nlength = 'x'",
                "UnknownKey { key: KeyText { bytes: [98] } }",
            ),
            (
                "\"\" = 1\nA = 1",
                "UnknownKey { key: KeyText { bytes: [] } }",
            ),
            ("[p]\ntop = 1", "Missing { key: Length }"),
            ("p = 0.5", "Missing { key: Length }"),
        ],
    )?;
    Ok(())
}

/// What comes first of a clash and a bad value.
#[test]
fn faults_that_clash(rt: HostRuntime) -> Result<(), Fail> {
    expect_faults(
        &rt,
        &[
            ("length = 3\np = 0.5", "BadValue { key: P }"),
            (
                "length = 3\nscheme = [1]\nq = \"1\"",
                "Clash { key: Scheme }",
            ),
            (
                "length = 3\nscheme = [1]\np = \"1\"\nfrom = 1",
                "Clash { key: From }",
            ),
            (
                "length = 3\nfrom = 1\nwalkers = \"each\"",
                "Clash { key: From }",
            ),
            ("length = 3\nfrom = 1\nq = 0", "BadValue { key: Q }"),
            ("length = 3\nq = \"0/7\"\np = 0", "BadValue { key: P }"),
        ],
    )?;
    Ok(())
}

/// Lengths and walkers of a wrong kind or out of range.
#[test]
fn faults_of_walkers(rt: HostRuntime) -> Result<(), Fail> {
    expect_faults(
        &rt,
        &[
            ("length.x = 3", "BadValue { key: Length }"),
            ("length = {x = 3}", "BadValue { key: Length }"),
            ("length = 2026-11-30", "BadValue { key: Length }"),
            ("length = '3'", "BadValue { key: Length }"),
            ("length = 1048577", "BadValue { key: Length }"),
            ("length = -1", "BadValue { key: Length }"),
            (
                "length = 3\nwalkers = 16777217",
                "BadValue { key: Walkers }",
            ),
            (
                "length = 3\nwalkers = \"Each\"",
                "BadValue { key: Walkers }",
            ),
            (
                "length = 3\nwalkers = 3\nfrom = 4294967296",
                "BadValue { key: From }",
            ),
        ],
    )?;
    Ok(())
}

/// Coins and rules of a wrong kind or out of range.
#[test]
fn faults_of_rules(rt: HostRuntime) -> Result<(), Fail> {
    expect_faults(
        &rt,
        &[
            ("length = 3\nweighted = 1", "BadValue { key: Weighted }"),
            (
                "length = 3\nundirected = \"true\"",
                "BadValue { key: Undirected }",
            ),
            ("length = 3\nretries = 1001", "BadValue { key: Retries }"),
            ("length = 3\nstop = 2", "BadValue { key: Stop }"),
            (
                "length = 3\nrestart = \"\"\"\n1/2\n\"\"\"",
                "BadValue { key: Restart }",
            ),
            ("length = 3\nscheme = []", "BadValue { key: Scheme }"),
            ("length = 3\nscheme = [256]", "BadValue { key: Scheme }"),
            ("length = 3\nscheme = [1, '1']", "BadValue { key: Scheme }"),
            (
                "length = 3\nscheme = [1,1,1,1,1,1,1,1,1,1,1,1,1,1,1,1,1]",
                "BadValue { key: Scheme }",
            ),
            ("length = 3\nq = 1000001", "BadValue { key: Q }"),
        ],
    )?;
    Ok(())
}

#[test]
fn odd_bytes(rt: HostRuntime) -> Result<(), Fail> {
    expect_answer(&rt, b"length = 3 # \xFF", "Err(Text)")?;
    let blank = vec![in rt.alloc(); b'#'; 65536]?;
    expect_answer(&rt, &blank, "Err(Missing { key: Length })")?;
    Ok(())
}

#[test]
fn fractions(rt: HostRuntime) -> Result<(), Fail> {
    for (text, top, bottom) in [
        ("1/2", 1, 2),
        ("2/4", 1, 2),
        ("0.25", 1, 4),
        ("0/7", 0, 1),
        ("007", 7, 1),
        ("2000000/2", 1000000, 1),
        ("9999999/9999999", 1, 1),
        ("0.000001", 1, 1000000),
        ("1000000.000000", 1000000, 1),
    ] {
        let fraction = read_fraction(text.as_bytes()).map(|f| (f.top, f.bottom));
        assert!(rt; fraction == Some((top, bottom)), "{text}");
    }
    for text in [
        "",
        ".",
        "/",
        "1/0",
        "1.",
        ".5",
        "-1",
        "+1",
        " 1",
        "1 ",
        "1e3",
        "1/2/3",
        "1.2.3",
        "1/2.5",
        "1000001",
        "1/1000001",
        "10000000/10000000",
        "0.0000001",
        "9999999.999999",
        "1_0",
        "0x1",
    ] {
        assert!(rt; read_fraction(text.as_bytes()).is_none(), "{text}");
    }
    Ok(())
}
