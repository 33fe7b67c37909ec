ghost use Rattle.std.specs.Prelude.{◌<◌, IsTrue, length};
ghost use Rattle.std.specs.List.Sorted.{IsNonDecreasing};

use super::*;
use csr_store::OutEdge;
use factor_table::{Classes, FactorTable, OneClass, RowClasses, each_class};
use std::process::Abort;
use std::test::Fail;
use walk_model::Fraction;

/// Asserts the factors of the three classes, and the zone.
fn expect_factors<R: Abort>(rt: &R, p: Fraction, q: Fraction, all: [u64; 3], between: (u64, u64)) {
    assert!(rt; p.top >= 1 && q.top >= 1);
    let factors = node_factors(p, q);
    assert_eq!(rt;
        [factors.factor(0), factors.factor(1), factors.factor(2)],
        all
    );
    assert_eq!(rt; zone(&factors), between);
}

#[test]
fn factors_of_fractions(rt: HostRuntime) -> Result<(), Fail> {
    expect_factors(
        &rt,
        Fraction::of(1, 4),
        Fraction::of(4, 1),
        [16, 4, 1],
        (1, 4),
    );
    expect_factors(
        &rt,
        Fraction::of(4, 1),
        Fraction::of(1, 4),
        [1, 4, 16],
        (4, 16),
    );
    expect_factors(
        &rt,
        Fraction::of(1, 1),
        Fraction::of(1, 1),
        [1, 1, 1],
        (1, 1),
    );
    let thousandth = Fraction::of(1, 1000);
    expect_factors(
        &rt,
        thousandth,
        Fraction::of(1000, 1),
        [1000000, 1000, 1],
        (1, 1000),
    );
    Ok(())
}

#[test]
fn classes(rt: HostRuntime) -> Result<(), Fail> {
    let cases = [
        (3, 3, true, 0),
        (3, 3, false, 0),
        (4, 3, true, 1),
        (4, 3, false, 2),
    ];
    for (x, back, near, class) in cases {
        assert_eq!(rt; class_of(x, back, near), class);
    }
    Ok(())
}

/// An edge of weight 1 and type 0.
fn edge(dst: u32) -> OutEdge {
    OutEdge {
        dst,
        kind: 0,
        weight: 1,
    }
}

#[test]
fn known_classes(rt: HostRuntime) -> Result<(), Fail> {
    let row = [edge(2), edge(3), edge(3), edge(7)];
    let classes = NodeClasses { row: &row, back: 3 };
    let cases = [(0, None), (1, Some(0)), (2, Some(0)), (3, None)];
    for (place, class) in cases {
        assert!(rt; place < row.len());
        assert_eq!(rt; classes.known(place), class);
    }
    Ok(())
}

/// The greatest factor of the table that serves a step, and whether an edge's class is known.
fn outlook(
    row: &[OutEdge],
    previous: Option<u32>,
    factors: &FactorTable<3>,
    edge: usize,
) -> (u64, bool)
    requires { edge < length row.now }
{
    let one = FactorTable::new([1]);
    each_class!(previous => {
        None => (&one, OneClass { len: row.len() }),
        Some(back) => (factors, NodeClasses { row, back }),
    } |table, classes| (table.greatest(), classes.known(edge).is_some()))
}

#[test]
fn one_body_for_both_tables(rt: HostRuntime) -> Result<(), Fail> {
    let factors = FactorTable::new([16, 4, 1]);
    let row = [edge(2), edge(3)];
    let cases = [
        (None, 0, (1, true)),
        (Some(3), 0, (16, false)),
        (Some(3), 1, (16, true)),
    ];
    for (previous, place, expected) in cases {
        assert!(rt; place < row.len());
        assert_eq!(rt; outlook(&row, previous, &factors, place), expected);
    }
    Ok(())
}

/// The destinations of a row of twenty edges, some of them to the same vertex.
const LONG: [u32; 20] = [
    1, 3, 3, 5, 7, 9, 11, 13, 15, 17, 19, 21, 23, 23, 23, 25, 27, 29, 31, 40,
];

/// Whether destinations don't fall.
fn in_order(dsts: &[u32]) -> bool
    ensures { IsTrue result → IsNonDecreasing dsts.now }
{
    dsts.is_sorted()
}

/// Asserts which vertices are near, by the destinations of the row before.
fn expect_near<R: Abort>(rt: &R, before: &[u32], cases: &[(u32, bool)]) {
    assert!(rt; in_order(before));
    for (x, near) in cases {
        assert_eq!(rt; is_near(before, *x), *near);
    }
}

#[test]
fn near_vertices(rt: HostRuntime) -> Result<(), Fail> {
    expect_near(&rt, &[], &[(0, false), (7, false)]);
    expect_near(
        &rt,
        &[1, 3, 3, 9],
        &[
            (0, false),
            (1, true),
            (2, false),
            (3, true),
            (9, true),
            (10, false),
        ],
    );
    expect_near(
        &rt,
        &LONG,
        &[
            (0, false),
            (1, true),
            (3, true),
            (23, true),
            (24, false),
            (40, true),
            (41, false),
        ],
    );
    Ok(())
}

/// Asserts the runs of the edges back, where their factor rises and where it doesn't.
fn expect_runs<R: Abort>(rt: &R, dsts: &[u32], cases: &[(u32, (usize, usize))]) {
    assert!(rt; in_order(dsts));
    let rising = FactorTable::new([16, 4, 1]);
    let level = FactorTable::new([4, 1, 4]);
    for (back, run) in cases {
        assert_eq!(rt; return_run(&rising, dsts, *back), *run);
        assert_eq!(rt; return_run(&level, dsts, *back), (0, 0));
    }
}

#[test]
fn runs_back(rt: HostRuntime) -> Result<(), Fail> {
    expect_runs(&rt, &[], &[(3, (0, 0))]);
    expect_runs(
        &rt,
        &[2, 3, 3, 7],
        &[(1, (0, 0)), (3, (1, 3)), (4, (3, 3)), (7, (3, 4))],
    );
    expect_runs(
        &rt,
        &LONG,
        &[
            (0, (0, 0)),
            (3, (1, 3)),
            (4, (3, 3)),
            (23, (12, 15)),
            (40, (19, 20)),
            (41, (20, 20)),
        ],
    );
    Ok(())
}

#[test]
fn classes_by_destinations(rt: HostRuntime) -> Result<(), Fail> {
    let dsts = [2, 3, 3, 7, 8];
    let before = [2, 3, 8];
    assert!(rt; in_order(&before));
    let classes = NearClasses {
        dsts: &dsts,
        back: 3,
        before: &before,
        run: (1, 3),
    };
    let cases = [
        (0, None, 1),
        (1, Some(0), 0),
        (2, Some(0), 0),
        (3, None, 2),
        (4, None, 1),
    ];
    for (place, known, class) in cases {
        assert!(rt; place < dsts.len());
        assert_eq!(rt; classes.known(place), known);
        assert_eq!(rt; classes.class_at(place), class);
    }
    assert_eq!(rt; classes.back(), Some((1, 3)));
    Ok(())
}
