ghost use Rattle.std.specs.Prelude.{◌≡◌, ◌≤◌, ◌<◌, ◌^◌, length, drop, slice_index, Any};
ghost use Rattle.factor_table.specs.Factors.{greatest_of};
ghost use Rattle.dart_envelope.specs.Scans.{total_of};

use super::*;
use alias_table::AliasTable;
use factor_table::{Classes, FactorTable, OneClass};
use std::marker::Brand;
use std::process::Abort;
use std::sync::ledger::{Blank, Ledger};
use std::test::Fail;
use walk_model::{Memory, Steps};

/// The classes of a row as a list tells them.
#[derive(Clone, Copy)]
struct Listed<'a> {
    known: &'a [Option<usize>],
}

impl<'a> Classes for Listed<'a> {
    ghost known_classes = { λ row. row.known.now };

    fn known(&self, edge: usize) -> Option<usize> {
        self.known[edge]
    }
}

/// Asserts the area of a board and the verdicts of darts with some words.
fn expect_verdicts<C: Classes, L: Ledger, R: Abort, const K: usize>(
    rt: &R,
    board: &Board<C, K>,
    area: u64,
    cases: &[(u64, Verdict)],
    steps: &mut Steps<L>,
) {
    let places = board.area();
    assert_eq!(rt; places, area);
    for (word, verdict) in cases {
        let found = board.throw(*word, steps);
        assert_eq!(rt; found, *verdict);
    }
}

fn no_word_misses<L: Ledger, R: Abort + AllocGlobal>(
    rt: &R,
    steps: &mut Steps<L>,
) -> Result<(), Memory> {
    let table = AliasTable::build(rt.alloc(), &[1152921504606846976, 1152921504606846976])?;
    let factors = FactorTable::new([1]);
    let classes = OneClass { len: 2 };
    let board = Board::new(&table, &factors, &classes, None);
    expect_verdicts(
        rt,
        &board,
        4611686018427387904,
        &[
            (0, Verdict::Take { edge: 0 }),
            (2305843009213693952, Verdict::Take { edge: 1 }),
            (18446744073709551615, Verdict::Take { edge: 1 }),
        ],
        steps,
    );
    Ok(())
}

fn one_edge<L: Ledger, R: Abort + AllocGlobal>(rt: &R, steps: &mut Steps<L>) -> Result<(), Memory> {
    let table = AliasTable::build(rt.alloc(), &[1])?;
    let factors = FactorTable::new([1]);
    let classes = OneClass { len: 1 };
    let board = Board::new(&table, &factors, &classes, None);
    let taken = Verdict::Take { edge: 0 };
    let cases = [(0, taken), (7, taken), (18446744073709551615, taken)];
    expect_verdicts(rt, &board, 1, &cases, steps);
    Ok(())
}

fn classes_without_a_return<L: Ledger, R: Abort + AllocGlobal>(
    rt: &R,
    steps: &mut Steps<L>,
) -> Result<(), Memory> {
    let table = AliasTable::build(rt.alloc(), &[5, 4, 1])?;
    let factors = FactorTable::new([0, 2, 3]);
    let classes = Listed {
        known: &[Some(0), Some(1), Some(2)],
    };
    let board = Board::new(&table, &factors, &classes, None);
    expect_verdicts(
        rt,
        &board,
        90,
        &[
            (0, Verdict::Turned),
            (18446744073709551599, Verdict::Turned),
            (18446744073709551600, Verdict::Miss),
            (18446744073709551615, Verdict::Miss),
        ],
        steps,
    );
    let shares = [(0, 0), (24, 4919131752989213760), (9, 1844674407370955160)];
    expect_shares(rt, &board, &[0, 1, 2], &shares, steps);
    Ok(())
}

fn a_return_edge<L: Ledger, R: Abort + AllocGlobal>(
    rt: &R,
    steps: &mut Steps<L>,
) -> Result<(), Memory> {
    let table = AliasTable::build(rt.alloc(), &[1, 1, 1])?;
    let factors = FactorTable::new([16, 4, 1]);
    let classes = Listed {
        known: &[Some(0), None, None],
    };
    let board = Board::new(&table, &factors, &classes, Some((0, 1)));
    expect_verdicts(
        rt,
        &board,
        72,
        &[
            (0, Verdict::Take { edge: 0 }),
            (11, Verdict::Take { edge: 0 }),
            (12, Verdict::Take { edge: 1 }),
            (13, Verdict::Need { edge: 1, height: 1 }),
            (24, Verdict::Take { edge: 2 }),
            (25, Verdict::Need { edge: 2, height: 1 }),
            (36, Verdict::Take { edge: 0 }),
            (71, Verdict::Take { edge: 0 }),
            (18446744073709551600, Verdict::Miss),
        ],
        steps,
    );
    let near = board.settle(1, 1, 1);
    assert!(rt; near);
    let far = board.settle(2, 1, 2);
    assert!(rt; !far);
    let shares = [
        (48, 12297829382473034400),
        (12, 3074457345618258600),
        (3, 768614336404564650),
    ];
    expect_shares(rt, &board, &[0, 1, 2], &shares, steps);
    Ok(())
}

fn two_return_edges<L: Ledger, R: Abort + AllocGlobal>(
    rt: &R,
    steps: &mut Steps<L>,
) -> Result<(), Memory> {
    let table = AliasTable::build(rt.alloc(), &[2, 3])?;
    let factors = FactorTable::new([16, 4, 1]);
    let classes = Listed {
        known: &[Some(0), Some(0)],
    };
    let board = Board::new(&table, &factors, &classes, Some((0, 2)));
    // 40 places of the main part, and 120 of the strip: 12 for each of the 10 places of the columns
    expect_verdicts(
        rt,
        &board,
        160,
        &[
            (40, Verdict::Take { edge: 0 }),
            (87, Verdict::Take { edge: 0 }),
            (88, Verdict::Take { edge: 1 }),
            (159, Verdict::Take { edge: 1 }),
        ],
        steps,
    );
    Ok(())
}

fn a_run_behind_others<L: Ledger, R: Abort + AllocGlobal>(
    rt: &R,
    steps: &mut Steps<L>,
) -> Result<(), Memory> {
    let table = AliasTable::build(rt.alloc(), &[1, 1, 2])?;
    let factors = FactorTable::new([16, 4, 1]);
    let classes = Listed {
        known: &[None, Some(0), Some(0)],
    };
    let board = Board::new(&table, &factors, &classes, Some((1, 3)));
    // 48 places of the main part, and 108 of the strip: 36 for each unit of the two edges' weight
    expect_verdicts(
        rt,
        &board,
        156,
        &[
            (0, Verdict::Take { edge: 0 }),
            (1, Verdict::Need { edge: 0, height: 1 }),
            (15, Verdict::Take { edge: 2 }),
            (16, Verdict::Take { edge: 1 }),
            (47, Verdict::Take { edge: 2 }),
            (48, Verdict::Take { edge: 1 }),
            (83, Verdict::Take { edge: 1 }),
            (84, Verdict::Take { edge: 2 }),
            (155, Verdict::Take { edge: 2 }),
            (18446744073709551599, Verdict::Take { edge: 2 }),
            (18446744073709551600, Verdict::Miss),
        ],
        steps,
    );
    Ok(())
}

/// Asserts the area and verdicts of the board of three edges of weight 1, the first of them a return
/// edge, where the factor of the return class rises above no other and any run serves.
fn expect_flat<L: Ledger, R: Abort + AllocGlobal>(
    rt: &R,
    factors: &FactorTable<3>,
    run: (usize, usize),
    area: u64,
    cases: &[(u64, Verdict)],
    steps: &mut Steps<L>,
) -> Result<(), Memory>
    requires flat { slice_index factors.now 0 ≤ greatest_of (drop 1 factors.now) }
    requires other { Any (λ factor. 1 ≤ factor) (drop 1 factors.now) }
    requires low { greatest_of factors.now ≤ 16 }
    requires run { (run.0 ≤ run.1) × (run.1 ≤ 3) }
{
    let table = AliasTable::build(rt.alloc(), &[1, 1, 1])?;
    let classes = Listed {
        known: &[Some(0), None, None],
    };
    let board = Board::new(&table, factors, &classes, Some(run));
    expect_verdicts(rt, &board, area, cases, steps);
    Ok(())
}

fn boards_that_do_not_rise<L: Ledger, R: Abort + AllocGlobal>(
    rt: &R,
    steps: &mut Steps<L>,
) -> Result<(), Memory> {
    // 48 places an edge, 16 a unit of the columns; heights 1 to 3 need no class
    let low = [
        (0, Verdict::Take { edge: 0 }),
        (1, Verdict::Turned),
        (47, Verdict::Turned),
        (48, Verdict::Take { edge: 1 }),
        (49, Verdict::Take { edge: 1 }),
        (50, Verdict::Take { edge: 1 }),
        (51, Verdict::Take { edge: 1 }),
        (52, Verdict::Need { edge: 1, height: 4 }),
        (97, Verdict::Take { edge: 2 }),
        (99, Verdict::Take { edge: 2 }),
        (100, Verdict::Need { edge: 2, height: 4 }),
        (
            18446744073709551599,
            Verdict::Need {
                edge: 2,
                height: 15,
            },
        ),
        (18446744073709551600, Verdict::Miss),
    ];
    let factors = FactorTable::new([1, 4, 16]);
    expect_flat(rt, &factors, (0, 0), 144, &low, steps)?;
    expect_flat(rt, &factors, (1, 3), 144, &low, steps)?;
    // as high as the others: 12 places an edge
    let even = [
        (3, Verdict::Take { edge: 0 }),
        (11, Verdict::Take { edge: 0 }),
        (12, Verdict::Take { edge: 1 }),
        (13, Verdict::Need { edge: 1, height: 1 }),
        (35, Verdict::Need { edge: 2, height: 3 }),
        (36, Verdict::Take { edge: 0 }),
    ];
    let factors = FactorTable::new([4, 4, 1]);
    expect_flat(rt, &factors, (0, 0), 36, &even, steps)
}

/// The edge that a dart takes, where the edges have these classes.
fn taken<C: Classes, L: Ledger, const K: usize>(
    board: &Board<C, K>,
    classes: &[usize],
    word: u64,
    steps: &mut Steps<L>,
) -> Option<usize> {
    match board.throw(word, steps) {
        Verdict::Take { edge } => Some(edge),
        Verdict::Need { edge, height } => match classes.get(edge) {
            Some(class) if *class < K && board.settle(edge, height, *class) => Some(edge),
            _ => None,
        },
        Verdict::Miss | Verdict::Turned => None,
    }
}

/// How many of the words below the area of a board take an edge: one word for each place.
fn places_of<C: Classes, L: Ledger, const K: usize>(
    board: &Board<C, K>,
    classes: &[usize],
    edge: usize,
    steps: &mut Steps<L>,
) -> u64 {
    let mut count = 0u64;
    for word in 0..board.area() {
        if taken(board, classes, word, steps) == Some(edge) {
            count = count.saturating_add(1);
        }
    }
    count
}

/// Asserts how many places of a board take each edge, and how many of all words.
fn expect_shares<C: Classes, L: Ledger, R: Abort, const K: usize>(
    rt: &R,
    board: &Board<C, K>,
    classes: &[usize],
    shares: &[(u64, u64)],
    steps: &mut Steps<L>,
) {
    let rounds = u64::MAX / board.area();
    for (edge, (places, words)) in shares.iter().enumerate() {
        let count = places_of(board, classes, edge, steps);
        assert_eq!(rt; count, *places);
        let of_all = count.checked_mul(rounds);
        assert_eq!(rt; of_all, Some(*words));
    }
}

/// Throws at each of the boards.
fn throw_at_all<L: Ledger, R: Abort + AllocGlobal>(rt: &R, blank: Blank) -> Result<(), Memory>
    requires name { blank.name ≡ L.name }
    requires parts { blank.parts ≡ L.parts }
    requires some { 0 < blank.parts }
{
    let mut steps = Steps::<L>::new(blank);
    one_edge(rt, &mut steps)?;
    no_word_misses(rt, &mut steps)?;
    classes_without_a_return(rt, &mut steps)?;
    a_return_edge(rt, &mut steps)?;
    two_return_edges(rt, &mut steps)?;
    a_run_behind_others(rt, &mut steps)?;
    boards_that_do_not_rise(rt, &mut steps)
}

#[test]
fn throws(rt: HostRuntime) -> Result<(), Fail> {
    throw_at_all::<Brand, HostRuntime>(&rt, Blank::new(1))?;
    Ok(())
}

/// Asserts the total of a scan and the edges that it gives below that.
fn expect_scans<R: Abort>(
    rt: &R,
    weights: &[u64],
    factors: &[u64],
    total: u64,
    cases: &[(u64, Option<usize>)],
)
    requires same { length factors.now ≡ length weights.now }
    requires fits { total_of weights.now factors.now ≤ 2 ^ 62 }
{
    let found = scan_total(weights, |edge| factors[edge]);
    assert_eq!(rt; found, total);
    for (z, edge) in cases {
        if *z < found || found == 0 {
            let first = scan(weights, |edge| factors[edge], *z);
            assert_eq!(rt; first, *edge);
        }
    }
}

#[tactic(auto, unfolding(walk_model::specs::Lists::products))]
#[test]
fn scans(rt: HostRuntime) -> Result<(), Fail> {
    expect_scans(
        &rt,
        &[1, 1, 1],
        &[16, 4, 1],
        21,
        &[
            (0, Some(0)),
            (15, Some(0)),
            (16, Some(1)),
            (19, Some(1)),
            (20, Some(2)),
        ],
    );
    expect_scans(&rt, &[1, 1, 1], &[0, 0, 0], 0, &[(0, None)]);
    Ok(())
}
