ghost use Rattle.std.specs.Prelude.{◌≤◌, ◌<◌, ◌^◌};

use super::*;
use std::process::Abort;
use std::test::Fail;

/// Asserts the factors of a table, the greatest and the least of them, and those of the later classes.
fn expect_table<const K: usize, R: Abort>(
    rt: &R,
    table: &FactorTable<K>,
    factors: &[u64],
    all: (u64, u64),
    others: (u64, u64),
) {
    assert_eq!(rt; factors.len(), K);
    for class in 0..K {
        assert_eq!(rt; table.factor(class), factors[class]);
    }
    assert_eq!(rt; (table.greatest(), table.least()), all);
    assert_eq!(rt; (table.greatest_from(0), table.least_from(0)), all);
    assert_eq!(rt; (table.greatest_from(1), table.least_from(1)), others);
    assert_eq!(rt; (table.greatest_from(K), table.least_from(K)), (0, 0));
}

#[test]
fn tables(rt: HostRuntime) -> Result<(), Fail> {
    expect_table(&rt, &FactorTable::new([7]), &[7], (7, 7), (0, 0));
    expect_table(&rt, &FactorTable::new([1, 0]), &[1, 0], (1, 0), (0, 0));
    expect_table(
        &rt,
        &FactorTable::new([16, 4, 1]),
        &[16, 4, 1],
        (16, 1),
        (4, 1),
    );
    expect_table(
        &rt,
        &FactorTable::new([1, 4, 16]),
        &[1, 4, 16],
        (16, 1),
        (16, 4),
    );
    expect_table(
        &rt,
        &FactorTable::new([1 << 40, 0, 0, 3]),
        &[1 << 40, 0, 0, 3],
        (1 << 40, 0),
        (3, 0),
    );
    Ok(())
}

/// Which of two tables serves.
enum Choice {
    Plain,
    Typed,
}

/// The factor of an edge in a row of three, by its class.
fn factor_at(choice: &Choice, edge: usize) -> u64
    requires { edge < 3 }
    ensures { result ≤ 2 ^ 40 }
{
    let one = FactorTable::new([5]);
    let three = FactorTable::new([1, 2, 3]);
    each_class!(choice => {
        Choice::Plain => (&one, OneClass { len: 3 }),
        Choice::Typed => (&three, OneClass { len: 7 }),
    } |factors, classes| match classes.known(edge) {
        Some(class) => factors.factor(class),
        None => 0,
    })
}

#[test]
fn cases(rt: HostRuntime) -> Result<(), Fail> {
    assert_eq!(rt; factor_at(&Choice::Plain, 2), 5);
    assert_eq!(rt; factor_at(&Choice::Typed, 2), 1);
    Ok(())
}

#[test]
fn one_class(rt: HostRuntime) -> Result<(), Fail> {
    let classes = OneClass { len: 3 };
    for place in 0..3 {
        assert_eq!(rt; classes.known(place), Some(0));
        assert_eq!(rt; classes.class_at(place), 0);
    }
    assert_eq!(rt; classes.back(), None);
    Ok(())
}
