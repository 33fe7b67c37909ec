ghost use Rattle.std.specs.Prelude.{◌≡◌, ◌<◌};
ghost use Rattle.alias_table.specs.Columns.{IsRow};

use super::*;
use std::marker::Brand;
use std::process::Abort;
use std::sync::ledger::{Blank, Ledger};
use std::test::Fail;
use walk_model::{Memory, Steps};

/// Asserts the own parts and the other items of a row, and answers its table.
fn expect_columns<R: Abort + AllocGlobal>(
    rt: &R,
    weights: &[u64],
    owns: &[u128],
    others: &[Option<usize>],
) -> Result<AliasTable, Memory>
    requires { IsRow weights.now }
{
    let table = AliasTable::build(rt.alloc(), weights)?;
    assert!(rt; table.weights() == weights);
    assert_eq!(rt; table.len(), owns.len());
    assert_eq!(rt; table.len(), others.len());
    for column in 0..table.len() {
        assert_eq!(rt; table.own(column), owns[column]);
        assert_eq!(rt; table.alias(column), others[column]);
    }
    Ok(table)
}

/// How many of the 30 places from one on pick each of the first three items.
fn tally<L: Ledger>(table: &AliasTable, first: u64, blank: Blank) -> [u64; 3]
    requires name { blank.name ≡ L.name }
    requires parts { blank.parts ≡ L.parts }
    requires some { 0 < blank.parts }
{
    let mut steps = Steps::<L>::new(blank);
    let mut counts = [0u64; 3];
    for place in first..first.saturating_add(30) {
        let place = u128::from(place);
        if place < table.sum() * table.len() as u128 {
            let item = table.pick(place, &mut steps);
            if item < 3 {
                counts[item] = counts[item].saturating_add(1);
            }
        }
    }
    counts
}

/// Asserts what words leave when they are divided by the number of all places, where that fits 64 bits.
fn expect_rests<R: Abort + AllocGlobal>(rt: &R, table: &AliasTable, rests: &[(u64, u64)]) {
    assert!(rt; table.sum() * table.len() as u128 <= 0xffff_ffff_ffff_ffff);
    for (word, rest) in rests {
        assert_eq!(rt; table.rest(*word), *rest);
    }
}

#[test]
fn small_rows(rt: HostRuntime) -> Result<(), Fail> {
    let table = expect_columns(&rt, &[5, 4, 1], &[8, 10, 3], &[Some(1), None, Some(0)])?;
    assert_eq!(rt; tally::<Brand>(&table, 0, Blank::new(1)), [15, 12, 3]);
    assert_eq!(rt; table.column_for(29), 2);
    assert_eq!(rt; table.column_for(37), 0);
    assert_eq!(rt; table.column_for(18446744073709551615), 1);
    expect_rests(
        &rt,
        &table,
        &[(29, 29), (30, 0), (37, 7), (18446744073709551615, 15)],
    );
    let table = expect_columns(&rt, &[2, 2, 2], &[6, 6, 6], &[None, None, None])?;
    assert_eq!(rt; tally::<Brand>(&table, 0, Blank::new(1)), [6, 6, 6]);
    expect_columns(&rt, &[1, 2, 3], &[3, 6, 6], &[Some(2), None, None])?;
    expect_columns(
        &rt,
        &[5, 5, 1, 5],
        &[8, 12, 4, 16],
        &[Some(1), Some(3), Some(0), None],
    )?;
    expect_columns(
        &rt,
        &[3, 1, 3, 1],
        &[8, 4, 8, 4],
        &[None, Some(0), None, Some(2)],
    )?;
    Ok(())
}

/// The places of the first row just fit 32 bits, those of the second one just don't.
#[test]
fn rows_about_32_bits(rt: HostRuntime) -> Result<(), Fail> {
    let table = expect_columns(
        &rt,
        &[1431655763, 1, 1],
        &[1431655765, 3, 3],
        &[None, Some(0), Some(0)],
    )?;
    let counts = tally::<Brand>(&table, 1431655755, Blank::new(1));
    assert_eq!(rt; counts, [27, 3, 0]);
    let table = expect_columns(&rt, &[2147483647, 1], &[2147483648, 2], &[None, Some(0)])?;
    let counts = tally::<Brand>(&table, 2147483638, Blank::new(1));
    assert_eq!(rt; counts, [28, 2, 0]);
    Ok(())
}

#[test]
fn great_weights(rt: HostRuntime) -> Result<(), Fail> {
    let half = 1152921504606846976;
    let table = expect_columns(
        &rt,
        &[half, half],
        &[2 * u128::from(half), 2 * u128::from(half)],
        &[None, None],
    )?;
    assert_eq!(rt; table.sum(), 2305843009213693952);
    let table = expect_columns(
        &rt,
        &[half, half + 1],
        &[2305843009213693952, 2305843009213693953],
        &[Some(1), None],
    )?;
    assert_eq!(rt; table.sum(), 2305843009213693953);
    // the places of these need more than 64 bits
    let most = 4611686018427387903;
    let table = expect_columns(
        &rt,
        &[most, most, 1, most],
        &[
            4611686018427387906,
            9223372036854775808,
            4,
            13835058055282163710,
        ],
        &[Some(1), Some(3), Some(0), None],
    )?;
    let counts = tally::<Brand>(&table, 4611686018427387891, Blank::new(1));
    assert_eq!(rt; counts, [15, 15, 0]);
    Ok(())
}
