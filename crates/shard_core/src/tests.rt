use super::*;
use crate::finishing::finish;
use std::alloc::Global;
use std::test::Fail;
use walk_model::{Memory, Print};

/// A list of prints, from walkers, steps and vertices.
fn prints_of(alloc: Global, prints: &[(u64, u32, u32)]) -> Result<Prints, Memory> {
    let mut list = Prints::new(alloc);
    for (walker, step, at) in prints {
        list.make_room(alloc, 1)?;
        list.push(Print {
            walker: *walker,
            step: *step,
            at: *at,
        });
    }
    Ok(list)
}

#[test]
fn walks_of_shuffled_prints(rt: HostRuntime) -> Result<(), Fail> {
    let alloc = rt.alloc();
    let first = prints_of(alloc, &[(2, 0, 8), (0, 1, 5), (1, 0, 7)])?;
    let second = prints_of(alloc, &[(2, 2, 4), (0, 0, 6), (2, 1, 9)])?;
    let walks = finish(alloc, vec![in alloc; first, second]?, &[2, 1, 3])?;
    assert_eq!(rt; walks.count(), 3);
    for (i, want) in [[6, 5].as_slice(), [7].as_slice(), [8, 9, 4].as_slice()]
        .iter()
        .enumerate()
    {
        let i = i as u64;
        assert!(rt; i < walks.count());
        assert_eq!(rt; walks.walk(i), *want);
    }
    Ok(())
}

#[test]
fn prints_of_no_walk(rt: HostRuntime) -> Result<(), Fail> {
    let alloc = rt.alloc();
    let none = finish(alloc, vec![in alloc; Prints::new(alloc)]?, &[])?;
    assert_eq!(rt; none.count(), 0);
    let others = prints_of(
        alloc,
        &[(0, 0, 3), (7, 0, 1), (0, 9, 2), (u64::MAX, u32::MAX, 5)],
    )?;
    let one = finish(alloc, vec![in alloc; others]?, &[1])?;
    assert_eq!(rt; one.count(), 1);
    assert!(rt; 0 < one.count());
    assert_eq!(rt; one.walk(0), [3].as_slice());
    Ok(())
}

#[test]
fn more_prints_than_a_piece(rt: HostRuntime) -> Result<(), Fail> {
    let alloc = rt.alloc();
    let mut prints = Prints::new(alloc);
    for step in 0..100_000u32 {
        prints.make_room(alloc, 16)?;
        prints.push(Print {
            walker: 0,
            step,
            at: step % 7,
        });
    }
    assert_eq!(rt; prints.len(), 100_000);
    for k in [0, 65_520, 65_521, 65_535, 65_536, 99_999] {
        assert!(rt; k < prints.len());
        assert_eq!(rt; u64::from(prints.get(k).step), k);
    }
    let walks = finish(alloc, vec![in alloc; prints]?, &[100_000])?;
    assert_eq!(rt; walks.count(), 1);
    assert!(rt; 0 < walks.count());
    let walk = walks.walk(0);
    assert_eq!(rt; walk.len(), 100_000);
    for (step, at) in walk.iter().enumerate() {
        assert_eq!(rt; *at as usize, step % 7);
    }
    Ok(())
}
