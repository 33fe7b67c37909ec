use super::*;
use std::test::Fail;
use walk_model::Edge;

fn edge(src: u32, dst: u32) -> Edge {
    Edge {
        src,
        dst,
        weight: 3,
        kind: 1,
    }
}

#[test]
fn names_of_one_edge(rt: HostRuntime) -> Result<(), Fail> {
    let mut edges = [edge(5, 9)];
    let names = Names::of(rt.alloc(), &edges)?;
    let count = names.len();
    assert_eq!(rt; count, 2);
    assert_eq!(rt; names.rank(5), Some(0));
    assert_eq!(rt; names.rank(9), Some(1));
    for id in [0, 4, 6, 8, 10, u32::MAX] {
        assert_eq!(rt; names.rank(id), None);
    }
    assert_eq!(rt; names.id(0), 5);
    assert_eq!(rt; names.id(1), 9);
    names.rename(&mut edges);
    let [only] = edges;
    assert!(rt; only.src == 0 && only.dst == 1 && only.weight == 3 && only.kind == 1);
    Ok(())
}

#[test]
fn far_and_close_ids(rt: HostRuntime) -> Result<(), Fail> {
    let far = [
        edge(7, 4_000_000_000),
        edge(4_000_000_001, 7),
        edge(90, 2_000_000_000),
    ];
    let names = Names::of(rt.alloc(), &far)?;
    for (rank, id) in [7, 90, 2_000_000_000, 4_000_000_000, 4_000_000_001]
        .iter()
        .enumerate()
    {
        assert_eq!(rt; names.rank(*id), Some(rank as u32));
    }
    assert_eq!(rt; names.rank(89), None);
    let close = [edge(8, 6), edge(7, 5)];
    let names = Names::of(rt.alloc(), &close)?;
    assert_eq!(rt; names.rank(7), Some(2));
    assert_eq!(rt; names.rank(9), None);
    let none = Names::of(rt.alloc(), &[])?;
    assert_eq!(rt; none.len(), 0);
    assert_eq!(rt; none.rank(0), None);
    Ok(())
}
