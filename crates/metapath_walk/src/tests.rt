use super::*;
use csr_store::OutEdge;
use factor_table::{Classes, RowClasses};
use std::test::Fail;
use walk_model::Kinds;

/// An edge of weight 1.
fn edge(dst: u32, kind: u8) -> OutEdge {
    OutEdge {
        dst,
        kind,
        weight: 1,
    }
}

#[test]
fn types_in_turn(rt: HostRuntime) -> Result<(), Fail> {
    let kinds = Kinds::of(vec![in rt.alloc(); 4u8, 5]?);
    let cases = [
        (0, 4),
        (1, 5),
        (2, 4),
        (3, 5),
        (1048575, 5),
        (4294967294, 4),
    ];
    for (phase, kind) in cases {
        assert_eq!(rt; wanted(&kinds, phase), kind);
    }
    Ok(())
}

#[test]
fn factors_of_a_row(rt: HostRuntime) -> Result<(), Fail> {
    let factors = scheme_factors();
    let row = [edge(1, 4), edge(2, 5), edge(2, 0)];
    let classes = SchemeClasses {
        row: &row,
        wanted: 5,
    };
    let cases = [(0, 1, 0), (1, 0, 1), (2, 1, 0)];
    for (place, class, factor) in cases {
        assert!(rt; place < row.len() && class < 2);
        assert_eq!(rt; classes.known(place), Some(class));
        assert_eq!(rt; class_of_type(row[place].kind, 5), class);
        assert_eq!(rt; factors.factor(class), factor);
    }
    assert_eq!(rt; (factors.greatest(), factors.least()), (1, 0));
    Ok(())
}

#[test]
fn classes_by_types(rt: HostRuntime) -> Result<(), Fail> {
    let kinds = [4u8, 5, 5, 0, 255];
    let classes = TypeClasses {
        kinds: &kinds,
        wanted: 5,
    };
    let cases = [(0, 1), (1, 0), (2, 0), (3, 1), (4, 1)];
    for (place, class) in cases {
        assert!(rt; place < kinds.len());
        assert_eq!(rt; classes.known(place), Some(class));
        assert_eq!(rt; classes.class_at(place), class);
    }
    assert_eq!(rt; classes.back(), None);
    Ok(())
}
