use super::*;
use std::test::Fail;

#[test]
fn two_return_edges(rt: HostRuntime) -> Result<(), Fail> {
    assert_eq!(rt; strip_area(2, 5, 12), 120);
    for z in 0..10u64 {
        let edge = if z < 4 { 0 } else { 1 };
        assert_eq!(rt; strip_pick(&[2, 3], 2, u128::from(z)), edge);
    }
    Ok(())
}

#[test]
fn wide_places(rt: HostRuntime) -> Result<(), Fail> {
    // 2^62 and 2^63 for each of 2^10 columns
    let weights = [4611686018427387904, 9223372036854775808];
    for (z, edge) in [(4722366482869645213695, 0), (4722366482869645213696, 1)] {
        assert_eq!(rt; strip_pick(&weights, 1024, z), edge);
    }
    Ok(())
}
