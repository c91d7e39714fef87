// A ring in use, and one with no room at all.
use crate::ring::Ring;
use std::test::Fail;

#[test]
fn goes_round(rt: HostRuntime) -> Result<(), Fail> {
    let mut ring: Ring<u8, 3> = Ring::from([1, 2, 3]);
    assert_eq!(rt; ring.push_back(4), Err(4));
    assert_eq!(rt; ring.pop_front(), Some(1));
    assert_eq!(rt; ring.push_back(4), Ok(()));
    assert_eq!(rt; ring.pop_back(), Some(4));
    assert_eq!(rt; ring.push_front(5), Ok(()));
    assert!(rt; ring.is_full() && ring.contains(&5) && !ring.contains(&1));
    let (front, back) = ring.as_slices();
    assert_eq!(rt; front.len() + back.len(), 3);
    ring.clear();
    assert!(rt; ring.is_empty());
    assert_eq!(rt; ring.pop_front(), None);
    Ok(())
}

#[test]
fn has_no_room(rt: HostRuntime) -> Result<(), Fail> {
    let mut ring: Ring<u64, 0> = Ring::new();
    assert_eq!(rt; ring.push_back(7), Err(7));
    assert_eq!(rt; ring.push_front(7), Err(7));
    assert_eq!(rt; ring.pop_back(), None);
    assert_eq!(rt; ring.len(), 0);
    Ok(())
}
