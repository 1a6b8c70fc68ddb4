//! Sets of classes.
use std::test::Fail;
use terms::ClassSet;

fn full() -> ClassSet {
    ClassSet::from_bits(u64::MAX)
}

#[test]
fn the_empty_set(rt: HostRuntime) {
    let none = ClassSet::empty();
    assert!(rt; none.is_empty());
    assert_eq!(rt; none.bits(), 0);
    assert_eq!(rt; none.len(), 0);
    assert_eq!(rt; none.highest(), None);
    for class in 0..=255 {
        assert!(rt; !none.contains(class), "{}", class);
    }
}

/// No set has a class from 64 up, not even the full one.
#[test]
fn the_full_set(rt: HostRuntime) {
    assert_eq!(rt; full().len(), 64);
    assert_eq!(rt; full().highest(), Some(63));
    assert_eq!(rt; full().bits(), u64::MAX);
    assert!(rt; full().contains(0));
    assert!(rt; full().contains(63));
    assert!(rt; !full().contains(64));
    assert!(rt; !full().contains(127));
    assert!(rt; !full().contains(255));
}

#[test]
fn below_a_count(rt: HostRuntime) {
    assert!(rt; ClassSet::empty().is_below(0));
    assert!(rt; !ClassSet::single(0).is_below(0));
    assert!(rt; ClassSet::single(0).is_below(1));
    assert!(rt; !ClassSet::from_bits(0b101).is_below(2));
    assert!(rt; ClassSet::from_bits(0b101).is_below(3));
    assert!(rt; !full().is_below(63));
    assert!(rt; full().is_below(64));
    assert!(rt; full().is_below(255));
}

#[test]
fn highest_and_len(rt: HostRuntime) {
    assert_eq!(rt; ClassSet::from_bits(0b1011).highest(), Some(3));
    assert_eq!(rt; ClassSet::from_bits(0b1011).len(), 3);
    assert_eq!(rt; full().without(63).highest(), Some(62));
    assert_eq!(rt; full().without(5).len(), 63);
    assert_eq!(rt; ClassSet::single(0).highest(), Some(0));
}

#[test]
fn going_through_some(rt: HostRuntime) -> Result<(), Fail> {
    let set = ClassSet::from_bits(0x8000_0001_0000_0029);
    let all: Vec<u8> = set.classes().collect(rt.alloc())?;
    assert_eq!(rt; all.as_slice(), [0, 3, 5, 32, 63].as_slice());
    let ends = ClassSet::single(63).with(0);
    let ends: Vec<u8> = ends.classes().collect(rt.alloc())?;
    assert_eq!(rt; ends.as_slice(), [0, 63].as_slice());
    Ok(())
}

#[test]
fn going_through_none_and_all(rt: HostRuntime) -> Result<(), Fail> {
    let none: Vec<u8> = ClassSet::empty().classes().collect(rt.alloc())?;
    assert!(rt; none.is_empty());
    let all: Vec<u8> = full().classes().collect(rt.alloc())?;
    assert_eq!(rt; all.len(), 64);
    for (i, class) in all.iter().enumerate() {
        assert_eq!(rt; usize::from(*class), i);
    }
    Ok(())
}
