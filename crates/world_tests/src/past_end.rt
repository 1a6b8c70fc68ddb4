//! What both kinds of world answer at their last numbers and past them.
use crate::showing::*;
use std::process::Abort;
use std::test::Fail;
use terms::{Layer, Refusal};
use worlds::world::World;
use worlds::{EntryTable, Link, ModelTable};

/// Membership at the ends of a world of 65 elements, each in every class.
fn classes_end<W: World>(rt: &impl Abort, world: &W) {
    let past = Err(Refusal::PastEnd.at(0, Layer::World));
    assert_eq!(rt; world.is_in(0, 0), Ok(true));
    assert_eq!(rt; world.is_in(64, 63), Ok(true));
    for (element, class) in [
        (65, 0),
        (0, 64),
        (64, 64),
        (0, 255),
        (65, 64),
        (u32::MAX, 0),
    ] {
        assert_eq!(rt; world.is_in(element, class), past);
    }
    assert_eq!(rt; world.classes_of(64).bits(), u64::MAX);
    assert!(rt; world.classes_of(65).is_empty());
    assert!(rt; world.classes_of(u32::MAX).is_empty());
}

/// Links at the ends of a world of 65 elements, where role 15 links the last to itself.
fn links_end<W: World>(rt: &impl Abort, world: &W) {
    let past = Err(Refusal::PastEnd.at(0, Layer::World));
    assert_eq!(rt; world.links(15, 64, 64), Ok(true));
    assert_eq!(rt; world.links(15, 64, 0), Ok(false));
    assert_eq!(rt; world.links(0, 64, 64), Ok(false));
    let cases = [
        (16, 64, 64),
        (16, 0, 0),
        (255, 0, 0),
        (15, 65, 64),
        (15, 64, 65),
        (0, u32::MAX, 0),
        (0, 0, u32::MAX),
        (16, 65, 65),
    ];
    for (role, from, to) in cases {
        assert_eq!(rt; world.links(role, from, to), past);
        assert!(rt; !world.is_linked(role, from, to));
    }
}

/// Nothing past the last element has a successor, and roles from 16 up give none.
fn successors_end<W: World>(rt: &impl Abort, world: &W) {
    assert!(rt; world.some_successor(64, 15, 63));
    assert!(rt; world.every_successor(64, 15, 63));
    assert!(rt; !world.every_successor(64, 15, 64));
    assert!(rt; !world.successors_within(64, 15, 16));
    for (element, role) in [(65, 15), (u32::MAX, 15), (64, 16), (64, 255)] {
        assert!(rt; !world.some_successor(element, role, 0));
        assert!(rt; world.every_successor(element, role, 64));
        assert!(rt; world.successors_within(element, role, 14));
    }
    assert!(rt; !world.some_successor(64, 15, 64));
}

/// All that is said of a world of 65 elements, each in every class, with one link.
fn ends<W: World>(rt: &impl Abort, world: &W) -> Result<(), Fail> {
    assert_eq!(rt; world.size(), 65);
    classes_end(rt, world);
    links_end(rt, world);
    successors_end(rt, world);
    Ok(())
}

/// All that is said of such a world, of an entry table.
fn entries_end<'x>(rt: &impl Abort, classes: &'x [u64], links: &'x [Link]) -> Result<(), Fail> {
    let mut entries = EntryTable::new();
    entries.open(classes, links)?;
    ends(rt, &entries)
}

#[test]
fn both_kinds_end_alike(rt: HostRuntime) -> Result<(), Fail> {
    let classes = [u64::MAX; 65];
    let links = [link(64, 15, 64)];
    let words = rows(rt.alloc(), 16, &classes, &links)?;
    let mut model = ModelTable::new();
    model.open(words.as_slice(), 16, 65)?;
    ends(&rt, &model)?;
    entries_end(&rt, &classes, &links)
}
