//! Worlds that are opened again: each shows the new world, or refuses it and stays as it was.
use crate::showing::*;
use std::process::Abort;
use std::test::Fail;
use terms::{Layer, Refusal};
use worlds::world::World;
use worlds::{EntryTable, Link, ModelTable};

/// The world has one element, in no class and with no link.
fn is_blank<W: World>(rt: &impl Abort, world: &W) -> Result<(), Fail> {
    assert!(rt; shows(world, &[0], &[0], &[]));
    let kept = [
        inclusion(1, 0),
        exists(0, 0, 0),
        exists_lower(0, 0, 1),
        forall(0, 0, 0),
        roles(0, 1),
    ];
    assert_eq!(rt; found(&kept, world)?, None);
    assert_eq!(rt; found(&[kept[0], inclusion(0, 1)], world)?, broken(1, 0));
    Ok(())
}

/// The world has an element in class 0 and one in class 1, and links them both ways by role 0.
fn is_pair<W: World>(rt: &impl Abort, world: &W) -> Result<(), Fail> {
    let links = [link(0, 0, 1), link(1, 0, 0)];
    assert!(rt; shows(world, &[0, 1], &[1, 2], &links));
    assert_eq!(rt;
        found(&[exists(0, 0, 1), roles(0, 1)], world)?,
        broken(1, 0)
    );
    assert_eq!(rt; found(&[exists_lower(0, 0, 1)], world)?, None);
    assert_eq!(rt; found(&[forall(1, 0, 1)], world)?, broken(0, 1));
    Ok(())
}

#[test]
fn new_worlds(rt: HostRuntime) -> Result<(), Fail> {
    let model = ModelTable::new();
    is_blank(&rt, &model)?;
    let entries = EntryTable::new();
    is_blank(&rt, &entries)
}

#[test]
fn model_tables(rt: HostRuntime) -> Result<(), Fail> {
    let pair = [1, 0b10, 0, 0, 0, 2, 0b01, 0, 0, 0];
    let other = [u64::MAX; 300];
    let mut world = ModelTable::new();
    assert_eq!(rt;
        world.open(&other, 0, 257),
        Err(Refusal::WorldSize.at(0, Layer::World))
    );
    is_blank(&rt, &world)?;
    world.open(&pair, 1, 2)?;
    is_pair(&rt, &world)?;
    let refusals = [
        (0, 0, Refusal::WorldSize),
        (0, 257, Refusal::WorldSize),
        (0, 301, Refusal::TableSize),
        (16, 5, Refusal::TableSize),
        (17, 1, Refusal::TableSize),
        (u32::MAX, u32::MAX, Refusal::TableSize),
    ];
    for (roles, size, kind) in refusals {
        assert_eq!(rt;
            world.open(&other, roles, size),
            Err(kind.at(0, Layer::World)),
            "{roles} roles, {size} elements"
        );
        is_pair(&rt, &world)?;
    }
    world.open(&other, 0, 3)?;
    assert!(rt; shows(&world, &[0, 1, 2], &[u64::MAX; 3], &[]));
    world.open(&pair, 1, 2)?;
    is_pair(&rt, &world)
}

/// A new entry table and one that shows the pair refuse these, and stay as they were.
fn stays<'x>(
    rt: &impl Abort,
    classes: &'x [u64],
    links: &'x [Link],
    pair: &'x [Link],
    kind: Refusal,
) -> Result<(), Fail> {
    let mut world = EntryTable::new();
    assert_eq!(rt; world.open(classes, links), Err(kind.at(0, Layer::World)));
    is_blank(rt, &world)?;
    world.open(&[1, 2], pair)?;
    is_pair(rt, &world)?;
    assert_eq!(rt; world.open(classes, links), Err(kind.at(0, Layer::World)));
    is_pair(rt, &world)
}

/// An entry table that shows the pair shows these once they are opened, and the pair again after it.
fn shows_in_turn<'x>(
    rt: &impl Abort,
    classes: &'x [u64],
    links: &'x [Link],
    pair: &'x [Link],
) -> Result<(), Fail> {
    let mut world = EntryTable::new();
    world.open(&[1, 2], pair)?;
    is_pair(rt, &world)?;
    world.open(classes, links)?;
    assert!(rt; shows(&world, &[0, 1, 2], classes, links));
    world.open(&[1, 2], pair)?;
    is_pair(rt, &world)
}

#[test]
fn entry_tables(rt: HostRuntime) -> Result<(), Fail> {
    let pair = [link(0, 0, 1), link(1, 0, 0)];
    let many = vec![in rt.alloc(); 4; 4097]?;
    let long = vec![in rt.alloc(); link(2, 1, 0); 16385]?;
    stays(&rt, &[], &[], &pair, Refusal::WorldSize)?;
    stays(
        &rt,
        many.as_slice(),
        &[link(2, 1, 0)],
        &pair,
        Refusal::WorldSize,
    )?;
    stays(&rt, &[4, 4, 4], long.as_slice(), &pair, Refusal::WorldSize)?;
    for last in [link(3, 1, 2), link(2, 1, 3), link(2, 16, 2)] {
        stays(
            &rt,
            &[4, 4, 4],
            &[link(2, 1, 2), last],
            &pair,
            Refusal::BadLink,
        )?;
    }
    shows_in_turn(&rt, &[4, 4, 4], &[link(2, 1, 0)], &pair)
}
