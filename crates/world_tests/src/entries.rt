//! Entry tables: which open, and what their links mean.
use crate::showing::*;
use std::alloc::{AllocError, Global};
use std::process::Abort;
use std::test::Fail;
use terms::Fault;
use worlds::{EntryTable, Link};

/// Entries on both sides of the ends of words of 64, and of 256.
const ELEMENTS: [u32; 9] = [0, 1, 63, 64, 127, 255, 256, 4094, 4095];

/// What opening these is refused with, if it is.
fn opening<'x>(classes: &'x [u64], links: &'x [Link]) -> Option<Fault> {
    let mut world = EntryTable::new();
    world.open(classes, links).err()
}

/// What opening so many entries is refused with, if it is, with a link so many times and then another.
fn told(
    heap: Global,
    entries: usize,
    link: Link,
    times: usize,
    last: Link,
) -> Result<Option<Fault>, AllocError> {
    let classes = vec![in heap; 0; entries]?;
    let mut links = vec![in heap; link; times]?;
    links.push(last)?;
    Ok(opening(classes.as_slice(), links.as_slice()))
}

/// The counts are checked before the links.
#[test]
fn sizes(rt: HostRuntime) -> Result<(), Fail> {
    let heap = rt.alloc();
    assert_eq!(rt; opening(&[], &[]), refused(12));
    assert_eq!(rt; opening(&[0], &[]), refused(0));
    let good = link(0, 0, 0);
    let bad = link(4097, 16, 4097);
    let cases = [
        (0, good, 0, 12),
        (4096, good, 0, 0),
        (4097, good, 0, 12),
        (1, good, 16383, 0),
        (1, good, 16384, 12),
        (4096, good, 16383, 0),
        (4096, good, 16384, 12),
        (4097, good, 16384, 12),
        (0, bad, 0, 12),
        (4097, bad, 0, 12),
        (1, bad, 16384, 12),
        (1, bad, 16383, 13),
        (4096, bad, 0, 13),
    ];
    for (entries, link, times, number) in cases {
        assert_eq!(rt;
            told(heap, entries, link, times, link)?,
            refused(number),
            "{entries} entries, {times} links and one"
        );
    }
    Ok(())
}

/// A link that does not fit is found wherever it stands.
#[test]
fn ends_and_roles(rt: HostRuntime) -> Result<(), Fail> {
    let heap = rt.alloc();
    let good = link(2, 15, 2);
    let cases = [
        (3, good, 0),
        (3, link(3, 0, 0), 13),
        (3, link(0, 0, 3), 13),
        (3, link(0, 16, 0), 13),
        (3, link(0, 255, 0), 13),
        (3, link(u32::MAX, 0, 0), 13),
        (3, link(0, 0, u32::MAX), 13),
        (3, link(65536, 0, 0), 13),
        (3, link(0, 0, 65536), 13),
        (4096, link(4095, 15, 4095), 0),
        (4096, link(4096, 0, 0), 13),
        (4096, link(0, 0, 4096), 13),
    ];
    for (entries, link, number) in cases {
        for times in [0, 1, 300] {
            assert_eq!(rt;
                told(heap, entries, good, times, link)?,
                refused(number),
                "{link:?} last of {entries} entries"
            );
            assert_eq!(rt;
                told(heap, entries, link, times, good)?,
                refused_if(number, times),
                "{link:?} first of {entries} entries"
            );
        }
    }
    Ok(())
}

/// The refusal with the number where the link is there at all.
fn refused_if(number: u8, times: usize) -> Option<Fault> {
    if times == 0 { None } else { refused(number) }
}

/// A world of 4,096 entries, all in class 1, with one link by role 0 shows it, and axioms are broken by the entry that it is from.
fn shows_link<'x>(
    rt: &impl Abort,
    classes: &'x [u64],
    links: &'x [Link],
    from: u32,
) -> Result<(), Fail> {
    let mut world = EntryTable::new();
    world.open(classes, links)?;
    assert!(rt; shows(&world, &ELEMENTS, classes, links), "{links:?}");
    for axiom in [roles(0, 1), forall(1, 0, 2), exists_lower(0, 1, 2)] {
        assert_eq!(rt; found(&[axiom], &world)?, broken(0, from));
    }
    for axiom in [roles(1, 0), forall(1, 0, 1), exists_lower(0, 2, 3)] {
        assert_eq!(rt; found(&[axiom], &world)?, None);
    }
    let without = if from == 0 { 1 } else { 0 };
    assert_eq!(rt; found(&[exists(1, 0, 1)], &world)?, broken(0, without));
    Ok(())
}

#[test]
fn links_between_any_entries(rt: HostRuntime) -> Result<(), Fail> {
    let classes = vec![in rt.alloc(); 2; 4096]?;
    for from in ELEMENTS {
        for to in ELEMENTS {
            shows_link(&rt, classes.as_slice(), &[link(from, 0, to)], from)?;
        }
    }
    Ok(())
}

/// A link may be there more than once, with the same ends by several roles, and links of one entry among those of others.
#[test]
fn lists_of_links(rt: HostRuntime) -> Result<(), Fail> {
    let classes = [1, 2, 3, 4];
    let mixed = [
        link(2, 0, 1),
        link(0, 0, 1),
        link(1, 1, 1),
        link(0, 3, 1),
        link(0, 0, 1),
        link(2, 15, 0),
        link(0, 15, 1),
        link(1, 1, 2),
        link(2, 0, 3),
        link(0, 0, 3),
        link(1, 0, 0),
        link(2, 0, 1),
    ];
    let mut world = EntryTable::new();
    world.open(&classes, &mixed)?;
    assert!(rt; shows(&world, &[0, 1, 2, 3], &classes, &mixed));
    let axioms = [
        (roles(3, 0), None),
        (roles(3, 15), None),
        (roles(15, 3), broken(0, 2)),
        (roles(0, 15), broken(0, 0)),
        (forall(2, 0, 3), None),
        (forall(0, 15, 1), broken(0, 2)),
        (exists(0, 0, 2), None),
        (exists(1, 1, 0), broken(0, 2)),
        (exists_lower(15, 1, 0), None),
        (exists_lower(0, 2, 1), broken(0, 0)),
    ];
    for (axiom, wanted) in axioms {
        assert_eq!(rt; found(&[axiom], &world)?, wanted, "{axiom:?}");
    }
    Ok(())
}
