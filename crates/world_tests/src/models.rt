//! Model tables: which open, and where a row has its classes and links.
use crate::showing::*;
use std::alloc::{AllocError, Global};
use std::process::Abort;
use std::test::Fail;
use terms::Fault;
use worlds::world::World;
use worlds::{Link, ModelTable};

/// The lowest and the highest bit of a word.
const LOW: u64 = 1;

const HIGH: u64 = 1 << 63;

/// Elements on both sides of each word's end.
const ELEMENTS: [u32; 12] = [0, 1, 62, 63, 64, 65, 127, 128, 191, 192, 254, 255];

/// So many words, all 0 but one.
fn spotted(heap: Global, len: usize, at: usize, bits: u64) -> Result<Vec<u64>, AllocError> {
    let words = (0..len).map(|i| if i == at { bits } else { 0 });
    words.collect(heap)
}

/// What opening so many words, all 0, is refused with, if it is.
fn told(heap: Global, len: usize, roles: u32, size: u32) -> Result<Option<Fault>, AllocError> {
    let words = vec![in heap; 0; len]?;
    let mut world = ModelTable::new();
    Ok(world.open(words.as_slice(), roles, size).err())
}

/// So many words, for so many roles and elements, are refused with the number, or open where it is 0.
fn opening(rt: &(impl Abort + AllocGlobal), cases: &[(usize, u32, u32, u8)]) -> Result<(), Fail> {
    for (len, roles, size, number) in cases {
        assert_eq!(rt;
            told(rt.alloc(), *len, *roles, *size)?,
            refused(*number),
            "{len} words, {roles} roles, {size} elements"
        );
    }
    Ok(())
}

/// Of 256 elements, the word shows just those classes and links.
fn shows_spot(
    rt: &(impl Abort + AllocGlobal),
    roles: u32,
    at: usize,
    bits: u64,
    classes: &[u64],
    links: &[Link],
) -> Result<(), Fail> {
    let words = spotted(rt.alloc(), 16640, at, bits)?;
    let mut world = ModelTable::new();
    world.open(words.as_slice(), roles, 256)?;
    assert!(rt;
        shows(&world, &ELEMENTS, classes, links),
        "{roles} roles, word {at}"
    );
    Ok(())
}

/// The size of the table is checked before the count of elements.
#[test]
fn sizes(rt: HostRuntime) -> Result<(), Fail> {
    let worlds = [
        (0, 0, 0, 12),
        (65, 16, 0, 12),
        (256, 0, 256, 0),
        (257, 0, 257, 12),
        (16640, 16, 256, 0),
        (16705, 16, 257, 12),
        (256, 0, 257, 11),
        (16704, 16, 257, 11),
        (100, 17, 0, 11),
        (0, 0, u32::MAX, 11),
    ];
    opening(&rt, &worlds)?;
    let tables = [
        (0, 0, 1, 11),
        (1, 0, 1, 0),
        (255, 0, 256, 11),
        (64, 16, 1, 11),
        (65, 16, 1, 0),
        (66, 16, 1, 0),
        (14, 1, 3, 11),
        (15, 1, 3, 0),
        (16639, 16, 256, 11),
        (16641, 16, 256, 0),
        (69, 17, 1, 11),
        (1000, 17, 1, 11),
    ];
    opening(&rt, &tables)?;
    let huge = [
        (100, u32::MAX, 1, 11),
        (100, u32::MAX, 0, 11),
        (100, 0, u32::MAX, 11),
        (100, 16, u32::MAX, 11),
        (100, u32::MAX, u32::MAX, 11),
        (100, 1 << 30, 1, 11),
        (100, 16, 66076420, 11),
    ];
    opening(&rt, &huge)
}

#[test]
fn where_links_are(rt: HostRuntime) -> Result<(), Fail> {
    let classes = vec![in rt.alloc(); 0; 256]?;
    let cases = [
        (1, 1, LOW, link(0, 0, 0)),
        (1, 1, HIGH, link(0, 0, 63)),
        (1, 2, LOW, link(0, 0, 64)),
        (1, 2, HIGH, link(0, 0, 127)),
        (1, 3, LOW, link(0, 0, 128)),
        (1, 4, LOW, link(0, 0, 192)),
        (1, 4, HIGH, link(0, 0, 255)),
        (2, 5, LOW, link(0, 1, 0)),
        (2, 8, HIGH, link(0, 1, 255)),
        (2, 13, HIGH, link(1, 0, 255)),
        (2, 14, 2, link(1, 1, 1)),
        (3, 1674, HIGH, link(128, 2, 127)),
        (16, 61, HIGH, link(0, 15, 63)),
        (16, 4096, HIGH, link(63, 0, 63)),
        (16, 4222, LOW, link(64, 15, 64)),
        (16, 16576, LOW, link(255, 0, 0)),
        (16, 16639, HIGH, link(255, 15, 255)),
    ];
    for (roles, at, bits, wanted) in cases {
        shows_spot(&rt, roles, at, bits, classes.as_slice(), &[wanted])?;
    }
    Ok(())
}

#[test]
fn where_classes_are(rt: HostRuntime) -> Result<(), Fail> {
    let cases = [
        (0, 0, LOW, 0),
        (0, 255, HIGH, 255),
        (1, 5, HIGH, 1),
        (1, 320, LOW, 64),
        (2, 567, 6, 63),
        (16, 4095, u64::MAX, 63),
        (16, 16575, 1 << 31, 255),
    ];
    for (roles, at, bits, element) in cases {
        let classes = spotted(rt.alloc(), 256, element, bits)?;
        shows_spot(&rt, roles, at, bits, classes.as_slice(), &[])?;
    }
    Ok(())
}

/// Elements to look for links from, and to.
const SOME_FROM: [u32; 9] = [0, 1, 2, 3, 63, 64, 255, 256, u32::MAX];

const SOME_TO: [u32; 11] = [0, 1, 2, 3, 63, 64, 127, 128, 255, 256, u32::MAX];

/// Whether three elements of rows that are all ones are linked with each other by the roles below the count, and nothing else is.
fn links_below(words: &[u64], roles: u32, count: u8) -> Result<bool, Fault> {
    let mut world = ModelTable::new();
    world.open(words, roles, 3)?;
    Ok((0..=255).all(|role| {
        SOME_FROM.iter().all(|from| {
            SOME_TO.iter().all(|to| {
                world.is_linked(role, *from, *to) == (role < count && *from < 3 && *to < 3)
            })
        })
    }))
}

/// Roles past the row's link nothing, nor do bits of elements past the last, nor rows past the last.
#[test]
fn past_the_rows(rt: HostRuntime) -> Result<(), Fail> {
    let full = [u64::MAX; 100];
    for (roles, count) in [(0, 0), (1, 1), (2, 2), (7, 7)] {
        assert!(rt; links_below(&full, roles, count)?, "{roles} roles");
    }
    let cases = [
        (forall(0, 6, 0), None),
        (roles(7, 8), None),
        (roles(6, 7), broken(0, 0)),
        (exists(0, 7, 0), broken(0, 0)),
    ];
    for (axiom, wanted) in cases {
        assert_eq!(rt; found_in_rows(&full, 7, 2, &[axiom])?, wanted);
    }
    let words = [1, 0b110, 0, 0, 0, 1, 0, 1, 0, 0, 2, 1, 0, 0, 0];
    let cases = [
        (2, forall(0, 0, 0), None),
        (2, exists_lower(0, 1, 2), None),
        (2, exists(0, 0, 1), broken(0, 0)),
        (3, forall(0, 0, 0), broken(0, 0)),
        (3, exists_lower(0, 1, 2), broken(0, 0)),
        (3, exists(0, 0, 1), broken(0, 1)),
    ];
    for (size, axiom, wanted) in cases {
        assert_eq!(rt; found_in_rows(&words, 1, size, &[axiom])?, wanted);
    }
    Ok(())
}
