//! Writing worlds, and what the tests share.
use sources::RecordTable;
use std::alloc::{AllocError, Global};
use std::process::Abort;
use std::test::Fail;
use terms::{Axiom, ClassSet, Fault, Layer, Refusal};
use worlds::audit::audit;
use worlds::world::World;
use worlds::{Breach, EntryTable, Link, ModelTable};

/// A link by the role from one element to another.
pub fn link(from: u32, role: u8, to: u32) -> Link {
    Link { from, role, to }
}

/// The inclusion with these masks.
// The test crates share nothing but the crates under test.
pub fn inclusion(lower: u64, upper: u64) -> Axiom {
    Axiom::Inclusion {
        lower: ClassSet::from_bits(lower),
        upper: ClassSet::from_bits(upper),
    }
}

/// An element in `lower` has a successor by `role` in `filler`.
pub fn exists(lower: u8, role: u8, filler: u8) -> Axiom {
    Axiom::Exists {
        lower,
        role,
        filler,
    }
}

/// An element with a successor by `role` in `filler` is in `upper`.
pub fn exists_lower(role: u8, filler: u8, upper: u8) -> Axiom {
    Axiom::ExistsLower {
        role,
        filler,
        upper,
    }
}

/// An element in `lower` has all its successors by `role` in `filler`.
pub fn forall(lower: u8, role: u8, filler: u8) -> Axiom {
    Axiom::Forall {
        lower,
        role,
        filler,
    }
}

/// Every pair that `sub` links is linked by `sup`.
// The test crates share nothing but the crates under test.
pub fn roles(sub: u8, sup: u8) -> Axiom {
    Axiom::RoleInclusion { sub, sup }
}

/// The refusal of a world by its number; none for 0.
// Tables of cases have numbers, so that a row fits a line and one that is not refused stands among the others.
pub fn refused(number: u8) -> Option<Fault> {
    let kind = Refusal::try_from(number).ok()?;
    Some(kind.at(0, Layer::World))
}

/// What an audit of the world against the axioms, over 64 classes and 16 roles, finds.
pub fn found<W: World>(axioms: &[Axiom], world: &W) -> Result<Option<Breach>, Fault> {
    let mut table = RecordTable::new();
    table.open(64, 16, axioms)?;
    Ok(audit(&table, world))
}

/// The axiom of that number is the first broken, and the element the lowest that breaks it.
pub fn broken(number: usize, element: u32) -> Option<Breach> {
    Some(Breach { number, element })
}

/// One word of a row: the successors of an element by a role from 64 × `part` up.
fn part_of(links: &[Link], from: usize, role: u8, part: u32) -> u64 {
    links
        .iter()
        .filter(|link| link.from as usize == from && link.role == role && link.to / 64 == part)
        .fold(0, |bits, link| bits | 1 << (link.to % 64))
}

/// The rows of a model table with so many roles, for these classes of the elements and links.
// A world's classes and links are written side by side at the calls; a struct of both would add a name to each of them alone.
pub fn rows(
    heap: Global,
    roles: u8,
    classes: &[u64],
    links: &[Link],
) -> Result<Vec<u64>, AllocError> {
    let mut words = Vec::new(heap);
    for (element, bits) in classes.iter().enumerate() {
        words.push(*bits)?;
        for role in 0..roles {
            for part in 0..4 {
                words.push(part_of(links, element, role, part))?;
            }
        }
    }
    Ok(words)
}

/// What an audit of the model table with these words, roles and elements finds.
// The two kinds of world are opened with other arguments, so one function would take a closure that opens, and be no shorter.
pub fn found_in_rows(
    words: &[u64],
    roles: u32,
    size: u32,
    axioms: &[Axiom],
) -> Result<Option<Breach>, Fault> {
    let mut world = ModelTable::new();
    world.open(words, roles, size)?;
    found(axioms, &world)
}

/// What an audit of the entry table with these classes and links finds.
pub fn found_in_entries<'x>(
    classes: &'x [u64],
    links: &'x [Link],
    axioms: &[Axiom],
) -> Result<Option<Breach>, Fault> {
    let mut world = EntryTable::new();
    world.open(classes, links)?;
    found(axioms, &world)
}

/// An audit of the world, written as a model table of four roles and as an entry table, finds that.
pub fn finds(
    rt: &(impl Abort + AllocGlobal),
    classes: &[u64],
    links: &[Link],
    axioms: &[Axiom],
    wanted: Option<Breach>,
) -> Result<(), Fail> {
    let words = rows(rt.alloc(), 4, classes, links)?;
    let size = classes.len().min(300) as u32;
    assert_eq!(rt;
        found_in_rows(words.as_slice(), 4, size, axioms)?,
        wanted,
        "a model of {classes:?}"
    );
    assert_eq!(rt;
        found_in_entries(classes, links, axioms)?,
        wanted,
        "entries {classes:?}"
    );
    Ok(())
}

/// Both kinds of world with these classes and links obey the axiom.
pub fn obeys(
    rt: &(impl Abort + AllocGlobal),
    classes: &[u64],
    links: &[Link],
    axiom: Axiom,
) -> Result<(), Fail> {
    finds(rt, classes, links, &[axiom], None)
}

/// In both kinds of world with these classes and links the element is the lowest that breaks the axiom.
pub fn breaks(
    rt: &(impl Abort + AllocGlobal),
    classes: &[u64],
    links: &[Link],
    axiom: Axiom,
    element: u32,
) -> Result<(), Fail> {
    finds(rt, classes, links, &[axiom], broken(0, element))
}

/// Whether the world has an element in just the classes of the word.
fn has_classes<W: World>(world: &W, element: u32, bits: u64) -> bool {
    world.classes_of(element).bits() == bits
        && (0..64).all(|class| world.is_in(element, class) == Ok(bits >> class & 1 == 1))
}

/// Whether the world links just the listed elements of one of them as the list of links does, by a role.
fn has_links<W: World>(world: &W, role: u8, from: u32, elements: &[u32], links: &[Link]) -> bool {
    elements.iter().all(|to| world.links(role, from, *to)
        == Ok(links.contains(&link(from, role, *to))))
}

/// Whether the world has so many elements as words, and at these elements just those classes and links, by every role.
pub fn shows<W: World>(world: &W, elements: &[u32], classes: &[u64], links: &[Link]) -> bool {
    world.size() as usize == classes.len()
        && elements.iter().all(|element| {
            let bits = classes.get(*element as usize).copied().unwrap_or(0);
            has_classes(world, *element, bits)
                && (0..16).all(|role| has_links(world, role, *element, elements, links))
        })
}
