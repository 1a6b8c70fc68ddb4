//! Small worlds of both kinds against every axiom over few classes and roles, and against plain loops.
use crate::showing::*;
use std::alloc::{AllocError, Global};
use std::process::Abort;
use std::test::Fail;
use terms::{Axiom, ClassSet, Fault};
use worlds::world::World;
use worlds::{Breach, EntryTable, Link, ModelTable};

/// Whether some class of the set passes the test.
// By a loop, as the two searches below: a test may be refused, and `any` takes no `?`.
fn has_some<F: Fn(u8) -> Result<bool, Fault>>(set: ClassSet, test: F) -> Result<bool, Fault>
    requires { F.IsAlwaysCallable test }
{
    for class in set.classes() {
        if test(class)? {
            return Ok(true);
        }
    }
    Ok(false)
}

/// Whether the role links the element to one that passes the test.
fn links_some<W: World, F: Fn(u32) -> Result<bool, Fault>>(
    world: &W,
    element: u32,
    role: u8,
    test: F,
) -> Result<bool, Fault>
    requires { F.IsAlwaysCallable test }
{
    for other in 0..world.size() {
        if world.links(role, element, other)? && test(other)? {
            return Ok(true);
        }
    }
    Ok(false)
}

/// Whether the element breaks the axiom.
fn is_broken<W: World>(world: &W, element: u32, axiom: Axiom) -> Result<bool, Fault> {
    match axiom {
        Axiom::Inclusion { lower, upper } => {
            let outside = has_some(lower, |class| Ok(!world.is_in(element, class)?))?;
            let inside = has_some(upper, |class| world.is_in(element, class))?;
            Ok(!outside && !inside)
        }
        Axiom::Exists {
            lower,
            role,
            filler,
        } => {
            let some = links_some(world, element, role, |other| world.is_in(other, filler))?;
            Ok(world.is_in(element, lower)? && !some)
        }
        Axiom::ExistsLower {
            role,
            filler,
            upper,
        } => {
            let some = links_some(world, element, role, |other| world.is_in(other, filler))?;
            Ok(some && !world.is_in(element, upper)?)
        }
        Axiom::Forall {
            lower,
            role,
            filler,
        } => {
            let outside = links_some(world, element, role, |other| {
                Ok(!world.is_in(other, filler)?)
            })?;
            Ok(world.is_in(element, lower)? && outside)
        }
        Axiom::RoleInclusion { sub, sup } => links_some(world, element, sub, |other| {
            Ok(!world.links(sup, element, other)?)
        }),
    }
}

/// The first axiom that is broken and the lowest element that breaks it, by plain loops.
fn plain<W: World>(axioms: &[Axiom], world: &W) -> Result<Option<Breach>, Fault> {
    for (number, axiom) in axioms.iter().enumerate() {
        for element in 0..world.size() {
            if is_broken(world, element, *axiom)? {
                return Ok(broken(number, element));
            }
        }
    }
    Ok(None)
}

/// Every axiom over three classes and two roles.
fn all_axioms(heap: Global) -> Result<Vec<Axiom>, AllocError> {
    let mut axioms = Vec::new(heap);
    for lower in 0..8 {
        for upper in 0..8 {
            axioms.push(inclusion(lower, upper))?;
        }
    }
    for role in 0..2 {
        for class in 0..3 {
            for filler in 0..3 {
                axioms.push(exists(class, role, filler))?;
                axioms.push(exists_lower(role, filler, class))?;
                axioms.push(forall(class, role, filler))?;
            }
        }
        axioms.push(roles(role, 0))?;
        axioms.push(roles(role, 1))?;
    }
    Ok(axioms)
}

/// The links among three elements by two roles that have a bit 1.
fn links_of(heap: Global, bits: u32) -> Result<Vec<Link>, AllocError> {
    let mut rest = bits;
    let mut links = Vec::new(heap);
    for role in 0..2 {
        for from in 0..3 {
            for to in 0..3 {
                if rest % 2 == 1 {
                    links.push(link(from, role, to))?;
                }
                rest /= 2;
            }
        }
    }
    Ok(links)
}

/// Audits of the list find the same in both worlds, and what plain loops find.
fn agree<V: World, W: World>(
    rt: &impl Abort,
    list: &[Axiom],
    one: &V,
    other: &W,
    number: u64,
) -> Result<(), Fail> {
    let wanted = plain(list, one)?;
    let len = list.len();
    assert_eq!(rt;
        plain(list, other)?,
        wanted,
        "plain, world {number}, last {len}"
    );
    assert_eq!(rt;
        found(list, one)?,
        wanted,
        "one, world {number}, last {len}"
    );
    assert_eq!(rt;
        found(list, other)?,
        wanted,
        "other, world {number}, last {len}"
    );
    Ok(())
}

/// The three elements in rows of two roles and the entries with links agree on the list from each axiom on; `number` tells the world in
/// messages.
fn kinds_agree<'x>(
    rt: &impl Abort,
    axioms: &[Axiom],
    words: &[u64],
    classes: &'x [u64],
    links: &'x [Link],
    number: u64,
) -> Result<(), Fail> {
    let mut model = ModelTable::new();
    model.open(words, 2, 3)?;
    let mut entries = EntryTable::new();
    entries.open(classes, links)?;
    // Each list is a tail of the axioms, and a number is the plainest name of where it begins.
    for start in 0..axioms.len() {
        agree(rt, &axioms[start..], &model, &entries, number)?;
    }
    Ok(())
}

/// Worlds of three elements, with classes and links by chance.
#[test]
fn every_small_axiom(rt: HostRuntime) -> Result<(), Fail> {
    let heap = rt.alloc();
    let axioms = all_axioms(heap)?;
    assert_eq!(rt; axioms.len(), 122);
    let mut chance = 1u32;
    for _ in 0..100 {
        chance = chance.wrapping_mul(1664525).wrapping_add(1013904223);
        let bits = u64::from(chance / 32);
        let classes = [bits & 7, bits / 8 & 7, bits / 64 & 7];
        let links = links_of(heap, chance / 16384)?;
        let words = rows(heap, 2, &classes, links.as_slice())?;
        kinds_agree(
            &rt,
            axioms.as_slice(),
            words.as_slice(),
            &classes,
            links.as_slice(),
            bits,
        )?;
    }
    Ok(())
}
