//! Audits a full table of entries against a full list of axioms, and prints what was found: a load to time.
//!
//! Every entry is in all classes but 63, and has four links, two by role 0 and two by role 1 to the same entries. Each axiom is
//! obeyed, so that every one of them is decided at every entry, mostly by a walk through all its links.
#![tactic(auto)]

use sources::RecordTable;
use std::io;
use terms::{Axiom, ClassSet, Fault};
use worlds::audit::audit;
use worlds::{Breach, EntryTable, Link};

/// The axiom of a number, the five forms in turn.
fn axiom(number: usize) -> Axiom {
    let class = (number % 60) as u8;
    match number % 5 {
        0 => Axiom::Inclusion {
            lower: ClassSet::single(class),
            upper: ClassSet::single(class),
        },
        1 => Axiom::Exists {
            lower: class,
            role: 0,
            filler: 62,
        },
        2 => Axiom::ExistsLower {
            role: 1,
            filler: 63,
            upper: 63,
        },
        3 => Axiom::Forall {
            lower: class,
            role: 0,
            filler: 62,
        },
        _ => Axiom::RoleInclusion { sub: 0, sup: 1 },
    }
}

/// Where a link goes: a number that looks like chance.
fn target(number: u32) -> u32 {
    number.wrapping_mul(2_654_435_761) / 7 % 4096
}

/// What the audit of the entries and links against the axioms finds.
fn found<'a>(
    axioms: &[Axiom],
    classes: &'a [u64],
    links: &'a [Link],
) -> Result<Option<Breach>, Fault> {
    let mut source = RecordTable::new();
    source.open(64, 16, axioms)?;
    let mut world = EntryTable::new();
    world.open(classes, links)?;
    Ok(audit(&source, &world))
}

fn main(rt: HostRuntime) -> io::Result<()> {
    let heap = rt.alloc();
    let axioms: Vec<Axiom> = (0..1024).map(axiom).collect(heap)?;
    let classes = vec![in heap; u64::MAX / 2; 4096]?;
    let mut links = Vec::new(heap);
    for number in 0..8192 {
        let from = number % 4096;
        let to = target(number);
        links.push(Link { from, role: 0, to })?;
        links.push(Link { from, role: 1, to })?;
    }
    match found(&axioms, &classes, &links) {
        Ok(None) => println!(rt; "4096 entries, 16384 links, 1024 axioms: passes"),
        Ok(Some(Breach { number, element })) => println!(rt;
            "axiom {number} is broken by entry {element}"
        ),
        Err(fault) => println!(rt; "{fault}"),
    }
}
