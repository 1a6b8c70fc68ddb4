//! Reading a case from a line.
use std::alloc::{AllocError, Global};
use std::str::Split;
use terms::{Axiom, ClassSet};

/// A question, the axioms that it is asked of, and the sizes of the tables that are lent to it.
#[derive(Drop)]
pub struct Case {
    pub classes: u8,
    pub roles: u8,
    pub held: ClassSet,
    pub denied: ClassSet,
    pub context_slots: usize,
    pub clause_slots: usize,
    /// The words of the model table, if one is lent.
    pub words: Option<usize>,
    pub axioms: Vec<Axiom>,
}

/// The number that the next word spells, if there is one that does.
fn number(words: &mut Split<char>) -> Option<usize> {
    words.next()?.parse::<usize>().ok()
}

// What is no number is read as the greatest one, which each reader below names, so that a case is refused and not lost.

/// A number below 256; what is no number is read as 255.
fn byte(words: &mut Split<char>) -> u8 {
    number(words).map_or(u8::MAX, |number| (number % 256) as u8)
}

/// The set whose bits a number has; what is no number is read as all bits.
fn set(words: &mut Split<char>) -> ClassSet {
    ClassSet::from_bits(number(words).map_or(u64::MAX, |bits| bits as u64))
}

/// The words of a model table; what is no number, and the greatest one, is read as no table.
fn model_words(words: &mut Split<char>) -> Option<usize> {
    number(words).filter(|words| *words < usize::MAX)
}

/// How many slots a table has; what is no number is read as more than memory has.
fn slots(words: &mut Split<char>) -> usize {
    number(words).unwrap_or(usize::MAX)
}

/// The axiom that a word spells: the number of its form and then its parts, with commas between.
fn axiom(word: &str) -> Axiom {
    let mut parts = word.split(',');
    match number(&mut parts) {
        Some(3) => Axiom::Inclusion {
            lower: set(&mut parts),
            upper: set(&mut parts),
        },
        Some(4) => Axiom::Exists {
            lower: byte(&mut parts),
            role: byte(&mut parts),
            filler: byte(&mut parts),
        },
        Some(5) => Axiom::ExistsLower {
            role: byte(&mut parts),
            filler: byte(&mut parts),
            upper: byte(&mut parts),
        },
        Some(6) => Axiom::Forall {
            lower: byte(&mut parts),
            role: byte(&mut parts),
            filler: byte(&mut parts),
        },
        _ => Axiom::RoleInclusion {
            sub: byte(&mut parts),
            sup: byte(&mut parts),
        },
    }
}

/// The case that a line spells.
pub fn read(heap: Global, line: &str) -> Result<Case, AllocError> {
    let mut words = line.split(' ');
    Ok(Case {
        classes: byte(&mut words),
        roles: byte(&mut words),
        held: set(&mut words),
        denied: set(&mut words),
        context_slots: slots(&mut words),
        clause_slots: slots(&mut words),
        words: model_words(&mut words),
        axioms: words.map(axiom).collect(heap)?,
    })
}
