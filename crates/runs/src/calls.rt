//! The calls of a run, and what is heard of each.
use reasoner::Answer;
use terms::{Axiom, ClassSet, Fault};
use worlds::{Breach, Link};

/// A call on a book, with all that it brings.
#[derive(Clone, Copy)]
pub enum Call<'a> {
    /// Takes an own axiom out.
    Strike {
        number: usize,
    },
    /// Puts an axiom at the end.
    Add {
        axiom: Axiom,
    },
    /// Rewrites an own axiom.
    Amend {
        number: usize,
        axiom: Axiom,
    },
    /// Asks with so many context slots, clause slots and, where there is a model table, words.
    Ask {
        held: ClassSet,
        denied: ClassSet,
        contexts: usize,
        clauses: usize,
        words: Option<usize>,
    },
    /// Audits the world that a model table shows.
    AuditModel {
        words: &'a [u64],
        roles: u32,
        size: u32,
    },
    /// Audits the world of a store's entries.
    AuditEntries {
        classes: &'a [u64],
        links: &'a [Link],
    },
}

/// What is heard of a call.
#[derive(Clone, Copy, PartialEq, Eq, Debug)]
pub enum Heard {
    /// Of an add, an amend or a strike.
    Changed { told: Result<(), Fault> },
    /// Of an ask.
    Asked { told: Result<Answer, Fault> },
    /// Of an audit; a world that cannot be opened is refused.
    Audited { told: Result<Option<Breach>, Fault> },
}
