//! Entering members of the closure into tables that are lent as bare slices, with their counts beside them.
ghost use Rattle.std.specs.Prelude.{◌≡◌, ℕ, ◌<◌, ◌≤◌, ◌⊎◌, List, length, MatchResult};
ghost use Rattle.closure.specs.Closures.{clause, toward};
ghost use Rattle.tables.specs.Entering.{Entered, Refused};
ghost use Rattle.tables.specs.Tables.{tables, context_of, context_in, clause_of, a_context, a_clause, Cites, Good};
ghost use Rattle.tables.specs.Adding.{Adds, Stuck, Enters};

use crate::entering::{Full, enter};
use crate::records::{ClauseRecord, ContextRecord, RolePart};
use terms::ClassSet;

/// How many slots of each table are used.
#[derive(Clone, Copy, PartialEq, Eq, Debug, Default)]
pub struct Counts {
    pub contexts: usize,
    pub clauses: usize,
}

/// The slot of a context, and how many slots are used now.
#[derive(Clone, Copy, PartialEq, Eq, Debug)]
pub struct ContextPlace {
    pub slot: u16,
    pub counts: Counts,
}

/// Enters a context, whatever clauses there are. A context table has at most 256 slots, so a clause can cite each.
pub fn enter_context(
    contexts: &mut [ContextRecord],
    counts: Counts,
    record: ContextRecord,
) -> Result<ContextPlace, Full>
    requires { (counts.contexts ≤ length contexts.old) × (length contexts.old ≤ 256) }
    ensures entered { MatchResult result
        (λ p. Entered contexts.old counts.contexts «record» contexts.new p.slot p.counts.contexts × (p.counts.clauses ≡ counts.clauses))
        (λ _. Refused contexts.old counts.contexts «record» contexts.new) }
    ensures adds { (clauses : List ClauseRecord) → Good (tables contexts.old clauses counts) → MatchResult result
        (λ p. Adds (λ m. m ≡ a_context (context_of «record»)) (tables contexts.old clauses counts) (tables contexts.new clauses p.counts))
        (λ _. Stuck (λ m. m ≡ a_context (context_of «record»)) (tables contexts.old clauses counts) (tables contexts.new clauses counts)) }
{
    let place = enter(contexts, counts.contexts, record)?;
    Ok(ContextPlace {
        slot: place.slot as u16,
        counts: Counts {
            contexts: place.used,
            clauses: counts.clauses,
        },
    })
}

/// Enters a clause that cites used slots, whatever contexts they hold.
pub fn enter_clause(
    clauses: &mut [ClauseRecord],
    counts: Counts,
    record: ClauseRecord,
) -> Result<Counts, Full>
    requires { counts.clauses ≤ length clauses.old }
    ensures enters { (contexts : List ContextRecord) → Good (tables contexts clauses.old counts) → Cites counts.contexts «record»
        → Enters (λ m. m ≡ a_clause (clause_of contexts «record»)) (tables contexts clauses.old counts) (tables contexts clauses.new) result }
    ensures entered { MatchResult result
        (λ n. ((slot : ℕ) × Entered clauses.old counts.clauses «record» clauses.new slot n.clauses) × (n.contexts ≡ counts.contexts))
        (λ _. Refused clauses.old counts.clauses «record» clauses.new) }
{
    let place = enter(clauses, counts.clauses, record)?;
    Ok(Counts {
        contexts: counts.contexts,
        clauses: place.used,
    })
}

/// Enters a clause of the context in slot `context` with a role part, and the context that the role part is toward.
pub fn enter_toward(
    contexts: &mut [ContextRecord],
    clauses: &mut [ClauseRecord],
    counts: Counts,
    context: u16,
    classes: ClassSet,
    role: u8,
    target: ContextRecord,
) -> Result<Counts, Full>
    requires good { Good (tables contexts.old clauses.old counts) }
    requires few { length contexts.old ≤ 256 }
    requires cited { context < counts.contexts }
    ensures { Enters (λ m. (m ≡ a_context (context_of target)) ⊎ (m ≡ a_clause (clause (context_in contexts.old context) classes.bits (toward role (context_of target)))))
        (tables contexts.old clauses.old counts) (tables contexts.new clauses.new) result }
{
    let place = enter_context(contexts, counts, target)?;
    let part = RolePart {
        role,
        context: place.slot,
    };
    let record = ClauseRecord {
        context,
        classes,
        part: Some(part),
    };
    enter_clause(clauses, place.counts, record)
}
