//! What follows from one clause, with the clauses before it.
ghost use Rattle.std.specs.Prelude.{ℕ, ◌+◌, ◌<◌, List};
ghost use Rattle.terms.specs.Axioms.{WellFormed};
ghost use Rattle.closure.specs.Closures.{Clause as ClauseOf};
ghost use Rattle.tables.specs.Entering.{Among};
ghost use Rattle.tables.specs.Records.{Tops};
ghost use Rattle.tables.specs.Tables.{clause_of, Cites};
ghost use Rattle.tables.specs.Adding.{Ends};
ghost use Rattle.tables.specs.Lent.{lent, SameLent, ContextsKept};
ghost use Rattle.tables.specs.declared.records.ClauseRecord.{ClauseRecord as ClauseRecordOf};
ghost use Rattle.saturation.specs.Choices.{Given, given_record};
ghost use Rattle.saturation.specs.Conclusions.{Brought, DeniedHead, ByAxiom, OfOne, OfTurn, RolesBelow};

use crate::choices::choose;
use crate::pairs::{pair, shares};
use crate::theory::Theory;
use tables::{ClauseRecord, ContextRecord, Full, LentTables};
use terms::{Axiom, ClassSet};

/// Enters the clause without its head `top`, where its context denies that.
fn deny(tables: &mut LentTables<'_>, given: ClauseRecord, top: u8) -> Result<(), Full>
    requires cited { Cites tables.old.counts.contexts given }
    requires headed { Tops given top × (top < 64) }
    ensures same { SameLent tables.old tables.new }
    ensures kept { ContextsKept tables.old tables.new }
    ensures denies { Ends (Brought (DeniedHead (clause_of tables.old.contexts.now given))) (lent tables.old) (lent tables.new) result }
{
    if !tables.contexts[usize::from(given.context)]
        .denied
        .contains(top)
    {
        return Ok(());
    }
    tables.enter_clause(ClauseRecord::lone(given.context, given.classes.without(top)))
}

/// Enters what one axiom gives from the clause in slot `slot`, which has the head `top`, and the clauses before it.
// The head is that of a clause in a slot, so a type that kept the two together would have to hold the tables.
fn apply(axiom: Axiom, tables: &mut LentTables<'_>, slot: usize, top: u8) -> Result<(), Full>
    requires formed { WellFormed 64 16 «axiom» }
    requires used { slot < tables.old.counts.clauses }
    requires headed { Tops (given_record tables.old.clauses.now slot) top × (top < 64) }
    ensures same { SameLent tables.old tables.new }
    ensures applies { (c : ClauseOf) (Ts : List ℕ) → Given (lent tables.old) slot c Ts
        → Ends (Brought (ByAxiom «axiom» Ts c)) (lent tables.old) (lent tables.new) result }
{
    match axiom {
        Axiom::Inclusion { lower, upper } if lower.contains(top) => {
            choose(tables, slot, top, lower, upper)
        }
        Axiom::Exists {
            lower,
            role,
            filler,
        } if lower == top => {
            let given = tables.clauses[slot];
            let successor = ContextRecord {
                held: ClassSet::single(filler),
                denied: ClassSet::empty(),
            };
            tables.enter_toward(given.context, given.classes.without(top), role, successor)
        }
        _ => Ok(()),
    }
}

/// Enters what follows from the clause in slot `slot` by itself, and by inclusions with the clauses before it.
fn alone(theory: Theory<'_>, tables: &mut LentTables<'_>, slot: usize) -> Result<(), Full>
    requires { slot < tables.old.counts.clauses }
    ensures same { SameLent tables.old tables.new }
    ensures gives { (c : ClauseOf) (Ts : List ℕ) → Given (lent tables.old) slot c Ts
        → Ends (OfOne theory.entry.axioms.now Ts c) (lent tables.old) (lent tables.new) result }
{
    let given = tables.clauses[slot];
    let Some(top) = given.head() else {
        return Ok(());
    };
    deny(tables, given, top)?;
    for axiom in theory.axioms {
        apply(*axiom, tables, slot, top)?;
    }
    Ok(())
}

/// Enters all that follows from the clause in slot `slot` and the clauses up to it. These are read by slot, since the loop adds to their table.
// Each call reads the theory and writes the tables; a struct of both would lend the theory for writing too.
pub(crate) fn turn(theory: Theory<'_>, tables: &mut LentTables<'_>, slot: usize) -> Result<(), Full>
    requires used { slot < tables.old.counts.clauses }
    requires roles { (x : ClauseRecordOf) → Among tables.old.clauses.now (slot + 1) x → RolesBelow 16 x.part }
    ensures same { SameLent tables.old tables.new }
    ensures gives { (c : ClauseOf) (Ts : List ℕ) → Given (lent tables.old) slot c Ts
        → Ends (OfTurn theory.entry.axioms.now tables.old.contexts.now tables.old.clauses.now (slot + 1) Ts c) (lent tables.old) (lent tables.new) result }
{
    let given = tables.clauses[slot];
    alone(theory, tables, slot)?;
    for j in 0..slot + 1 {
        let other = tables.clauses[j];
        if !shares(given, other) && !shares(other, given) {
            continue;
        }
        pair(theory, tables, given, other)?;
        pair(theory, tables, other, given)?;
    }
    Ok(())
}
