//! What a context gives by itself.
ghost use Rattle.std.specs.Prelude.{◌≡◌, ◌<◌, length, MatchOption};
ghost use Rattle.terms.specs.Axioms.{set_of};
ghost use Rattle.terms.specs.declared.axioms.Axiom.TheVariants.{Inclusion};
ghost use Rattle.tables.specs.Tables.{context_in};
ghost use Rattle.tables.specs.Adding.{Ends, Below};
ghost use Rattle.tables.specs.Lent.{lent, SameLent, ContextsKept};
ghost use Rattle.saturation.specs.Conclusions.{Brought, OfContext, Held, NoLower, Unconditional};

use tables::{ClauseRecord, Full, LentTables};
use terms::{Axiom, ClassSet};

/// Enters a clause for each class that the context in slot `slot` holds.
// A slot is used or not only as to tables that grow, so the bound on it stands in each contract, here as elsewhere.
fn hold(tables: &mut LentTables<'_>, slot: usize) -> Result<(), Full>
    requires { slot < tables.old.counts.contexts }
    ensures same { SameLent tables.old tables.new }
    ensures kept { ContextsKept tables.old tables.new }
    ensures holds { Ends (Held (context_in tables.old.contexts.now slot)) (lent tables.old) (lent tables.new) result }
{
    let held = tables.contexts[slot].held;
    for class in held.classes() {
        tables.enter_clause(ClauseRecord::lone(slot as u16, ClassSet::single(class)))?;
    }
    Ok(())
}

/// The upper classes of an inclusion with no lower ones.
fn unconditional(axiom: Axiom) -> Option<ClassSet>
    ensures { MatchOption result (Unconditional «axiom» → ⊥) (λ upper. «axiom» ≡ Inclusion (set_of 0) upper) }
{
    match axiom {
        Axiom::Inclusion { lower, upper } if lower.is_empty() => Some(upper),
        _ => None,
    }
}

/// Enters the upper classes of each inclusion with no lower ones, for the context in slot `slot`.
fn grant(axioms: &[Axiom], tables: &mut LentTables<'_>, slot: usize) -> Result<(), Full>
    requires { slot < tables.old.counts.contexts }
    ensures same { SameLent tables.old tables.new }
    ensures kept { ContextsKept tables.old tables.new }
    ensures grants { Ends (Below axioms.now (length axioms.now) (NoLower (context_in tables.old.contexts.now slot))) (lent tables.old) (lent tables.new) result }
{
    for axiom in axioms {
        let Some(upper) = unconditional(*axiom) else {
            continue;
        };
        tables.enter_clause(ClauseRecord::lone(slot as u16, upper))?;
    }
    Ok(())
}

/// Enters what the context in slot `slot` gives by itself.
pub(crate) fn unfold(axioms: &[Axiom], tables: &mut LentTables<'_>, slot: usize) -> Result<(), Full>
    requires { slot < tables.old.counts.contexts }
    ensures same { SameLent tables.old tables.new }
    ensures kept { ContextsKept tables.old tables.new }
    ensures unfolds { Ends (Brought (OfContext axioms.now (context_in tables.old.contexts.now slot))) (lent tables.old) (lent tables.new) result }
{
    hold(tables, slot)?;
    grant(axioms, tables, slot)
}
