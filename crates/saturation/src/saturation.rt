//! Entering the closure of a goal into the two tables.
ghost use Rattle.std.specs.Prelude.{◌≡◌, ◌<◌, ◌≤◌, length, IfOk};
ghost use Rattle.std.specs.List.{AllByRecursion};
ghost use Rattle.terms.specs.Axioms.{WellFormed};
ghost use Rattle.closure.specs.Closures.{rising};
ghost use Rattle.tables.specs.Tables.{tables as tablesOf, context_of, context_in, InClosure};
ghost use Rattle.tables.specs.Adding.{Enters, Ends};
ghost use Rattle.tables.specs.Lent.{lent, SameLent, ContextsKept};
ghost use Rattle.roles.specs.Reaching.{Shows};
ghost use Rattle.saturation.specs.Conclusions.{FromSlots};

use crate::contexts::unfold;
use crate::theory::Theory;
use crate::turns::turn;
use roles::Reach;
use tables::{ClauseRecord, ContextRecord, Counts, Full, LentTables};
use terms::Axiom;

/// Enters what each context from slot `from` on gives by itself.
fn unfold_all(axioms: &[Axiom], tables: &mut LentTables<'_>, from: usize) -> Result<(), Full>
    requires { from ≤ tables.old.counts.contexts }
    ensures same { SameLent tables.old tables.new }
    ensures kept { ContextsKept tables.old tables.new }
    ensures unfolds { Ends (FromSlots axioms.now tables.old.contexts.now from tables.old.counts.contexts) (lent tables.old) (lent tables.new) result }
{
    // By slot, since unfolding writes into the clauses that are lent together with the contexts.
    for slot in from..tables.counts.contexts {
        unfold(axioms, tables, slot)?;
    }
    Ok(())
}

/// Enters the closure of the goal into tables that have nothing, with the goal in the first slot.
fn fill(theory: Theory<'_>, tables: &mut LentTables<'_>, goal: ContextRecord) -> Result<(), Full>
    requires empty { (tables.old.counts.contexts ≡ 0) × (tables.old.counts.clauses ≡ 0) }
    ensures same { SameLent tables.old tables.new }
    ensures closure { Ends (InClosure rising theory.entry.axioms.now (context_of goal)) (lent tables.old) (lent tables.new) result }
    ensures first { IfOk result (λ _. (0 < tables.new.counts.contexts) × (context_in tables.new.contexts.now 0 ≡ context_of goal)) }
{
    tables.enter_context(goal)?;
    unfold_all(theory.axioms, tables, 0)?;
    // The loop adds clauses, so its end moves on.
    let mut slot = 0;
    while slot < tables.counts.clauses {
        let opened = tables.counts.contexts;
        turn(theory, tables, slot)?;
        unfold_all(theory.axioms, tables, opened)?;
        slot += 1;
    }
    Ok(())
}

/// Enters the closure of the goal into the tables, over whatever they hold, with the goal in the first slot; where it does not fit, some of its
/// members, each once.
pub fn saturate(
    axioms: &[Axiom],
    reach: &Reach,
    contexts: &mut [ContextRecord],
    clauses: &mut [ClauseRecord],
    goal: ContextRecord,
) -> Result<Counts, Full>
    requires formed { AllByRecursion (WellFormed 64 16) axioms.now }
    requires shows { Shows axioms.now reach.now.rows }
    requires few { length contexts.old ≤ 256 }
    ensures closure { Enters (InClosure rising axioms.now (context_of goal))
        (tablesOf contexts.old clauses.old (record { contexts = 0; clauses = 0 })) (tablesOf contexts.new clauses.new) result }
    ensures first { IfOk result (λ n. (0 < n.contexts) × (context_in contexts.new 0 ≡ context_of goal)) }
{
    let mut tables = LentTables {
        contexts,
        clauses,
        counts: Counts {
            contexts: 0,
            clauses: 0,
        },
    };
    fill(Theory { axioms, reach }, &mut tables, goal)?;
    Ok(tables.counts)
}
