//! What follows from two clauses, one with a role part and one without.
ghost use Rattle.std.specs.Prelude.{◌≡◌, ◌<◌, length, Some as Just, Decides, MatchOption};
ghost use Rattle.terms.specs.Axioms.{WellFormed};
ghost use Rattle.closure.specs.Closures.{Clause as ClauseOf};
ghost use Rattle.tables.specs.Tables.{clause_of, Cites};
ghost use Rattle.tables.specs.Adding.{Ends, Below};
ghost use Rattle.tables.specs.Lent.{lent, SameLent};
ghost use Rattle.saturation.specs.Conclusions.{Brought, PairBy, OfPair, Shares, RolesBelow};
ghost use Rattle.saturation.specs.Meets.{Meets};

use crate::theory::Theory;
use tables::{ClauseRecord, ContextRecord, Full, LentTables, RolePart};
use terms::Axiom;

/// A clause with its role part, and another clause with its head.
#[derive(Clone, Copy)]
struct Meeting {
    clause: ClauseRecord,
    part: RolePart,
    other: ClauseRecord,
    top: u8,
}

/// Enters what one axiom gives from the two clauses.
fn meet(
    axiom: Axiom,
    theory: Theory<'_>,
    tables: &mut LentTables<'_>,
    meeting: Meeting,
) -> Result<(), Full>
    requires formed { WellFormed 64 16 «axiom» }
    requires meets { Meets tables.old.counts.contexts meeting }
    ensures same { SameLent tables.old tables.new }
    ensures gives { (t e : ClauseOf) → clause_of tables.old.contexts.now meeting.clause ≡ t → clause_of tables.old.contexts.now meeting.other ≡ e
        → Ends (Brought (PairBy theory.entry.axioms.now «axiom» t e)) (lent tables.old) (lent tables.new) result }
{
    let Meeting {
        clause,
        part,
        other,
        top,
    } = meeting;
    let reach = theory.reach;
    let target = tables.contexts[usize::from(part.context)];
    match axiom {
        Axiom::ExistsLower {
            role,
            filler,
            upper,
        } => {
            if filler != top || other.context != part.context || !reach.reaches(part.role, role) {
                return Ok(());
            }
            let denying = ContextRecord {
                held: target.held,
                denied: target.denied.with(filler),
            };
            tables.enter_toward(
                clause.context,
                clause.classes.with(upper),
                part.role,
                denying,
            )
        }
        Axiom::Forall {
            lower,
            role,
            filler,
        } => {
            if lower != top || other.context != clause.context || !reach.reaches(part.role, role) {
                return Ok(());
            }
            let holding = ContextRecord {
                held: target.held.with(filler),
                denied: target.denied,
            };
            let classes = clause.classes.union(other.classes.without(lower));
            tables.enter_toward(clause.context, classes, part.role, holding)
        }
        _ => Ok(()),
    }
}

/// Enters what all axioms give from them.
fn meet_all(theory: Theory<'_>, tables: &mut LentTables<'_>, meeting: Meeting) -> Result<(), Full>
    requires { Meets tables.old.counts.contexts meeting }
    ensures same { SameLent tables.old tables.new }
    ensures gives { (t e : ClauseOf) → clause_of tables.old.contexts.now meeting.clause ≡ t → clause_of tables.old.contexts.now meeting.other ≡ e
        → Ends (Below theory.entry.axioms.now (length theory.entry.axioms.now) (λ x. Brought (PairBy theory.entry.axioms.now x t e))) (lent tables.old) (lent tables.new) result }
{
    for axiom in theory.axioms {
        meet(*axiom, theory, tables, meeting)?;
    }
    Ok(())
}

/// Enters what follows from a clause with the role part `part` and another clause.
fn follow(
    theory: Theory<'_>,
    tables: &mut LentTables<'_>,
    clause: ClauseRecord,
    part: RolePart,
    other: ClauseRecord,
) -> Result<(), Full>
    requires toward { (clause.part ≡ Just part) × (part.role < 16) }
    requires cited { Cites tables.old.counts.contexts clause × Cites tables.old.counts.contexts other }
    ensures same { SameLent tables.old tables.new }
    ensures gives { (t e : ClauseOf) → clause_of tables.old.contexts.now clause ≡ t → clause_of tables.old.contexts.now other ≡ e
        → Ends (Brought (OfPair theory.entry.axioms.now t e)) (lent tables.old) (lent tables.new) result }
{
    if let Some(top) = other.head() {
        let meeting = Meeting {
            clause,
            part,
            other,
            top,
        };
        return meet_all(theory, tables, meeting);
    }
    if other.context != part.context || !other.is_empty() {
        return Ok(());
    }
    tables.enter_clause(ClauseRecord::lone(clause.context, clause.classes))
}

/// The role part of the clause, where the other is of its context or of the one that the role part is toward.
fn shared_part(clause: ClauseRecord, other: ClauseRecord) -> Option<RolePart>
    ensures { MatchOption result (Shares clause other → ⊥) (λ part. clause.part ≡ Just part × Shares clause other) }
{
    clause.part.filter(|part| other.context == part.context || other.context == clause.context)
}

/// Whether the clause has a role part, and the other is of its context or of the one that the role part is toward.
pub(crate) fn shares(clause: ClauseRecord, other: ClauseRecord) -> bool
    ensures { Decides result (Shares clause other) }
{
    shared_part(clause, other).is_some()
}

/// Enters what follows from a clause with a role part and one without; nothing where they are not such, or share no context.
pub(crate) fn pair(
    theory: Theory<'_>,
    tables: &mut LentTables<'_>,
    clause: ClauseRecord,
    other: ClauseRecord,
) -> Result<(), Full>
    requires cited { Cites tables.old.counts.contexts clause × Cites tables.old.counts.contexts other }
    requires roles { RolesBelow 16 clause.part }
    ensures same { SameLent tables.old tables.new }
    ensures gives { (t e : ClauseOf) → clause_of tables.old.contexts.now clause ≡ t → clause_of tables.old.contexts.now other ≡ e
        → Ends (Brought (OfPair theory.entry.axioms.now t e)) (lent tables.old) (lent tables.new) result }
{
    let Some(part) = shared_part(clause, other) else {
        return Ok(());
    };
    follow(theory, tables, clause, part, other)
}
