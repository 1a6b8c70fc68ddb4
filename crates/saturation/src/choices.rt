//! The choices of premises for an inclusion.
ghost use Rattle.std.specs.Prelude.{◌≡◌, ℕ, ◌+◌, ◌<◌, ◌≤◌, ◌⊎◌, List, Decides, ◌≢◌};
ghost use Rattle.terms.specs.Sets.{Has, size};
ghost use Rattle.tables.specs.Records.{Tops};
ghost use Rattle.tables.specs.Tables.{context_in};
ghost use Rattle.tables.specs.Adding.{Ends};
ghost use Rattle.tables.specs.Lent.{lent, SameLent, ContextsKept};
ghost use Rattle.saturation.specs.Choices.{Listed, Premise, Picks, given_record};

use tables::{ClauseRecord, Full, LentTables};
use terms::ClassSet;

/// Whether the clause can be the premise for `class`: it is of the given clause's context and has that head. For `top`, the given clause's own
/// head, the given clause is the only one.
fn is_premise(clause: ClauseRecord, class: u8, given: ClauseRecord, top: u8) -> bool
    ensures { Decides result (Premise given.context top given.classes.bits class clause) }
{
    clause.context == given.context
        && clause.head() == Some(class)
        && (class != top || clause.classes == given.classes)
}

/// Where the search for premises for `class` begins: at the given clause's slot for its own head, else at slot 0.
fn start(class: u8, top: u8, slot: usize) -> usize
    ensures { (result ≤ slot) × (((class ≢ top) × (result ≡ 0)) ⊎ ((class ≡ top) × (result ≡ slot))) }
{
    if class == top { slot } else { 0 }
}

/// Enters what the inclusion of `lower` in `upper` gives from the clause in slot `slot`, which has the head `top`, and clauses before it, for
/// every possible choice of them. The clauses are read by slot, since the loops add to their table.
// A loop stands for each of up to three lower classes, and all are left at once when a table is full.
pub(crate) fn choose(
    tables: &mut LentTables<'_>,
    slot: usize,
    top: u8,
    lower: ClassSet,
    upper: ClassSet,
) -> Result<(), Full>
    requires used { slot < tables.old.counts.clauses }
    requires headed { Tops (given_record tables.old.clauses.now slot) top × (top < 64) }
    requires narrow { Has lower.bits top × (size lower.bits ≤ 3) }
    ensures same { SameLent tables.old tables.new }
    ensures kept { ContextsKept tables.old tables.new }
    ensures picks { (Ts : List ℕ) → Listed tables.old.clauses.now (slot + 1) (given_record tables.old.clauses.now slot).context Ts
        → Ends (Picks (context_in tables.old.contexts.now (given_record tables.old.clauses.now slot).context) Ts top (given_record tables.old.clauses.now slot).classes.bits lower.bits upper.bits)
        (lent tables.old) (lent tables.new) result }
{
    let given = tables.clauses[slot];
    let Some(first) = lower.highest() else {
        return Ok(());
    };
    let others = lower.without(first);
    'first: for i in start(first, top, slot)..slot + 1 {
        let x = tables.clauses[i];
        if !is_premise(x, first, given, top) {
            continue 'first;
        }
        let with_first = upper.union(x.classes.without(first));
        let Some(second) = others.highest() else {
            tables.enter_clause(ClauseRecord::lone(given.context, with_first))?;
            continue 'first;
        };
        let last = others.without(second);
        'second: for j in start(second, top, slot)..slot + 1 {
            let y = tables.clauses[j];
            if !is_premise(y, second, given, top) {
                continue 'second;
            }
            let with_second = with_first.union(y.classes.without(second));
            let Some(third) = last.highest() else {
                tables.enter_clause(ClauseRecord::lone(given.context, with_second))?;
                continue 'second;
            };
            'third: for k in start(third, top, slot)..slot + 1 {
                let z = tables.clauses[k];
                if !is_premise(z, third, given, top) {
                    continue 'third;
                }
                let with_third = with_second.union(z.classes.without(third));
                tables.enter_clause(ClauseRecord::lone(given.context, with_third))?;
            }
        }
    }
    Ok(())
}
