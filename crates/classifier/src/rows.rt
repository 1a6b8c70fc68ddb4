//! Classification: a row of bits for each class.
ghost use Rattle.std.specs.Prelude.{◌≡◌, ◌<◌, ◌≤◌, length};
ghost use Rattle.terms.specs.Refusals.{Told, told};
ghost use Rattle.classifier.specs.Under.{Lent, lent, Classified};
ghost use Rattle.classifier.specs.Asking.{RowAsked};

use crate::pairs::is_under;
use reasoner::asking::{MOST_CLAUSES, MOST_CONTEXTS};
use sources::Source;
use tables::{ClauseRecord, ContextRecord};
use terms::{ClassSet, Fault, Layer, Refusal};

// The tables are lent as slices and pass through to each ask; `classify` has checked that they are within the most.

/// The classes that the lower class is under, asked one by one.
fn row_of<S: Source>(
    source: &S,
    lower: u8,
    contexts: &mut [ContextRecord],
    clauses: &mut [ClauseRecord],
) -> Result<ClassSet, Fault>
    requires there { lower < (S.Source.meaning source.now).classes }
    requires sizes { (length contexts.old ≤ 256) × (length clauses.old ≤ 65535) }
    ensures { RowAsked (S.Source.meaning source.now) lower (length contexts.old) (length clauses.old) contexts.new clauses.new (told result) }
{
    let mut row = ClassSet::empty();
    for upper in 0..source.class_count() {
        if is_under(source, lower, upper, contexts, clauses)? {
            row = row.with(upper);
        }
    }
    Ok(row)
}

/// Writes a row for each class: bit `b` of row `a` is 1 exactly where class `a` is under class `b`.
///
/// The asks go by rising lower class, then by rising upper class. Where the closure of a pair does not fit, the rows of the lower
/// classes before it are written, and the place of the refusal tells the pair.
pub fn classify<S: Source>(
    source: &S,
    contexts: &mut [ContextRecord],
    clauses: &mut [ClauseRecord],
    rows: &mut [u64],
) -> Result<(), Fault>
    ensures gives { Classified (S.Source.meaning source.now) (lent contexts.old clauses.old rows.old) (lent contexts.new clauses.new rows.new) (told result) }
    ensures only { (u : Lent) (t : Told (Unit {0})) → Classified (S.Source.meaning source.now) (lent contexts.old clauses.old rows.old) u t → (t ≡ told result) × (u.rows ≡ rows.new) }
{
    let classes = source.class_count();
    if rows.len() < usize::from(classes)
        || contexts.len() > MOST_CONTEXTS
        || clauses.len() > MOST_CLAUSES
    {
        return Err(Refusal::TableSize.at(0, Layer::Classify));
    }
    // By class: over the rows it would take their leading part, and a cast of each place to its class.
    for lower in 0..classes {
        rows[usize::from(lower)] = row_of(source, lower, contexts, clauses)?.bits();
    }
    Ok(())
}
