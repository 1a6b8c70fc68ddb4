//! One pair of classes: whether the one is under the other.
ghost use Rattle.std.specs.Prelude.{◌<◌, ◌≤◌, length};
ghost use Rattle.terms.specs.Refusals.{told};
ghost use Rattle.classifier.specs.Asking.{Asked};

use reasoner::{Answer, ask};
use sources::Source;
use tables::{ClauseRecord, ContextRecord};
use terms::{ClassSet, Fault};

/// Places are numbered with this many upper classes for each lower class.
const UPPER_PLACES: usize = 64;

// The tables are lent as slices and pass through to the ask; `classify` has checked that they are within the most.

/// Asks whether the lower class is under the upper class: whether nothing can be in the one and not in the other.
pub fn is_under<S: Source>(
    source: &S,
    lower: u8,
    upper: u8,
    contexts: &mut [ContextRecord],
    clauses: &mut [ClauseRecord],
) -> Result<bool, Fault>
    requires there { (lower < (S.Source.meaning source.now).classes) × (upper < (S.Source.meaning source.now).classes) }
    requires sizes { (length contexts.old ≤ 256) × (length clauses.old ≤ 65535) }
    ensures { Asked (S.Source.meaning source.now).axioms lower upper (length contexts.old) (length clauses.old) contexts.new clauses.new (told result) }
{
    let held = ClassSet::single(lower);
    let denied = ClassSet::single(upper);
    let place = usize::from(lower) * UPPER_PLACES + usize::from(upper);
    let answer = ask(source, held, denied, contexts, clauses).map_err(|fault| fault
        .kind
        .at(place, fault.layer))?;
    Ok(matches!(answer, Answer::Nothing { .. }))
}
