//! The verdict on a goal.
ghost use Rattle.std.specs.Prelude.{length, Decides};
ghost use Rattle.tables.specs.Entering.{Among};
ghost use Rattle.tables.specs.Records.{lone};

use tables::ClauseRecord;
use terms::ClassSet;

/// Whether the clauses have the empty one without role part of the context in the first slot.
pub(crate) fn is_refuted(clauses: &[ClauseRecord]) -> bool
    ensures { Decides result (Among clauses.now (length clauses.now) (lone 0 0)) }
{
    clauses.contains(&ClauseRecord::lone(0, ClassSet::empty()))
}
