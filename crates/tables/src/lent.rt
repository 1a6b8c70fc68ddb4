//! The two lent tables, while members of the closure are entered into them.
ghost use Rattle.std.specs.Prelude.{◌≡◌, ℕ, ◌<◌, ◌≤◌, ◌⊎◌, length, MatchResult};
ghost use Rattle.closure.specs.Closures.{clause, toward};
ghost use Rattle.tables.specs.Entering.{Entered, Refused};
ghost use Rattle.tables.specs.Tables.{tables, context_of, context_in, clause_of, a_context, a_clause, Cites, Good, Good-prop};
ghost use Rattle.tables.specs.Adding.{Ends};

use crate::entering::{Full, enter};
use crate::members::Counts;
use crate::records::{ClauseRecord, ContextRecord, RolePart};
use terms::ClassSet;

/// Both tables as they are lent, with how many slots of each are used. There are at most 256 contexts, so a clause can cite each, and the used
/// slots are good: each cited slot is used, and no record stands twice.
#[derive(Drop)]
pub struct LentTables<'a> {
    pub contexts: &'a mut [ContextRecord],
    pub clauses: &'a mut [ClauseRecord],
    // The slices are lent whole and filled from the front, so how many slots are used stands beside them.
    pub counts: Counts,
    pub ghost few: { length contexts.now ≤ 256 },
    pub ghost good: { Good (tables contexts.now clauses.now counts) } by { Good-prop (tables contexts.now clauses.now counts) },
}

impl<'a> LentTables<'a> {
    ghost use Rattle.tables.specs.Lent.{lent, SameLent, ContextsKept, ClausesKept};

    /// Enters a context, whatever clauses there are, and tells its slot.
    pub fn enter_context(&mut self, record: ContextRecord) -> Result<u16, Full>
        ensures same { SameLent self.old self.new }
        ensures kept { ClausesKept self.old self.new }
        ensures entered { MatchResult result
            (λ slot. Entered self.old.contexts.now self.old.counts.contexts «record» self.new.contexts.now slot self.new.counts.contexts)
            (λ _. Refused self.old.contexts.now self.old.counts.contexts «record» self.new.contexts.now × (self.new.counts ≡ self.old.counts)) }
        ensures adds { Ends (λ m. m ≡ a_context (context_of «record»)) (lent self.old) (lent self.new) result }
    {
        let place = enter(self.contexts, self.counts.contexts, record)?;
        self.counts.contexts = place.used;
        Ok(place.slot as u16)
    }

    /// Enters a clause that cites used slots, whatever contexts they hold.
    pub fn enter_clause(&mut self, record: ClauseRecord) -> Result<(), Full>
        requires { Cites self.old.counts.contexts «record» }
        ensures same { SameLent self.old self.new }
        ensures kept { ContextsKept self.old self.new }
        ensures entered { MatchResult result
            (λ _. (slot : ℕ) × Entered self.old.clauses.now self.old.counts.clauses «record» self.new.clauses.now slot self.new.counts.clauses)
            (λ _. Refused self.old.clauses.now self.old.counts.clauses «record» self.new.clauses.now × (self.new.counts ≡ self.old.counts)) }
        ensures adds { Ends (λ m. m ≡ a_clause (clause_of self.old.contexts.now «record»)) (lent self.old) (lent self.new) result }
    {
        let place = enter(self.clauses, self.counts.clauses, record)?;
        self.counts.clauses = place.used;
        Ok(())
    }

    /// Enters a clause of the context in slot `context` with a role part, and the context that the role part is toward.
    pub fn enter_toward(
        &mut self,
        context: u16,
        classes: ClassSet,
        role: u8,
        target: ContextRecord,
    ) -> Result<(), Full>
        requires { context < self.old.counts.contexts }
        ensures same { SameLent self.old self.new }
        ensures adds { Ends (λ m. (m ≡ a_context (context_of target)) ⊎ (m ≡ a_clause (clause (context_in self.old.contexts.now context) classes.bits (toward role (context_of target)))))
            (lent self.old) (lent self.new) result }
    {
        let slot = self.enter_context(target)?;
        let part = RolePart {
            role,
            context: slot,
        };
        let record = ClauseRecord {
            context,
            classes,
            part: Some(part),
        };
        self.enter_clause(record)
    }
}
