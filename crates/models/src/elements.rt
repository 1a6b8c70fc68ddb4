//! Which contexts have an element, and its number.
ghost use Rattle.std.specs.Prelude.{◌≡◌, ℕ, ◌<◌, length, None as Nothing, slice_index_or};
ghost use Rattle.models.specs.Elements.{clause_at, Safe, Numbered};
ghost use Rattle.models.specs.Props.{safe_prop, numbered_prop};

use tables::{ClauseRecord, ContextRecord};

/// Saturated tables, and the number of each slot's element, where its context has one.
#[derive(Clone, Copy)]
pub(crate) struct Elements<'a, 'b> {
    pub contexts: &'a [ContextRecord],
    pub clauses: &'b [ClauseRecord],
    // The contexts are lent and stay as they are, so the number that belongs to each slot stands in an array beside them.
    numbers: [Option<u16>; 256],
    ghost safe: { Safe contexts.now clauses.now } by { safe_prop _ _ },
    ghost numbered: { Numbered clauses.now numbers } by { numbered_prop _ _ },
}

/// The number of each slot's element: how many of the slots before it have one. A slot has one unless some clause is empty.
fn numbers(clauses: &[ClauseRecord]) -> [Option<u16>; 256]
    requires { (k : ℕ) → k < length clauses.now → (clause_at clauses.now k).context < 256 }
    ensures { Numbered clauses.now result }
{
    let mut numbers = [Some(0); 256];
    for clause in clauses {
        if clause.is_empty() {
            numbers[usize::from(clause.context)] = None;
        }
    }
    let mut count = 0;
    for number in numbers.iter_mut() {
        if number.is_some() {
            *number = Some(count);
            count += 1;
        }
    }
    numbers
}

impl<'a, 'b> Elements<'a, 'b> {
    /// The elements of the tables.
    pub fn of(contexts: &'a [ContextRecord], clauses: &'b [ClauseRecord]) -> Elements<'a, 'b>
        requires { Safe contexts.now clauses.now }
        ensures contexts { result.contexts.now ≡ contexts.now }
        ensures clauses { result.clauses.now ≡ clauses.now }
    {
        Elements {
            contexts,
            clauses,
            numbers: numbers(clauses),
        }
    }

    /// The number of the slot's element, if it has one.
    pub fn number(&self, slot: u16) -> Option<u16>
        requires { slot < 256 }
        ensures { result ≡ slice_index_or self.now.numbers slot Nothing }
    {
        self.numbers[usize::from(slot)]
    }
}
