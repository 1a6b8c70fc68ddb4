//! What an ask answers.
use tables::Counts;

/// None or some, with how many contexts and clauses the closure has.
// Both cases carry counts, so neither `Option` nor `Result` has this shape.
#[derive(Clone, Copy, PartialEq, Eq, Debug)]
pub enum Answer {
    /// None: no world that obeys the axioms has such an element.
    Nothing {
        counts: Counts,
    },
    /// Some: one has; where a model table was lent, its first rows show one with so many elements.
    Something {
        counts: Counts,
        elements: Option<usize>,
    },
}
