//! The classes of an element.
ghost use Rattle.std.specs.Prelude.{◌≡◌, ℕ, ◌<◌, ◌↔◌, length, Decides};
ghost use Rattle.terms.specs.Sets.{Has};
ghost use Rattle.models.specs.Elements.{Headed, Yields, Produces, Turns};

use tables::ClauseRecord;
use terms::ClassSet;

/// The element of a slot, with the classes that it is in, as far as they are decided.
#[derive(Clone, Copy)]
pub(crate) struct Element {
    pub slot: u16,
    pub classes: ClassSet,
}

/// All heads of the clauses of the slot.
fn heads(clauses: &[ClauseRecord], slot: u16) -> ClassSet
    ensures { Headed clauses.now slot (length clauses.now) result.bits }
{
    let mut all = ClassSet::empty();
    for clause in clauses {
        if clause.context == slot {
            if let Some(head) = clause.head() {
                all = all.with(head);
            }
        }
    }
    all
}

impl Element {
    /// The element of the slot, its classes decided by rising class: each that a clause yields by those decided so far.
    pub fn of(clauses: &[ClauseRecord], slot: u16) -> Element
        ensures slot { result.slot ≡ slot }
        ensures classes { (a : ℕ) → Has result.classes.bits a ↔ Produces clauses.now slot result.classes.bits a }
    {
        let heads = heads(clauses, slot);
        let mut element = Element {
            slot,
            classes: ClassSet::empty(),
        };
        for class in 0..ClassSet::MOST {
            element = element.decide(clauses, heads, class);
        }
        element
    }

    /// The element, and in the class too where a clause yields it; a class that is no head need not be looked for.
    fn decide(self, clauses: &[ClauseRecord], heads: ClassSet, class: u8) -> Element
        requires low { class < 64 }
        requires heads { Headed clauses.now self.slot (length clauses.now) heads.bits }
        ensures slot { result.slot ≡ self.slot }
        ensures turns { Turns clauses.now self.slot self.classes.bits class result.classes.bits }
    {
        if heads.contains(class) && self.is_given(clauses, class) {
            Element {
                slot: self.slot,
                classes: self.classes.with(class),
            }
        } else {
            self
        }
    }

    /// Whether some clause yields the class.
    fn is_given(self, clauses: &[ClauseRecord], class: u8) -> bool
        ensures { Decides result (Produces clauses.now self.slot self.classes.bits class) }
    {
        clauses.iter().any(|clause| self.yields(clause, class))
    }

    /// Whether the clause is one of the slot with the class as head, and the element is in no other class of it.
    fn yields(self, clause: &ClauseRecord, class: u8) -> bool
        ensures { Decides result (Yields self.slot self.classes.bits class clause.now) }
    {
        clause.context == self.slot
            && clause.head() == Some(class)
            && !clause.classes.without(class).meets(self.classes)
    }
}
