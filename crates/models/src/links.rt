//! The links of an element.
ghost use Rattle.std.specs.Prelude.{◌≡◌, ℕ, ◌+◌, ◌*◌, ◌<◌, true, ◌↔◌, length, Some, Decides, slice_index};
ghost use Rattle.terms.specs.Sets.{Has};
ghost use Rattle.worlds.specs.Entries.{marked};
ghost use Rattle.models.specs.Elements.{live_in};
ghost use Rattle.models.specs.Targets.{Wishes, Beats, Outdone, Beaten, Points};
ghost use Rattle.tables.specs.Tables.{PartCites};

use crate::classes::Element;
use crate::elements::Elements;
use roles::Reach;
use tables::{ClauseRecord, RolePart};
use terms::ClassSet;
use worlds::Marks;

impl Element {
    /// The role part of a clause of the slot, where the element is in no class of the clause.
    fn wish(self, clause: &ClauseRecord) -> Option<RolePart>
        ensures { (part : RolePart) → result ≡ Some part ↔ Wishes self.slot self.classes.bits part clause.now }
    {
        if clause.context == self.slot && !clause.classes.meets(self.classes) {
            clause.part
        } else {
            None
        }
    }
}

// That a role part cites a context is asked at each call: a type that keeps it would have to hold the contexts too.
impl<'a, 'b> Elements<'a, 'b> {
    /// Whether the other role part has the same role, and another context that holds and denies all that this one's does.
    fn beats(&self, other: RolePart, part: RolePart) -> bool
        requires { (other.context < length self.now.contexts.now) × (part.context < length self.now.contexts.now) }
        ensures { Decides result (Beats self.now.contexts.now other part) }
    {
        if other.role != part.role || other.context == part.context {
            return false;
        }
        let low = self.contexts[usize::from(part.context)];
        let high = self.contexts[usize::from(other.context)];
        low.held.is_subset(high.held) && low.denied.is_subset(high.denied)
    }

    /// Whether the clause is one of the element's slot and wants a role part that beats this one.
    fn is_outdone(&self, element: Element, part: RolePart, clause: &ClauseRecord) -> bool
        requires below { part.context < length self.now.contexts.now }
        requires cited { PartCites (length self.now.contexts.now) clause.now.part }
        ensures { Decides result (Outdone self.now.contexts.now element.slot element.classes.bits part clause.now) }
    {
        // A match: a closure for `is_some_and` would need clauses of its own.
        match element.wish(clause) {
            Some(other) => self.beats(other, part),
            None => false,
        }
    }

    /// Whether some clause of the element's slot wants a role part that beats this one.
    fn is_beaten(&self, element: Element, part: RolePart) -> bool
        requires { part.context < length self.now.contexts.now }
        ensures { Decides result (Beaten self.now.contexts.now self.now.clauses.now (length self.now.clauses.now) element.slot element.classes.bits part) }
    {
        self.clauses
            .iter()
            .any(|clause| self.is_outdone(element, part, clause))
    }

    /// The links that the clauses of the element's slot want: for each role a mark at each element that it links to, 256 numbers a role.
    pub(crate) fn wanted_links(&self, element: Element) -> Marks<64>
        ensures { (p f : ℕ) → f < 256 → marked result.words (256 * p + f) ≡ true
            ↔ Points self.now.contexts.now self.now.clauses.now (live_in self.now.numbers) (length self.now.clauses.now) element.slot element.classes.bits p f }
    {
        let mut links = Marks::new();
        for clause in self.clauses {
            if let Some(part) = element.wish(clause) {
                if let Some(number) = self.number(part.context) {
                    if !self.is_beaten(element, part) {
                        links.set(256 * usize::from(part.role) + usize::from(number));
                    }
                }
            }
        }
        links
    }
}

/// One word of links by a role, to 64 elements: those by each role that reaches it.
pub(crate) fn link_word(links: &Marks<64>, reach: &Reach, role: u8, block: usize) -> u64
    requires { block < 4 }
    ensures { (b : ℕ) → Has result b ↔ ((p : ℕ) × (p < 16) × Has (slice_index reach.now.rows p) role × Has (slice_index links.now.words (4 * p + block)) b) }
{
    let mut word = ClassSet::empty();
    for from in 0..16u8 {
        if reach.reaches(from, role) {
            word = word.union(ClassSet::from_bits(links.word(4 * usize::from(from) + block)));
        }
    }
    word.bits()
}
