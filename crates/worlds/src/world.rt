//! The interface of a world.
ghost use Rattle.std.specs.Prelude.{◌≡◌, ℕ, ◌<◌, Decides};
ghost use Rattle.terms.specs.Sets.{has};
ghost use Rattle.terms.specs.Refusals.{Answers, check, end, told};
ghost use Rattle.worlds.specs.Worlds.{World as WorldOf, In, Linked, Successor};
ghost use Rattle.worlds.specs.Audits.{in_world};

use sources::source::MOST_ROLES;
use terms::{ClassSet, Fault, Layer};

/// A finite world: elements numbered from 0, at least one, the classes that each is in, and the pairs that each role links.
pub trait World {
    /// The size, the membership and the links. Of what is past the end nothing is so.
    ghost meaning: { Self → WorldOf };

    /// How many elements there are.
    fn size(&self) -> u32
        ensures value { result ≡ (meaning self.now).size }
        ensures some { 0 < result };

    /// The classes of an element; none past the end.
    fn classes_of(&self, element: u32) -> ClassSet
        ensures { (a : ℕ) → has result.bits a ≡ (meaning self.now).is_in element a };

    /// Whether a role links one element to another; never past the end.
    fn is_linked(&self, role: u8, from: u32, to: u32) -> bool
        ensures { result ≡ (meaning self.now).links role from to };

    /// Whether an element is in a class below 64.
    fn is_in(&self, element: u32, class: u8) -> Result<bool, Fault>
        ensures { Answers (check 10 ((element < (meaning self.now).size) × (class < 64)) end) 0 in_world
            (λ v. v ≡ (meaning self.now).is_in element class) (told result) }
    {
        if element >= self.size() || class >= ClassSet::MOST {
            return Err(Layer::World.past_end());
        }
        Ok(self.classes_of(element).contains(class))
    }

    /// Whether a role below 16 links one element to another.
    fn links(&self, role: u8, from: u32, to: u32) -> Result<bool, Fault>
        ensures { Answers (check 10 ((role < 16) × (from < (meaning self.now).size) × (to < (meaning self.now).size)) end) 0 in_world
            (λ v. v ≡ (meaning self.now).links role from to) (told result) }
    {
        if role >= MOST_ROLES || from >= self.size() || to >= self.size() {
            return Err(Layer::World.past_end());
        }
        Ok(self.is_linked(role, from, to))
    }

    /// Whether some successor of the element by the role is in the class.
    fn some_successor(&self, element: u32, role: u8, class: u8) -> bool
        ensures { Decides result ((f : ℕ) × Successor (meaning self.now) role element f × In (meaning self.now) f class) }
    {
        let mut others = 0..self.size();
        others.any(|other| {
            self.is_linked(role, element, other) && self.classes_of(other).contains(class)
        })
    }

    /// Whether every successor of the element by the role is in the class.
    fn every_successor(&self, element: u32, role: u8, class: u8) -> bool
        ensures { Decides result ((f : ℕ) → Successor (meaning self.now) role element f → In (meaning self.now) f class) }
    {
        let mut others = 0..self.size();
        others.all(|other| {
            !self.is_linked(role, element, other) || self.classes_of(other).contains(class)
        })
    }

    /// Whether every successor of the element by one role is one by the other.
    fn successors_within(&self, element: u32, sub: u8, sup: u8) -> bool
        ensures { Decides result ((f : ℕ) → Successor (meaning self.now) sub element f → Linked (meaning self.now) sup element f) }
    {
        let mut others = 0..self.size();
        others.all(|other| {
            !self.is_linked(sub, element, other) || self.is_linked(sup, element, other)
        })
    }
}
