//! What a slot of each table holds.
ghost use Rattle.std.specs.Prelude.{◌≡◌, ℕ, ◌<◌, None as Nothing, Decides, MatchOption};
ghost use Rattle.tables.specs.Records.{lone as loneOf, Tops};

use terms::ClassSet;

/// A context: it speaks of the elements that are in all `held` and in no `denied` classes.
#[derive(Clone, Copy, Default, PartialEq, Eq, Debug)]
pub struct ContextRecord {
    pub held: ClassSet,
    pub denied: ClassSet,
}

/// The role part of a clause: a successor by `role` in the context that slot `context` of the context table holds.
#[derive(Clone, Copy, PartialEq, Eq, Debug)]
pub struct RolePart {
    pub role: u8,
    pub context: u16,
}

/// A clause of the context in slot `context`: each element is in one of `classes`, or has a successor as the role part says.
#[derive(Clone, Copy, PartialEq, Eq, Debug, Default)]
pub struct ClauseRecord {
    pub context: u16,
    pub classes: ClassSet,
    pub part: Option<RolePart>,
}

impl ClauseRecord {
    /// A clause of the context in a slot, without role part.
    pub fn lone(context: u16, classes: ClassSet) -> ClauseRecord
        ensures { result ≡ loneOf context classes.bits }
    {
        ClauseRecord {
            context,
            classes,
            part: None,
        }
    }

    /// The head: the highest class, where there is one and no role part.
    #[tactic(auto, using(crate::proofs::Tops::lone_top))]
    pub fn head(self) -> Option<u8>
        ensures { MatchOption result ((a : ℕ) → Tops self a → ⊥) (λ a. Tops self a × (a < 64)) }
    {
        if self.part.is_some() {
            return None;
        }
        self.classes.highest()
    }

    /// Whether there is no class and no role part.
    pub fn is_empty(self) -> bool
        ensures { Decides result ((self.part ≡ Nothing) × (self.classes.bits ≡ 0)) }
    {
        self.part.is_none() && self.classes.is_empty()
    }
}
