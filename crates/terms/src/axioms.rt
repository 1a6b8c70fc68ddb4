//! The five forms of axiom.
ghost use Rattle.std.specs.Prelude.{◌≡◌, Decides};
ghost use Rattle.terms.specs.declared.axioms.Axiom.TheVariants.{RoleInclusion};
ghost use Rattle.terms.specs.Axioms.{Declared, Narrow, axiom_checks};
ghost use Rattle.terms.specs.Refusals.{Answers, end, told};

use crate::class_set::ClassSet;
use crate::refusals::{Fault, Layer, Refusal};

/// A statement about classes, each a number below 64, and roles, each a number below 16.
#[derive(Clone, Copy, PartialEq, Eq, Debug)]
pub enum Axiom {
    /// An element in all of `lower` is in at least one class of `upper`.
    Inclusion { lower: ClassSet, upper: ClassSet },
    /// An element in `lower` has a successor by `role` that is in `filler`.
    Exists { lower: u8, role: u8, filler: u8 },
    /// An element with a successor by `role` in `filler` is in `upper`.
    ExistsLower { role: u8, filler: u8, upper: u8 },
    /// An element in `lower` has all its successors by `role` in `filler`.
    Forall { lower: u8, role: u8, filler: u8 },
    /// Every pair that `sub` links is linked by `sup`.
    RoleInclusion { sub: u8, sup: u8 },
}

/// An axiom that every world obeys, to fill a place with.
impl Default for Axiom {
    ghost is_default = { λ x. x ≡ RoleInclusion 0 0 };

    fn default() -> Self {
        Axiom::RoleInclusion { sub: 0, sup: 0 }
    }
}

impl Axiom {
    /// An inclusion has at most this many classes on the left.
    pub const MOST_LOWER: u32 = 3;

    /// Whether the axiom speaks only of classes below `classes` and roles below `roles`.
    // How many classes and how many roles there are is asked of a source apart, so callers have two numbers.
    pub fn is_declared(self, classes: u8, roles: u8) -> bool
        ensures { Decides result (Declared classes roles self) }
    {
        match self {
            Axiom::Inclusion { lower, upper } => lower.is_below(classes) && upper.is_below(classes),
            Axiom::Exists {
                lower: class,
                role,
                filler,
            }
            | Axiom::ExistsLower {
                role,
                filler,
                upper: class,
            }
            | Axiom::Forall {
                lower: class,
                role,
                filler,
            } => class < classes && role < roles && filler < classes,
            Axiom::RoleInclusion { sub, sup } => sub < roles && sup < roles,
        }
    }

    /// Whether the axiom has at most three classes on the left.
    pub fn is_narrow(self) -> bool
        ensures { Decides result (Narrow self) }
    {
        match self {
            Axiom::Inclusion { lower, .. } => lower.len() <= Self::MOST_LOWER,
            _ => true,
        }
    }

    /// Refuses an axiom that speaks of what is not declared, or has more than three classes on the left.
    pub fn check(self, classes: u8, roles: u8, place: usize, layer: Layer) -> Result<(), Fault>
        ensures { Answers (axiom_checks classes roles self end) place layer (λ _. Unit {0}) (told result) }
    {
        if !self.is_declared(classes, roles) {
            return Err(Refusal::Undeclared.at(place, layer));
        }
        if !self.is_narrow() {
            return Err(Refusal::TooWide.at(place, layer));
        }
        Ok(())
    }
}
