//! What a saturation reads and does not change.
ghost use Rattle.std.specs.List.{AllByRecursion, AllByRecursion-prop};
ghost use Rattle.terms.specs.Axioms.{WellFormed};
ghost use Rattle.terms.specs.Formed.{formed_prop};
ghost use Rattle.roles.specs.Reaching.{Shows};

use roles::Reach;
use terms::Axiom;

/// Well-formed axioms, with which roles reach which by them.
#[derive(Clone, Copy)]
pub(crate) struct Theory<'a> {
    pub(crate) axioms: &'a [Axiom],
    pub(crate) reach: &'a Reach,
    ghost formed: { AllByRecursion (WellFormed 64 16) axioms.now } by { AllByRecursion-prop (WellFormed 64 16) (formed_prop 64 16) axioms.now },
    ghost shows: { ∥ Shows axioms.now reach.now.rows ∥₁ },
}
