//! An axiom in its place on a sheet.
ghost use Rattle.std.specs.Prelude.{◌≡◌};
ghost use Rattle.terms.specs.declared.axioms.Axiom.TheVariants.{Inclusion};
ghost use Rattle.terms.specs.Axioms.{set_of};

use std::marker::Model;
use terms::{Axiom, ClassSet};

/// An axiom of a sheet. To a contract it is the axiom that it holds.
// A fresh sheet fills 1,024 places with the default, and all bits of this one are zero, which those of `Axiom::default()` are not.
#[derive(Drop)]
pub struct Statement {
    said: Axiom,
}

impl Model for Statement {
    ghost use Rattle.terms.specs.declared.axioms.Axiom.{Axiom as AxiomOf};

    ghost Value = { AxiomOf };

    ghost view = { λ s. s.said };
}

impl Statement {
    /// The statement of an axiom.
    pub(crate) fn of(said: Axiom) -> Statement
        ensures { result ≡ said }
    {
        Statement { said }
    }

    /// The axiom that it holds.
    pub(crate) fn said(&self) -> Axiom
        ensures { result ≡ self.now }
    {
        self.said
    }
}

impl Default for Statement {
    ghost is_default = { λ s. s ≡ Inclusion (set_of 0) (set_of 0) };

    fn default() -> Self {
        Statement::of(Axiom::Inclusion {
            lower: ClassSet::empty(),
            upper: ClassSet::empty(),
        })
    }
}
