//! The closure as pure theory: what the engine's tables have to hold, and what that says of finite worlds.
//!
//! `specs/` defines the closure of a goal context by its rules. Each function here does nothing; its contract is a theorem:
//! the closure is the least that keeps the rules, it is sound and complete, its verdict is right for every order of the classes,
//! its members can be counted, and the worked examples come out. The crate rests on `terms` and `worlds`; docs/closure.md tells the proofs.
#![tactic(auto)]

ghost use Rattle.closure.specs.Rules.{KeepsRules, Least};
ghost use Rattle.closure.specs.Soundness.{SoundClauses, Sound};
ghost use Rattle.closure.specs.Canonical.{CanonicalObeys, CanonicalExists, Complete};
ghost use Rattle.closure.specs.Verdicts.{VerdictRight, OneVerdict};
ghost use Rattle.closure.specs.Counts.{Counted};
ghost use Rattle.closure.specs.Examples.{Examples};

/// The closure has the goal and keeps the rules, and whatever else does contains it.
pub fn least()
    ensures { KeepsRules × Least }
{}

/// In a world that obeys the axioms every clause of the closure is true, so a goal that is refuted has no element there.
pub fn sound()
    ensures { SoundClauses × Sound }
{}

/// A canonical world of a table that keeps the rules obeys the axioms; a table whose goal is live has one; so it has a model.
pub fn complete()
    ensures { CanonicalObeys × CanonicalExists × Complete }
{}

/// Of a finite closure: none exactly where no world has such an element, some exactly where one has, and so for every order.
pub fn verdict()
    ensures { VerdictRight × OneVerdict }
{}

/// The number of the closure's members is one number, and it has more than n members exactly where that number is above n.
pub fn counted()
    ensures { Counted }
{}

/// The definitions give every row of the worked examples, and what they say of the worlds of the first two.
pub fn examples()
    ensures { Examples }
{}
