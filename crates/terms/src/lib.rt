//! The words that every layer shares: sets of classes, the five forms of axiom, and refusals.
//!
//! Sets promise by membership, axioms say whether they keep to the classes and roles that there are, and a refusal is told by its
//! number, its place and its layer. The crate rests on `std` alone.
#![tactic(auto)]

pub mod axioms;
pub mod class_set;
pub mod refusals;

pub use axioms::Axiom;
pub use class_set::{ClassSet, Classes};
pub use refusals::{Fault, Layer, Refusal, UnknownNumber};
