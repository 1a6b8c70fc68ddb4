//! Writing the model of an ask: the canonical world of saturated tables, as rows of 64-bit words.
//!
//! Each live context gets an element, in the order of the slots; its classes are decided by rising class, and it is linked to the
//! maximal contexts that its clauses want. `specs/Writing.antt` has the whole promise; `Elements` and `Targets` beside it say of records and
//! slots what the inner functions decide. The crate rests on `terms`, `worlds`, `closure`, `tables` and `roles`; docs/models.md tells it in plain words.
#![tactic(auto)]

mod classes;
mod elements;
mod links;
pub mod model;

pub use model::write_model;
