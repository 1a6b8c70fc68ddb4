//! Saturation: entering the closure of a goal into the two tables.
//!
//! Clauses are given one after another, in the order of their slots, and each brings what follows from it and the clauses before it; nothing but
//! members of the closure is ever entered. `specs/` reads the closure's rules as steps, and `proofs/` shows that tables in which every slot was
//! given have the whole closure. The crate rests on `terms`, `closure`, `tables` and `roles`; docs/saturation.md tells it in plain words.
#![tactic(auto)]

mod choices;
mod contexts;
mod pairs;
pub mod saturation;
mod theory;
mod turns;

pub use saturation::saturate;
