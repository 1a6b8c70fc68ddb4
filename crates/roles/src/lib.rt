//! Which roles reach which by the role inclusions of a list of axioms.
//!
//! A `Reach` is worked out once from the axioms, and then each question is one bit. The crate rests on `terms` and `closure`.
#![tactic(auto)]

pub mod reach;

pub use reach::Reach;
