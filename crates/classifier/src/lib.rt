//! The classifier: which classes of a source are under which.
//!
//! `classify` asks, for each two classes, whether anything can be in the one and not in the other, and writes a row of bits for each
//! class. `specs/Under.antt` has the whole promise. The crate rests on `reasoner`; docs/classify.md tells it in plain words.
#![tactic(auto)]

mod pairs;
pub mod rows;

pub use rows::classify;
