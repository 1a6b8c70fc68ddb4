//! Finite worlds, in which classes have elements and roles link them, and the audit of a world against axioms.
//!
//! A world is read from a model table or from a store's table of entries; an audit says whether it obeys every axiom of a source,
//! or names the first that is broken and the lowest element that breaks it. The crate rests on `terms` and `sources`.
#![tactic(auto)]

pub mod audit;
mod chains;
pub mod entry_table;
pub mod link;
pub mod marks;
pub mod model_table;
pub mod world;

pub use audit::Breach;
pub use entry_table::EntryTable;
pub use link::Link;
pub use marks::Marks;
pub use model_table::ModelTable;
