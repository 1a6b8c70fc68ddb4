//! Sources of axioms: what a source means and answers, a table of the caller's records, and finding a class by its name.
//!
//! Whatever stands on a source is proved against its meaning alone, so it holds for every source. The crate rests on `terms`.
#![tactic(auto)]

pub mod names;
pub mod record_table;
pub mod source;

pub use names::find_class;
pub use record_table::RecordTable;
pub use source::Source;
