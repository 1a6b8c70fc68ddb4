//! The two tables that an ask is lent, one for contexts and one for clauses, and how a member of the closure gets into them.
//!
//! Records take their slots in the order in which they are entered, each once, and a table that has no slot left says so. `specs/` says what
//! the used slots mean in the closure's own words; `proofs/` has the laws of adding to the tables and of counting what is in them.
//! The crate rests on `terms` and `closure`; docs/tables.md tells it in plain words.
#![tactic(auto)]

ghost use Rattle.tables.specs.Filling.{EachOnce, CountsRight, FullRight, FitsRight};

pub mod entering;
pub mod lent;
pub mod members;
pub mod records;

pub use entering::{Exact, Full, Place, Same, enter};
pub use lent::LentTables;
pub use members::{ContextPlace, Counts, enter_clause, enter_context, enter_toward};
pub use records::{ClauseRecord, ContextRecord, RolePart};

/// Good tables have each member once. Where they were filled with the closure, their counts are its numbers of contexts and clauses;
/// where there was no slot left for a member, it has more contexts or more clauses than there are slots; and not both.
pub fn filled()
    ensures { EachOnce × CountsRight × FullRight × FitsRight }
{}
