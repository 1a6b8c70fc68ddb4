//! Runs of calls on a book.
#![tactic(auto)]

pub mod callers;
pub mod calls;
pub mod drivers;
pub mod laws;
mod run_tables;
mod serving;

pub use callers::{Caller, IsCall, converse};
pub use calls::{Call, Heard};
pub use drivers::life;
pub use laws::{joined, one_run};
