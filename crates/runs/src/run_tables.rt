//! The tables of a run.
use tables::{ClauseRecord, ContextRecord};

/// The three tables that are lent for a whole run.
#[derive(Drop)]
pub struct RunTables<'a> {
    /// The context slots.
    pub contexts: &'a mut [ContextRecord],
    /// The clause slots.
    pub clauses: &'a mut [ClauseRecord],
    /// The words of the model table.
    pub model: &'a mut [u64],
}
