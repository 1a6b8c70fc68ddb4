//! Entering records into a table, each once.
ghost use Rattle.std.specs.Prelude.{◌≡◌, ◌<◌, ◌≤◌, ◌↔◌, length, true, Decides, MatchOption, MatchResult};
ghost use Rattle.std.proofs.Common.{rules};
ghost use Rattle.tables.specs.Entering.{Holds, Among, Entered, Refused};

use crate::records::{ClauseRecord, ContextRecord};

/// Values of which two can be compared.
pub trait Same {
    /// Whether the two are the same.
    fn same(&self, other: &Self) -> bool
        ensures { Decides result (self.now ≡ other.now) };
}

/// Values of which `==` says whether they are the same.
pub trait Exact: PartialEq {
    ghost decides: { (a b : Self) → Self.eq a b ≡ true ↔ a ≡ b };
}

impl Exact for ContextRecord {
    ghost decides = { Prim.search rules };
}

impl Exact for ClauseRecord {
    ghost decides = { Prim.search rules };
}

impl Same for ContextRecord {
    fn same(&self, other: &Self) -> bool {
        self == other
    }
}

impl Same for ClauseRecord {
    fn same(&self, other: &Self) -> bool {
        self == other
    }
}

/// There was no slot left.
#[derive(Clone, Copy, PartialEq, Eq, Debug)]
pub struct Full;

/// Where a record stands, and how many slots are used now.
#[derive(Clone, Copy, PartialEq, Eq, Debug)]
pub struct Place {
    pub slot: usize,
    pub used: usize,
}

/// The first slot that holds the record.
// By slot: what `position` finds is told of a test that is a function, and `same` is any test that decides.
fn find<R: Same + Copy>(slots: &[R], record: R) -> Option<usize>
    ensures { MatchOption result (Among slots.now (length slots.now) «record» → ⊥) (λ slot. (slot < length slots.now) × Holds slots.now slot «record» × (Among slots.now slot «record» → ⊥)) }
{
    for i in 0..slots.len() {
        if slots[i].same(&record) {
            return Some(i);
        }
    }
    None
}

/// Finds the record among the first `used` slots, or puts it into the next one; where no slot is left, the table stays as it was.
/// The caller's count is never above the number of slots: a count comes from here, and grows only where a slot was free.
// The table is lent whole and filled from the front, so the count of used slots stands beside it.
pub fn enter<R: Same + Copy>(table: &mut [R], used: usize, record: R) -> Result<Place, Full>
    requires { used ≤ length table.old }
    ensures { MatchResult result
        (λ p. Entered table.old used «record» table.new p.slot p.used)
        (λ _. Refused table.old used «record» table.new) }
{
    if let Some(slot) = find(&table[..used], record) {
        return Ok(Place { slot, used });
    }
    if used == table.len() {
        return Err(Full);
    }
    table[used] = record;
    Ok(Place {
        slot: used,
        used: used + 1,
    })
}
