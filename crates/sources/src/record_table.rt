//! A table of axiom records that the caller holds.
ghost use Rattle.std.specs.Prelude.{◌≡◌, [], MatchResult};
ghost use Rattle.terms.specs.Refusals.{Told, told};
ghost use Rattle.sources.specs.Meanings.{Limits};
ghost use Rattle.sources.specs.Limiting.{limits_prop};
ghost use Rattle.sources.specs.Tables.{in_table, table_meaning, Opening};

use crate::source::{MOST_AXIOMS, MOST_ROLES, Source};
use terms::{Axiom, ClassSet, Fault, Layer, Refusal};

/// A source over axiom records that it only reads, with the class and role counts beside them; every name is empty.
#[derive(Clone, Copy)]
pub struct RecordTable<'a> {
    classes: u8,
    roles: u8,
    records: &'a [Axiom],
    ghost limits: { Limits (table_meaning classes roles records.now) } by { limits_prop _ },
}

/// Refuses too many classes, roles or records, and then the first record that is not well formed.
fn check(classes: u8, roles: u8, records: &[Axiom]) -> Result<(), Fault>
    ensures { Opening classes roles records.now (told result) }
{
    if classes > ClassSet::MOST || roles > MOST_ROLES || records.len() > MOST_AXIOMS {
        return Err(Refusal::TooMany.at(0, Layer::RecordTable));
    }
    for (i, record) in records.iter().enumerate() {
        record.check(classes, roles, i, Layer::RecordTable)?;
    }
    Ok(())
}

impl<'a> RecordTable<'a> {
    /// The empty table: no classes, roles or records.
    pub fn new() -> Self
        ensures { table_meaning result.classes result.roles result.records.now ≡ table_meaning 0 0 [] }
    {
        RecordTable {
            classes: 0,
            roles: 0,
            records: &[],
        }
    }

    /// Reads the caller's records from now on, or refuses them and stays as it was.
    pub fn open(&mut self, classes: u8, roles: u8, records: &'a [Axiom]) -> Result<(), Fault>
        ensures gives { Opening classes roles records.now (told result) }
        ensures only { (o : Told (Unit {0})) → Opening classes roles records.now o → o ≡ told result }
        ensures after { MatchResult result
            (λ _. table_meaning self.new.classes self.new.roles self.new.records.now ≡ table_meaning classes roles records.now)
            (λ _. self.new ≡ self.old) }
    {
        check(classes, roles, records)?;
        *self = RecordTable {
            classes,
            roles,
            records,
        };
        Ok(())
    }
}

impl<'a> Source for RecordTable<'a> {
    ghost meaning = { λ t. table_meaning t.classes t.roles t.records.now };

    ghost layer = { in_table };

    ghost limits = { λ t. t.limits };

    fn class_count(&self) -> u8 {
        self.classes
    }

    fn role_count(&self) -> u8 {
        self.roles
    }

    fn axiom_count(&self) -> usize {
        self.records.len()
    }

    fn axiom_at(&self, number: usize) -> Result<Axiom, Fault> {
        self.records
            .get(number)
            .copied()
            .ok_or(Layer::RecordTable.past_end())
    }

    fn name_len(&self, class: u8) -> Result<usize, Fault> {
        if class < self.classes {
            Ok(0)
        } else {
            Err(Layer::RecordTable.past_end())
        }
    }

    fn name_byte(&self, _class: u8, _index: usize) -> Result<u8, Fault> {
        Err(Layer::RecordTable.past_end())
    }
}
