//! The rows of a model.
ghost use Rattle.std.specs.Prelude.{◌≡◌, ℕ, ◌+◌, ◌*◌, ◌<◌, ◌≤◌, length, slice_index};
ghost use Rattle.worlds.specs.Models.{row_width};
ghost use Rattle.tables.specs.Tables.{tables};
ghost use Rattle.models.specs.Elements.{live_in};
ghost use Rattle.models.specs.Targets.{Row};
ghost use Rattle.models.specs.Writing.{Ready, Written};

use crate::classes::Element;
use crate::elements::Elements;
use crate::links::link_word;
use roles::Reach;
use tables::{ClauseRecord, ContextRecord, Counts};
use worlds::ModelTable;

impl<'a, 'b> Elements<'a, 'b> {
    /// Writes the row of the element of a slot: its classes, and then four words of links for each role.
    fn write_row(&self, row: &mut [u64], slot: u16, reach: &Reach)
        requires { (0 < length row.old) × (length row.old ≤ 65) }
        ensures { (roles : ℕ) → length row.old ≡ row_width roles
            → Row self.now.contexts.now self.now.clauses.now (live_in self.now.numbers) reach.now.rows roles slot (λ j. slice_index row.new j) }
    {
        let element = Element::of(self.clauses, slot);
        let links = self.wanted_links(element);
        row[0] = element.classes.bits();
        for (at, word) in row[1..].iter_mut().enumerate() {
            *word = link_word(&links, reach, (at / 4) as u8, at % 4);
        }
    }
}

/// Writes the canonical world of the tables into the first rows of the model table, and tells how many elements it has.
// The tables are lent whole, as saturating left them, and the counts tell the used slots.
pub fn write_model(
    model: &mut [u64],
    contexts: &[ContextRecord],
    clauses: &[ClauseRecord],
    counts: Counts,
    reach: &Reach,
    roles: u8,
) -> usize
    requires ready { Ready (tables contexts.now clauses.now counts) roles }
    requires room { counts.contexts * row_width roles ≤ length model.old }
    ensures { Written (tables contexts.now clauses.now counts) reach.now.rows roles result model.old model.new }
{
    let elements = Elements::of(contexts, &clauses[..counts.clauses]);
    let width = ModelTable::row_words(roles);
    let mut size = 0;
    // By slot: a loop over `elements` would lend it, and its invariant could not speak of it.
    for slot in 0..counts.contexts as u16 {
        if elements.number(slot).is_some() {
            let start = size * width;
            elements.write_row(&mut model[start..start + width], slot, reach);
            size += 1;
        }
    }
    size
}
