//! A sheet as a source of axioms, and its names.
ghost use Rattle.std.specs.Prelude.{◌≡◌, ◌<◌, ◌≤◌, [], length, MatchOption, slice_index_or};
ghost use Rattle.sheets.specs.Sheets.{in_sheet, meaning_of};
ghost use Rattle.sheets.specs.Lists.{spelled};
ghost use Rattle.sheets.specs.Held.{held};

use crate::contents::Sheet;
use crate::name::Name;
use arrayvec::ArrayVec;
use sources::Source;
use terms::{Axiom, Fault, Layer};

/// The bytes of the name at a number, where there is one.
fn name_at<const N: usize>(names: &ArrayVec<Name, N>, number: u8) -> Option<&[u8]>
    ensures { MatchOption result
        (length (spelled names.now.items) ≤ number)
        (λ n. (number < length (spelled names.now.items))
        × (n.now ≡ slice_index_or (spelled names.now.items) number [])) }
{
    names.get(usize::from(number)).map(|name| name.as_slice())
}

impl Sheet {
    /// The name of a class, where there is such a class.
    pub fn class_name(&self, class: u8) -> Option<&[u8]>
        ensures { MatchOption result
            (length (held self.now).classes ≤ class)
            (λ n. (class < length (held self.now).classes) × (n.now ≡ slice_index_or (held self.now).classes class [])) }
    {
        name_at(&self.classes, class)
    }

    /// The name of a role, where there is such a role.
    pub fn role_name(&self, role: u8) -> Option<&[u8]>
        ensures { MatchOption result
            (length (held self.now).roles ≤ role)
            (λ n. (role < length (held self.now).roles) × (n.now ≡ slice_index_or (held self.now).roles role [])) }
    {
        name_at(&self.roles, role)
    }
}

impl Source for Sheet {
    ghost meaning = { λ s. meaning_of (held s) };

    ghost layer = { in_sheet };

    ghost limits = { λ s. s.limits };

    fn class_count(&self) -> u8 {
        self.classes.len() as u8
    }

    fn role_count(&self) -> u8 {
        self.roles.len() as u8
    }

    fn axiom_count(&self) -> usize {
        self.axioms.len()
    }

    fn axiom_at(&self, number: usize) -> Result<Axiom, Fault> {
        self.axioms
            .get(number)
            .map(|statement| statement.said())
            .ok_or(Layer::Sheet.past_end())
    }

    fn name_len(&self, class: u8) -> Result<usize, Fault> {
        self.class_name(class)
            .map(|name| name.len())
            .ok_or(Layer::Sheet.past_end())
    }

    fn name_byte(&self, class: u8, index: usize) -> Result<u8, Fault> {
        self.class_name(class)
            .and_then(|name| name.get(index).copied())
            .ok_or(Layer::Sheet.past_end())
    }
}
