//! The interface of a source of axioms.
ghost use Rattle.std.specs.Prelude.{◌≡◌, ◌<◌, ◌≤◌, length, slice_index, slice_index_or};
ghost use Rattle.terms.specs.Axioms.{blank};
ghost use Rattle.terms.specs.Refusals.{told, done, refused};
ghost use Rattle.terms.specs.declared.refusals.Layer.{Layer as LayerOf};
ghost use Rattle.sources.specs.Meanings.{Meaning, Limits, name_of};

use terms::{Axiom, Fault};

/// A source has at most this many roles.
pub const MOST_ROLES: u8 = 16;

/// A source has at most this many axioms.
pub const MOST_AXIOMS: usize = 1024;

/// A list of axioms over numbered classes and roles, the classes with names.
///
/// It answers from its meaning, changes nothing, and refuses a number past the end. By law it keeps its limits: at most 64 classes,
/// 16 roles and 1,024 axioms, each axiom over these and with at most three classes on the left, and names of at most 40 bytes.
pub trait Source {
    /// The class count, role count, names and axioms.
    ghost meaning: { Self → Meaning };

    /// The layer that its refusals name.
    ghost layer: { LayerOf };

    /// How many classes there are.
    fn class_count(&self) -> u8
        ensures { result ≡ (meaning self.now).classes };

    /// How many roles there are.
    fn role_count(&self) -> u8
        ensures { result ≡ (meaning self.now).roles };

    /// How many axioms there are.
    fn axiom_count(&self) -> usize
        ensures { result ≡ length (meaning self.now).axioms };

    /// The axiom at a number.
    fn axiom_at(&self, number: usize) -> Result<Axiom, Fault>
        ensures there { number < length (meaning self.now).axioms → told result ≡ done (slice_index_or (meaning self.now).axioms number blank) }
        ensures past { length (meaning self.now).axioms ≤ number → told result ≡ refused 10 0 layer };

    /// How many bytes a class's name has.
    fn name_len(&self, class: u8) -> Result<usize, Fault>
        ensures there { class < (meaning self.now).classes → told result ≡ done (length (name_of (meaning self.now) class)) }
        ensures past { (meaning self.now).classes ≤ class → told result ≡ refused 10 0 layer };

    /// One byte of a class's name.
    fn name_byte(&self, class: u8, index: usize) -> Result<u8, Fault>
        ensures there { class < (meaning self.now).classes → index < length (name_of (meaning self.now) class) → told result ≡ done (slice_index (name_of (meaning self.now) class) index) }
        ensures past { class < (meaning self.now).classes → length (name_of (meaning self.now) class) ≤ index → told result ≡ refused 10 0 layer }
        ensures absent { (meaning self.now).classes ≤ class → told result ≡ refused 10 0 layer };

    /// Every source keeps the limits.
    ghost limits: { (s : Self) → Limits (meaning s) };
}

/// A lent source is a source.
impl<'a, S: Source> Source for &'a S {
    ghost meaning = { λ s. S.Source.meaning s.now };

    ghost layer = { S.Source.layer };

    ghost limits = { λ s. S.Source.limits s.now };

    fn class_count(&self) -> u8 {
        (**self).class_count()
    }

    fn role_count(&self) -> u8 {
        (**self).role_count()
    }

    fn axiom_count(&self) -> usize {
        (**self).axiom_count()
    }

    fn axiom_at(&self, number: usize) -> Result<Axiom, Fault> {
        (**self).axiom_at(number)
    }

    fn name_len(&self, class: u8) -> Result<usize, Fault> {
        (**self).name_len(class)
    }

    fn name_byte(&self, class: u8, index: usize) -> Result<u8, Fault> {
        (**self).name_byte(class, index)
    }
}
