//! Finding a class by its name.
ghost use Rattle.std.specs.Prelude.{◌≡◌, ◌<◌, Decides};
ghost use Rattle.sources.specs.Meanings.{name_of};
ghost use Rattle.sources.specs.Names.{Finds};

use crate::source::Source;

/// Whether a class that is there has just that name.
fn has_name<S: Source>(source: &S, class: u8, name: &[u8]) -> bool
    requires { class < (S.Source.meaning source.now).classes }
    ensures { Decides result (name_of (S.Source.meaning source.now) class ≡ name.now) }
{
    source.name_len(class) == Ok(name.len())
        && name
            .iter()
            .enumerate()
            .all(|(i, byte)| source.name_byte(class, i) == Ok(*byte))
}

/// The lowest class of just that name, or `None` where no class has it.
pub fn find_class<S: Source>(source: &S, name: &[u8]) -> Option<u8>
    ensures { Finds (S.Source.meaning source.now) name.now result }
{
    // By a loop: that no lower class has the name is its invariant, where `find` would need a lemma about ranges.
    for class in 0..source.class_count() {
        if has_name(source, class, name) {
            return Some(class);
        }
    }
    None
}
