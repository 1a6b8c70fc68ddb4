//! Loading a source's axioms, once for an ask.
ghost use Rattle.std.specs.Prelude.{◌≡◌, ◌≤◌, length};

use sources::Source;
use terms::{Axiom, ClassSet};

/// What fills a slot that no axiom was loaded into.
// All its bits are zero, which those of `Axiom::default()` are not: each ask fills 1,024 slots, and with these a small one took three times as long.
pub(crate) fn blank() -> Axiom {
    Axiom::Inclusion {
        lower: ClassSet::empty(),
        upper: ClassSet::empty(),
    }
}

/// Puts the source's axioms into the leading slots, and lends these.
pub(crate) fn load<'a, S: Source>(source: &S, slots: &'a mut [Axiom]) -> &'a [Axiom]
    requires { 1024 ≤ length slots.old }
    ensures { result.now ≡ (S.Source.meaning source.now).axioms }
{
    let count = source.axiom_count();
    for (number, slot) in slots[..count].iter_mut().enumerate() {
        *slot = source.axiom_at(number).unwrap();
    }
    &slots[..count]
}
