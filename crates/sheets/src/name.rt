//! Names of classes and roles.
ghost use Rattle.std.specs.Prelude.{◌≡◌, ◌≤◌, length, Decides, MatchOption};
ghost use Rattle.std.specs.List.{AllByRecursion};
ghost use Rattle.sheets.specs.Sheets.{Printed};

use arrayvec::ArrayVec;

/// The most bytes that a name has.
pub const MOST_BYTES: usize = 40;

/// The bytes of a name.
pub type Name = ArrayVec<u8, MOST_BYTES>;

/// The name with these bytes, where a name may have so many.
pub fn read(text: &[u8]) -> Option<Name>
    ensures { MatchOption result
        ((1 ≤ length text.now) × (length text.now ≤ 40) → ⊥)
        (λ n. (1 ≤ length text.now) × (length text.now ≤ 40) × (n.items ≡ text.now)) }
{
    if text.is_empty() {
        return None;
    }
    Name::try_from(text).ok()
}

/// Whether each byte is one that names may have.
pub fn is_printed(text: &[u8]) -> bool
    ensures { Decides result (AllByRecursion Printed text.now) }
{
    text.iter().all(|byte| matches!(*byte, 33..=126))
}
