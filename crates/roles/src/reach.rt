//! For each role, the roles that it reaches.
ghost use Rattle.std.specs.Prelude.{◌≡◌, ℕ, ◌<◌, ◌&&◌, ◌||◌, length, slice_index};
ghost use Rattle.std.specs.List.{AllByRecursion};
ghost use Rattle.terms.specs.Sets.{has};
ghost use Rattle.roles.specs.Reaching.{Included, Shows};

use terms::{Axiom, ClassSet};

/// For each role below 16 the roles that it reaches, one bit a role.
#[derive(Clone, Copy)]
pub struct Reach {
    rows: [u64; 16],
    ghost ok: { length rows ≡ 16 },
}

impl Reach {
    /// Works out which roles reach which, from the last axiom to the first.
    pub fn of(axioms: &[Axiom]) -> Reach
        requires { AllByRecursion (Included 16) axioms.now }
        ensures { Shows axioms.now result.rows }
    {
        let mut rows = [0; 16];
        for (role, row) in rows.iter_mut().enumerate() {
            *row = ClassSet::single(role as u8).bits();
        }
        for axiom in axioms.iter().rev() {
            if let Axiom::RoleInclusion { sub, sup } = *axiom {
                include(&mut rows, sub, sup);
            }
        }
        Reach { rows }
    }

    /// Whether the role `from` reaches the role `to`.
    pub fn reaches(&self, from: u8, to: u8) -> bool
        requires { from < 16 }
        ensures { result ≡ has (slice_index self.now.rows from) to }
    {
        ClassSet::from_bits(self.rows[usize::from(from)]).contains(to)
    }
}

/// What reaches `sub` reaches all that `sup` does too.
fn include(rows: &mut [u64], sub: u8, sup: u8)
    requires { (length rows.old ≡ 16) × (sup < 16) }
    ensures { (p q : ℕ) → p < 16 → has (slice_index rows.new p) q
        ≡ (has (slice_index rows.old p) q || (has (slice_index rows.old p) sub && has (slice_index rows.old sup) q)) }
{
    let more = ClassSet::from_bits(rows[usize::from(sup)]);
    for row in rows {
        *row = widened(ClassSet::from_bits(*row), sub, more).bits();
    }
}

/// The row, and where it has `sub` also `more`.
fn widened(row: ClassSet, sub: u8, more: ClassSet) -> ClassSet
    ensures { (q : ℕ) → has result.bits q ≡ (has row.bits q || (has row.bits sub && has more.bits q)) }
{
    if row.contains(sub) {
        row.union(more)
    } else {
        row
    }
}
